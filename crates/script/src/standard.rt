use std::io::Write;

// The standard output, as far as it can be written: a piece that fails is let go, and the next one is tried all the same.
#[derive(Clone, Copy, Debug, PartialEq, Eq)]
pub struct StandardOutput;

impl Write for StandardOutput {
    fn write(&mut self, piece: &[u8]) -> std::io::Result<usize> {
        io::write_all(1, piece);
        Ok(piece.len())
    }

    fn flush(&mut self) -> std::io::Result<()> {
        Ok(())
    }
}
