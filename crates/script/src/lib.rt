// A text of entries, for the programs that try the runtime. An entry is a line with the lines after it that begin with a blank: a name,
// then decimal numbers, or words of a table by name. `#` begins a comment, up to the end of its line.
//
// Words of a table are named by the kind of their record (header, core, process, channel), the record's number, and their names in
// crates/layout. A comma or the end of the line ends the record. The table's own header says where the records are.
//     core 0 runs 1, process 2 place 1 next 5      writes 1, 1 and 5
//     process 2 first-guard 1 2                    writes 1, and 2 into the word after
//     process 2 place to count                     the words from one to another, to be shown
//     process 1 to 9 next 2 step 1                 2, 3, .. in the records 1 to 9, where an entry is for that
//
// A text is bytes, as it is written out: a name need not be UTF-8.
#![tactic(auto)]

ghost use Rattle.std.specs.Prelude.{◌≡◌, replicate, slice_index, slice_set, take};

mod kind;
mod list;
mod number;
mod standard;
mod text;

pub use kind::{room, table_length};
pub use list::{Span, words, words_with};
pub use number::{length, numbers};
pub use standard::StandardOutput;
pub use text::{Parts, TEXT_SIZE, entries, find, read};

// How many words a table has that is tried, however few of them are lent.
pub const WORDS: usize = 16384;

// A table of zeros, with room for every table that is tried.
pub fn zeros() -> [u32; WORDS]
    ensures { result ≡ replicate WORDS 0 }
{
    [0; WORDS]
}

// The word at an index, or 0 past the end.
pub fn word(t: &[u32], at: usize) -> u32
    ensures { result ≡ slice_index t.now at }
{
    t.get(at).copied().unwrap_or(0)
}

// Writes v at an address, if there is such a word.
pub fn put(t: &mut [u32], address: u32, v: u32)
    ensures { t.new ≡ slice_set t.old address v }
{
    let at = address as usize;
    if at < t.len() {
        t[at] = v;
    }
}

// The first words, as many as are lent, as far as there are such words.
pub fn lent(t: &[u32], size: usize) -> &[u32]
    ensures { result.now ≡ take size t.now }
{
    &t[..size.min(t.len())]
}

#[cfg(test)]
mod tests {
    use super::*;
    use std::io::Write;
    use std::test::Fail;

    #[test]
    fn a_table_is_filled_by_name(rt: HostRuntime) -> Result<(), Fail> {
        let mut table = zeros();
        let mut unknown = Vec::new(rt.alloc());
        let list = b"header cores 1 2, process 2 first-guard 7 8 # 9\n core 0 mark 3, core x";
        let span = words_with(list, &mut table, |name| {
            let _ = unknown.write_all(name);
        });
        for (at, value) in [(0, 1), (1, 2), (60, 7), (61, 8), (15, 3), (16383, 0)] {
            assert_eq!(rt; word(&table, at), value, "at {at}");
        }
        assert_eq!(rt; span.stride, 16);
        assert_eq!(rt; unknown.as_slice(), b"x".as_slice());
        Ok(())
    }

    #[test]
    fn numbers_are_read(rt: HostRuntime) -> Result<(), Fail> {
        let text = read(rt.alloc(), b"1 2 1 -3 # 4\n4294967299".as_slice())?;
        let mut out = [0; 6];
        assert_eq!(rt; numbers(&text, &mut out), [1, 2, 1, 3, 3].as_slice());
        assert_eq!(rt; length(&text), 8 + 16 + 48 + 4 - 3);
        assert_eq!(rt; length(b"none"), 0);
        Ok(())
    }
}
