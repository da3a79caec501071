ghost use Rattle.std.specs.Prelude.{◌≡◌, ℕ, ◌<◌, IfOk, IfSome, MatchOption, length, take};
ghost use Rattle.std.specs.Iterator.{at_most};
ghost use Rattle.script.specs.Text.{StandsAlone, IsFirst, GivesPart, parts_rest, parts_separator, parts_unless};

use std::alloc::Global;
use std::io;
use std::io::Read;

// A text is cut after so many bytes.
pub const TEXT_SIZE: u64 = 65536;

// What a reader gives up to its end, or up to the size of a text.
pub fn read<R: Read + Drop>(alloc: Global, reader: R) -> io::Result<Vec<u8>>
    ensures { IfOk result (λ text. IfSome (R.remaining reader) (λ bytes. text.items ≡ take TEXT_SIZE bytes)) }
{
    let mut text = Vec::new(alloc);
    reader.take(TEXT_SIZE).read_to_end(&mut text)?;
    Ok(text)
}

// Where b first stands with no `unless` right after it. A loop, as `position` sees a byte alone, and not the one after it.
pub fn find(s: &[u8], b: u8, unless: u8) -> Option<usize>
    ensures { MatchOption result ((at : ℕ) → ¬ StandsAlone s.now b unless at) (λ at. IsFirst s.now b unless at) }
{
    for (at, byte) in s.iter().enumerate() {
        if *byte == b && s.get(at + 1).copied() != Some(unless) {
            return Some(at);
        }
    }
    None
}

// The parts of a text that are left: each ends at a separator with no `unless` right after it, or at the end of the text.
#[derive(Clone, Copy)]
pub struct Parts<'a> {
    rest: &'a [u8],
    separator: u8,
    unless: u8,
}

impl<'a> Parts<'a> {
    pub(crate) fn new(text: &'a [u8], separator: u8, unless: u8) -> Self
        ensures rest { parts_rest result ≡ text.now }
        ensures separator { parts_separator result ≡ separator }
        ensures unless { parts_unless result ≡ unless }
    {
        Parts {
            rest: text,
            separator,
            unless,
        }
    }
}

impl<'a> Iterator for Parts<'a> {
    type Item = &'a [u8];

    ghost next_gives = { GivesPart };

    ghost remaining = { λ parts. at_most (length (parts_rest parts)) };

    fn next(&mut self) -> Option<&'a [u8]> {
        if self.rest.is_empty() {
            return None;
        }
        let rest = self.rest;
        match find(rest, self.separator, self.unless) {
            Some(at) => {
                self.rest = &rest[at + 1..];
                Some(&rest[..at])
            }
            None => {
                self.rest = &[];
                Some(rest)
            }
        }
    }
}

// The entries of a text: each ends at a newline that no blank follows.
pub fn entries(text: &[u8]) -> Parts<'_>
    ensures rest { parts_rest result ≡ text.now }
    ensures separator { parts_separator result ≡ 10 }
    ensures unless { parts_unless result ≡ 32 }
{
    Parts::new(text, b'\n', b' ')
}
