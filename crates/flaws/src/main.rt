// Tables with a flaw, and sound ones beside them. The entries of `stdin`, with words of a table by name (crates/script says how):
//     table: K N M WORDS      the table that the next entries begin with: its sizes, and the words that aren't 0
//     length: K N M D         as many words are lent as a table of these sizes has, and D more (`-D`: D fewer); `none`: no word
//     spread: KIND P to Q WORD FIRST step STEP      in the records P, P + 1, .. Q: FIRST, FIRST + STEP, ..
//     NAME: WORDS             writes NAME, and whether the table with these words in it is sound
// A name in brackets is a heading, written as it stands.
#![tactic(auto)]

use script::{Span, StandardOutput};
use std::io::Write;

// What an entry asks for; what stands after its name goes with it.
#[derive(Clone, Copy, Debug)]
enum Entry<'a> {
    Heading(&'a [u8]),
    Table(&'a [u8]),
    Length(&'a [u8]),
    Spread(&'a [u8]),
    Verdict { name: &'a [u8], words: &'a [u8] },
}

impl<'a> Entry<'a> {
    // None where it is a comment, or has no name.
    fn parse(entry: &'a [u8]) -> Option<Entry<'a>> {
        match entry {
            [b'[', ..] => return Some(Entry::Heading(entry)),
            [b'#', ..] => return None,
            _ => {}
        }
        let end = script::find(entry, b':', b':')?;
        let name = &entry[..end];
        let words = &entry[end + 1..];
        Some(match name {
            b"table" => Entry::Table(words),
            b"length" => Entry::Length(words),
            b"spread" => Entry::Spread(words),
            _ => Entry::Verdict { name, words },
        })
    }
}

// The table that the next entries begin with, and how many of its words are lent.
#[derive(Drop)]
struct Trial {
    table: [u32; script::WORDS],
    lent: usize,
}

impl Trial {
    // A match, as the kinds of entries are closed, and each asks for something else.
    fn perform<W: Write>(&mut self, out: &mut W, entry: Entry<'_>) -> std::io::Result<()> {
        match entry {
            Entry::Heading(heading) => {
                out.write_all(heading)?;
                out.write_all(b"\n")
            }
            Entry::Table(words) => {
                self.begin(words);
                Ok(())
            }
            Entry::Length(sizes) => {
                self.lent = script::length(sizes);
                Ok(())
            }
            Entry::Spread(words) => {
                self.spread(words);
                Ok(())
            }
            Entry::Verdict { name, words } => self.judge(out, name, words),
        }
    }

    fn begin(&mut self, words: &[u8]) {
        self.table = script::zeros();
        script::words(words, &mut self.table);
        self.lent = script::table_length(&self.table);
    }

    // The entry's numbers are the two records, the first value and the step; the word is found in a copy, into which they are written too.
    fn spread(&mut self, words: &[u8]) {
        let mut numbers = [0; 4];
        script::numbers(words, &mut numbers);
        let mut copy = self.table;
        let span = script::words(words, &mut copy);
        write_spread(&mut self.table, span, numbers);
    }

    fn judge<W: Write>(&self, out: &mut W, name: &[u8], words: &[u8]) -> std::io::Result<()> {
        let mut table = self.table;
        script::words(words, &mut table);
        let sound = soundness::sound(script::lent(&table, self.lent));
        out.write_all(name)?;
        if sound {
            out.write_all(b": sound\n")
        } else {
            out.write_all(b": unsound\n")
        }
    }
}

// Writes a value into the named word of each record from one to another.
fn write_spread(table: &mut [u32], span: Span, numbers: [u32; 4]) {
    let [from, to, first, step] = numbers;
    let records = to.checked_sub(from).map_or(0, |more| more.wrapping_add(1));
    let mut address = span.first;
    let mut value = first;
    for _ in 0..records {
        script::put(table, address, value);
        address = address.wrapping_add(span.stride);
        value = value.wrapping_add(step);
    }
}

fn try_tables<W: Write>(text: &[u8], out: &mut W) -> std::io::Result<()> {
    let mut trial = Trial {
        table: script::zeros(),
        lent: 0,
    };
    for entry in script::entries(text).filter_map(Entry::parse) {
        trial.perform(out, entry)?;
    }
    Ok(())
}

// Does what can be read of the input, also before a read that fails, and writes what can be written.
fn main() {
    let mut room = io::large_buffer();
    let size = io::read_full(0, &mut room);
    let _ = try_tables(&room[..size], &mut StandardOutput);
}
