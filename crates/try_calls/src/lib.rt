// Makes the calls that a text asks for, and writes each entry with what it gave: of a call the number, the answer words if it wrote any,
// and `unchanged` where the table is as it was. The entries:
//     case ..                                a heading
//     length K N M D                         as many words are lent as a table of these sizes has, and D more (`-D`: D fewer); `none`
//     answers LENGTH                         so many are lent as the answer slice: 0 to 4, and at first as many as an answer has
//     set-up K N M WRITER READER ..          the calls
//     send CORE CHANNEL VALUE
//     receive CORE CHANNEL
//     choose CORE GUARD ..
//     yield CORE
//     end CORE
//     step CORE
//     write WORDS                            writes words of the table by hand (crates/script says how they are named)
//     show WORD, show WORD to WORD           shows words of the table
// An entry that begins with none of these names ends a process.
#![tactic(auto)]

ghost use Rattle.std.specs.Prelude.{◌≡◌, drop};
ghost use Rattle.try_calls.specs.Made.{IsMade};

use script::{Span, StandardOutput};
use std::alloc::Global;
use std::io::{Read, Write};

// What an entry asks for.
#[derive(Clone, Copy, Debug, PartialEq, Eq)]
enum Order {
    Heading,
    Length,
    Answers,
    Write,
    Show,
    Call(Call),
}

#[derive(Clone, Copy, Debug, PartialEq, Eq)]
enum Call {
    SetUp,
    Send,
    Receive,
    Choose,
    Yield,
    End,
    Step,
}

impl Order {
    // What an entry asks for by the name that it begins with.
    fn of(entry: &[u8]) -> Order {
        let named = [
            ("case", Order::Heading),
            ("length", Order::Length),
            ("answers", Order::Answers),
            ("write", Order::Write),
            ("show", Order::Show),
            ("set-up", Order::Call(Call::SetUp)),
            ("send", Order::Call(Call::Send)),
            ("receive", Order::Call(Call::Receive)),
            ("choose", Order::Call(Call::Choose)),
            ("yield", Order::Call(Call::Yield)),
            ("step", Order::Call(Call::Step)),
        ];
        named
            .iter()
            .find(|(name, _)| entry.starts_with(name.as_bytes()))
            .map_or(Order::Call(Call::End), |(_, order)| *order)
    }
}

// How many words are lent.
#[derive(Clone, Copy)]
struct Lent {
    table: usize,
    answer: usize,
}

// The numbers from the n-th on.
fn from(numbers: &[u32], n: usize) -> &[u32]
    ensures { result.now ≡ drop n numbers.now }
{
    numbers.get(n..).unwrap_or(&[])
}

// Makes a call with its numbers, of which each that is missing is 0. A match, as the calls are closed, and each takes other numbers.
fn make(call: Call, numbers: &[u32], table: &mut [u32], answer: &mut [u32]) -> u32
    ensures { IsMade call numbers.now (record { table = table.old; answer = answer.old }) result
        (record { table = table.new; answer = answer.new }) }
{
    let first = script::word(numbers, 0);
    let second = script::word(numbers, 1);
    let third = script::word(numbers, 2);
    match call {
        Call::SetUp => {
            fontarisca::fontarisca_set_up(first, second, third, from(numbers, 3), table)
        }
        Call::Send => fontarisca::fontarisca_send(table, answer, first, second, third),
        Call::Receive => fontarisca::fontarisca_receive(table, answer, first, second),
        Call::Choose => fontarisca::fontarisca_choose(table, answer, first, from(numbers, 1)),
        Call::Yield => fontarisca::fontarisca_yield(table, answer, first),
        Call::End => fontarisca::fontarisca_end(table, answer, first),
        Call::Step => fontarisca::fontarisca_step(table, answer, first),
    }
}

// Words that no call writes as an answer, so that it can be seen whether one wrote any.
const NO_ANSWER: [u32; 4] = [99; 4];

// Writes what a list of words says into a table, and names that say nothing out, as far as they can be written.
fn name_words<W: Write>(out: &mut W, words: &[u8], table: &mut [u32]) -> Span {
    script::words_with(words, table, |name| {
        let _ = out.write_all(b"unknown: ");
        let _ = out.write_all(name);
    })
}

fn write_words<W: Write>(out: &mut W, words: &[u32]) -> std::io::Result<()> {
    for word in words {
        write!(out, " {word}")?;
    }
    Ok(())
}

// The table that the calls are made on, and what of it is lent.
#[derive(Drop)]
struct Bench {
    table: [u32; script::WORDS],
    lent: Lent,
}

impl Bench {
    fn new() -> Bench {
        Bench {
            table: script::zeros(),
            lent: Lent {
                table: 0,
                answer: answers::ANSWER_SIZE,
            },
        }
    }

    // The call's number, the answer words where they were written, and whether the table is as it was.
    fn try_call<W: Write>(
        &mut self,
        out: &mut W,
        call: Call,
        numbers: &[u32],
    ) -> std::io::Result<()> {
        let before = self.table;
        let mut answer = NO_ANSWER;
        let table_size = self.lent.table.min(self.table.len());
        let answer_size = self.lent.answer.min(answer.len());
        let number = make(
            call,
            numbers,
            &mut self.table[..table_size],
            &mut answer[..answer_size],
        );
        out.write_all(b":")?;
        write!(out, " {number}")?;
        if answer != NO_ANSWER {
            write_words(out, script::lent(&answer, answers::ANSWER_SIZE))?;
        }
        if self.table == before {
            write!(out, " unchanged")?;
        }
        Ok(())
    }

    fn show<W: Write>(&mut self, out: &mut W, words: &[u8]) -> std::io::Result<()> {
        let span = name_words(out, words, &mut self.table);
        let named = from(
            script::lent(&self.table, span.at as usize + 1),
            span.first as usize,
        );
        write!(out, ":")?;
        write_words(out, named)
    }

    // Does what an entry asks for. The words that it names stand after the first blank that no blank follows.
    // A match, as the orders are closed, and each asks for something else.
    fn perform<W: Write>(&mut self, out: &mut W, entry: &[u8]) -> std::io::Result<()> {
        let mut room = script::zeros();
        let numbers = script::numbers(entry, &mut room);
        let words = &entry[script::find(entry, b' ', b' ').unwrap_or(entry.len())..];
        match Order::of(entry) {
            Order::Heading => {}
            Order::Length => self.lent.table = script::length(entry),
            Order::Answers => self.lent.answer = script::word(numbers, 0) as usize,
            Order::Write => {
                name_words(out, words, &mut self.table);
            }
            Order::Show => self.show(out, words)?,
            Order::Call(call) => self.try_call(out, call, numbers)?,
        }
        Ok(())
    }
}

// Writes the first line of an entry, and what it gave.
fn try_entry<W: Write>(bench: &mut Bench, out: &mut W, entry: &[u8]) -> std::io::Result<()> {
    if entry.is_empty() || entry.starts_with(b"#") {
        return Ok(());
    }
    let line = entry.split(|b| *b == b'\n').next().unwrap_or(entry);
    out.write_all(line)?;
    bench.perform(out, entry)?;
    out.write_all(b"\n")
}

fn try_entries<W: Write>(text: &[u8], out: &mut W) -> std::io::Result<()> {
    let mut bench = Bench::new();
    for entry in script::entries(text) {
        try_entry(&mut bench, out, entry)?;
    }
    Ok(())
}

// Does the entries of the standard input, also those before a read that fails, and writes what can be written.
pub fn run() {
    let mut room = io::large_buffer();
    let size = io::read_full(0, &mut room);
    let _ = try_entries(&room[..size], &mut StandardOutput);
}

// Does the entries of an input; stops at what can't be read or written, but for a name that says nothing, and gives the error back.
pub fn run_on<R: Read + Drop, W: Write>(
    alloc: Global,
    input: R,
    out: &mut W,
) -> std::io::Result<()> {
    let text = script::read(alloc, input)?;
    try_entries(&text, out)
}

#[cfg(test)]
mod tests {
    use super::*;
    use std::test::Fail;

    #[test]
    fn a_table_is_built(rt: HostRuntime) -> Result<(), Fail> {
        let mut out = Vec::new(rt.alloc());
        let text = b"length 1 2 1\nset-up 1 2 1 1 2\nstep 0\nshow core 0 runs";
        run_on(rt.alloc(), text.as_slice(), &mut out)?;
        let given = b"length 1 2 1\nset-up 1 2 1 1 2: 0\nstep 0: 2 0 0 0\nshow core 0 runs: 0\n";
        assert_eq!(rt; out.as_slice(), given.as_slice());
        Ok(())
    }
}
