use crate::kind::Kind;
use crate::number::value;
use crate::put;
use crate::text::Parts;

// A word whose name says nothing is taken to stand so far into its record, past every record's end: what a list with one writes stays.
const NO_WORD: usize = 65535;

// A separator with a NUL right after it separates nothing.
const NUL: u8 = 0;

// An index as an address, modulo two to the 32: std has no conversion that wraps, and what a list past every table writes stays.
fn address(at: usize) -> u32 {
    (at % (1 << 32)) as u32
}

// The words that a list names last.
#[derive(Clone, Copy)]
pub struct Span {
    // the first word of the last record that has a word named, and where the next value goes
    pub first: u32,
    pub at: u32,
    // how far the last record is from the next one of its kind
    pub stride: u32,
}

// A record whose words are named: its kind, where it begins once its number is read, and the first of its words that was named.
#[derive(Clone, Copy)]
struct Record {
    kind: Kind,
    start: Option<u32>,
    first: Option<u32>,
}

// Where a list stands: where a number is a value and no record is named; past the end of a record; in a record.
#[derive(Clone, Copy)]
enum Place {
    Values,
    Ended,
    Record(Record),
}

// A list of words while it is read: the table that is written, and what is done with a name that says nothing.
#[derive(Drop)]
struct List<'a, F> {
    table: &'a mut [u32],
    unknown: F,
    place: Place,
    span: Span,
}

impl<F: FnMut(&[u8])> List<'_, F> {
    // A number: a value, or the record's; the first number after the end of a record says nothing.
    fn number(&mut self, n: u32) {
        let place = self.place;
        match place {
            Place::Ended => self.place = Place::Values,
            Place::Record(record) if record.start.is_none() => {
                let start = Some(address(record.kind.start(self.table, n)));
                self.place = Place::Record(Record { start, ..record });
            }
            _ => {
                put(self.table, self.span.at, n);
                self.span.at = self.span.at.wrapping_add(1);
            }
        }
    }

    // The name of a kind of record. The header is the one of its kind, and begins at the first word.
    fn record(&mut self, kind: Option<Kind>) {
        self.place = kind.map_or(Place::Ended, |kind| {
            let start = (kind == Kind::Header).then_some(0);
            Place::Record(Record {
                kind,
                start,
                first: None,
            })
        });
        self.span.stride = kind.map_or(0, |kind| address(kind.stride()));
    }

    // The name of a word of a record.
    fn word(&mut self, record: Record, offset: Option<usize>) {
        let start = record.start.unwrap_or(0);
        let at = start.wrapping_add(address(offset.unwrap_or(NO_WORD)));
        let first = record.first.unwrap_or(at);
        self.span.first = first;
        self.span.at = at;
        self.place = Place::Record(Record {
            first: Some(first),
            ..record
        });
    }

    // A name, which is given to the caller where it says nothing.
    fn name(&mut self, name: &[u8])
        requires { (state : F) (name : _) → F.pre state name }
    {
        let known = match self.place {
            Place::Record(record) => {
                let offset = record.kind.word(name);
                self.word(record, offset);
                offset.is_some()
            }
            _ => {
                let kind = Kind::named(name);
                self.record(kind);
                kind.is_some()
            }
        };
        if !known {
            (self.unknown)(name);
        }
    }

    // One more piece of the list.
    fn piece(&mut self, piece: &[u8])
        requires { (state : F) (name : _) → F.pre state name }
    {
        match piece {
            [] | b"to" | b"step" => {}
            [b'0'..=b'9', ..] => self.number(leading_number(piece)),
            _ => self.name(piece),
        }
    }

    // What stands up to a comma or the end of the line: one record.
    fn pieces(&mut self, pieces: &[u8])
        requires { (state : F) (name : _) → F.pre state name }
    {
        for piece in Parts::new(pieces, b' ', NUL) {
            self.piece(piece);
        }
        self.place = Place::Ended;
    }

    fn line(&mut self, line: &[u8])
        requires { (state : F) (name : _) → F.pre state name }
    {
        for pieces in Parts::new(before_comment(line), b',', NUL) {
            self.pieces(pieces);
        }
        self.place = Place::Ended;
    }
}

// The number that a piece begins with.
fn leading_number(piece: &[u8]) -> u32 {
    value(piece.split(|b| !b.is_ascii_digit()).next().unwrap_or(piece))
}

// A line up to its comment, which begins at a `#` where a piece would. A loop, as `position` sees a byte alone, and not the one before it.
fn before_comment(line: &[u8]) -> &[u8] {
    let mut begins = true;
    for (at, b) in line.iter().enumerate() {
        if begins && *b == b'#' {
            return &line[..at];
        }
        begins = matches!(*b, b' ' | b',');
    }
    line
}

// Writes what a list of words says into a table, and names that say nothing out; says which words it names.
pub fn words(text: &[u8], table: &mut [u32]) -> Span {
    words_with(text, table, |name| {
        io::write_all(1, b"unknown: ");
        io::write_all(1, name);
    })
}

// The same, with what is done with a name that says nothing.
pub fn words_with<F: FnMut(&[u8])>(text: &[u8], table: &mut [u32], unknown: F) -> Span
    requires { (state : F) (name : _) → F.pre state name }
{
    // before any record values go to the header's first words
    let span = Span {
        first: 0,
        at: address(layout::HEADER_CORES),
        stride: 0,
    };
    let mut list = List {
        table,
        unknown,
        place: Place::Values,
        span,
    };
    for line in Parts::new(text, b'\n', NUL) {
        list.line(line);
    }
    list.span
}
