// Channel words by shift and mask (document 01, "The state"): "0 for nobody, otherwise twice the process number, with the lowest bit
// set when that process is choosing".
#![tactic(auto)]

ghost use Rattle.std.specs.Prelude.{◌≡◌, ◌/◌, ◌%◌, ◌<◌, ◌^◌};
ghost use Rattle.rules.specs.State.{plain, choosing};
ghost use Rattle.rules.specs.Packing.{word_number, word_numbered};
ghost use Rattle.words.specs.Meaning.{meaning};

// Who stands in a channel word.
#[derive(Clone, Copy, Debug, PartialEq, Eq)]
pub enum Holder {
    Nobody,
    Plain(u32),
    Choosing(u32),
}

// The name of process p in a channel word: twice its number. (Functions, since `From` asks nothing of its argument.)
pub fn plain_name(p: u32) -> u32
    requires { p < 2 ^ 31 }
    ensures { result ≡ word_number (plain p) }
{
    p << 1
}

// The same with the lowest bit set: p is choosing.
pub fn choosing_name(p: u32) -> u32
    requires { p < 2 ^ 31 }
    ensures { result ≡ word_number (choosing p) }
{
    p << 1 | 1
}

// The process that a channel word names.
pub fn named(word: u32) -> u32
    ensures { result ≡ word / 2 }
{
    word >> 1
}

// The choosing bit of a channel word.
pub fn choosing_bit(word: u32) -> u32
    ensures { result ≡ word % 2 }
{
    word & 1
}

impl From<u32> for Holder {
    ghost from_gives = { λ word holder. meaning holder ≡ word_numbered word };

    fn from(word: u32) -> Holder {
        if word == 0 {
            return Holder::Nobody;
        }
        let p = named(word);
        if choosing_bit(word) == 0 {
            Holder::Plain(p)
        } else {
            Holder::Choosing(p)
        }
    }
}
