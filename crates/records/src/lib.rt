// The part of the soundness check that looks at one record of a table at a time: the header, a core, a channel. (A process has a crate of
// its own.)
#![tactic(auto)]

ghost use Rattle.std.specs.Prelude.{◌≡◌, ◌+◌, ◌≤◌, ◌&&◌, ◌==◌, true, length};
ghost use Rattle.std.specs.List.{fold};
ghost use Rattle.fitting.specs.Twin.{zeros};

pub mod channels; // a channel
pub mod cores; // a core's own words
pub mod header; // the header

// The words are all 0. All are read, so that several can be at a time: `all`, which stops at the first, takes a tenth more instructions
// for the whole check at N = 256.
fn are_zero(words: &[u32]) -> bool
    ensures { result ≡ fold (λ all w. all && w == 0) true words.now }
{
    words.iter().fold(true, |all, w| all & (*w == 0))
}

// The `count` words from `from` on are 0. (By place and count, as fitting's `zeros` has
// them.)
pub fn zeros(t: &[u32], from: usize, count: usize) -> bool
    requires { from + count ≤ length t.now }
    ensures { result ≡ zeros t.now from count }
{
    are_zero(&t[from..from + count])
}
