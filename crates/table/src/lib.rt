// The words of a lent table at fixed offsets (docs/PACKING.md): the header's sizes, and the records of cores, processes and channels.
#![tactic(auto)]

ghost use Rattle.std.specs.Prelude.{◌≡◌, ℕ, ◌+◌, ◌≤◌, ◌<◌, length, get_or, set, replicate, eqb};
ghost use Rattle.std.proofs.lemmas.List.Edits.{sets};
ghost use Rattle.rules.specs.Lists.{within};
ghost use Rattle.rules.specs.SetUp.{sizes};
ghost use Rattle.rules.specs.Layout.{header_size, header_cores, header_processes, header_channels, room, core_at, process_at, channel_at};

use layout::{
    CHANNEL_STRIDE, CORE_STRIDE, HEADER_CHANNELS, HEADER_CORES, HEADER_PROCESSES, HEADER_SIZE,
    PROCESS_STRIDE,
};

// K, N and M, by which the records have their places.
#[derive(Clone, Copy, Debug, PartialEq, Eq)]
pub struct Sizes {
    pub cores: usize,
    pub processes: usize,
    pub channels: u32,
}

// x is one of low, .. high.
pub fn within(low: u32, high: usize, x: u32) -> bool
    ensures { result ≡ within low high x }
{
    (low <= x) & (x as usize <= high)
}

impl Sizes {
    // What the header of a table says.
    pub fn read(t: &[u32]) -> Sizes
        requires { header_size ≤ length t.now }
        ensures cores { result.cores ≡ get_or t.now header_cores 0 }
        ensures processes { result.processes ≡ get_or t.now header_processes 0 }
        ensures channels { result.channels ≡ get_or t.now header_channels 0 }
    {
        Sizes {
            cores: t[HEADER_CORES] as usize,
            processes: t[HEADER_PROCESSES] as usize,
            channels: t[HEADER_CHANNELS],
        }
    }

    // K 1 to 8, N 1 to 256, M 0 to 256.
    pub fn are_allowed(self) -> bool
        ensures { result ≡ sizes self.cores self.processes self.channels }
    {
        ((1 <= self.cores) & (self.cores <= 8))
            & ((1 <= self.processes) & (self.processes <= 256))
            & (self.channels <= 256)
    }

    // The number of words of a table of these sizes.
    pub fn room(self) -> usize
        requires { (self.cores ≤ 8) × ((self.processes ≤ 256) × (self.channels ≤ 256)) }
        ensures { result ≡ room self.cores self.processes self.channels }
    {
        HEADER_SIZE
            + CORE_STRIDE * self.cores
            + PROCESS_STRIDE * self.processes
            + CHANNEL_STRIDE * self.channels as usize
    }
}

// A record of a table, whose words go by their numbers f. (A word that names a process is 0 for none, and is tested where it is read.)
pub trait Record: Copy {
    // where the word f stands
    ghost at: { Self → ℕ → ℕ };

    // the record's number is one that such records have
    ghost numbered: { Self → Type 0 };

    fn at(self, t: &[u32], f: usize) -> usize
        requires from { numbered self }
        requires reaches { at self f ≤ length t.now }
        ensures { result ≡ at self f };

    final fn word(self, t: &[u32], f: usize) -> u32
        requires from { numbered self }
        requires reaches { at self f < length t.now }
        ensures { result ≡ get_or t.now (at self f) 0 }
    {
        t[self.at(t, f)]
    }

    final fn set(self, t: &mut [u32], f: usize, v: u32)
        requires from { numbered self }
        requires reaches { at self f < length t.old }
        ensures { t.new ≡ set t.old (at self f) v }
    {
        let at = self.at(t, f);
        t[at] = v;
    }

    // The n words from the word f on become 0.
    final fn zero(self, t: &mut [u32], f: usize, n: usize)
        requires from { numbered self }
        requires reaches { at self f + n ≤ length t.old }
        ensures { t.new ≡ sets t.old (at self f) (replicate n 0) }
    {
        let at = self.at(t, f);
        zero_words(t, at, n);
    }

    // The words from the word f on become these.
    final fn set_all(self, t: &mut [u32], f: usize, words: &[u32])
        requires from { numbered self }
        requires reaches { at self f + length words.now ≤ length t.old }
        ensures { t.new ≡ sets t.old (at self f) words.now }
    {
        let at = self.at(t, f);
        set_words(t, at, words);
    }
}

#[derive(Clone, Copy, Debug, PartialEq, Eq)]
pub struct Core(pub usize);

// (That a table reaches to a process or channel stays a clause, of specs/Has.antt: a type that held it would hold the slice that the host
// lends. Two types, since their places differ.)
#[derive(Clone, Copy, Debug, PartialEq, Eq)]
pub struct Process {
    pub sizes: Sizes,
    pub number: u32,
}

#[derive(Clone, Copy, Debug, PartialEq, Eq)]
pub struct Channel {
    pub sizes: Sizes,
    pub number: u32,
}

impl Record for Core {
    ghost at = { λ r f. core_at r.0 f };

    ghost numbered = { λ r. 0 ≤ r.0 };

    fn at(self, t: &[u32], f: usize) -> usize {
        HEADER_SIZE + CORE_STRIDE * self.0 + f
    }
}

impl Record for Process {
    ghost at = { λ r f. process_at r.sizes.cores r.number f };

    ghost numbered = { λ r. 1 ≤ r.number };

    fn at(self, t: &[u32], f: usize) -> usize {
        let i = self.number as usize;
        HEADER_SIZE + CORE_STRIDE * self.sizes.cores + PROCESS_STRIDE * (i - 1) + f
    }
}

impl Record for Channel {
    ghost at = { λ r f. channel_at r.sizes.cores r.sizes.processes r.number f };

    ghost numbered = { λ r. 1 ≤ r.number };

    fn at(self, t: &[u32], f: usize) -> usize {
        let i = self.number as usize;
        HEADER_SIZE
            + CORE_STRIDE * self.sizes.cores
            + PROCESS_STRIDE * self.sizes.processes
            + CHANNEL_STRIDE * (i - 1)
            + f
    }
}

// Process p may use an end of channel c: the word f is its writer or its reader.
pub fn may_use(t: &[u32], c: Channel, f: usize, p: u32) -> bool
    requires { (1 ≤ c.number) × (channel_at c.sizes.cores c.sizes.processes c.number f < length t.now) }
    ensures { result ≡ eqb (get_or t.now (channel_at c.sizes.cores c.sizes.processes c.number f) 0) p }
{
    c.word(t, f) == p
}

// The n words from `at` on become 0.
fn zero_words(t: &mut [u32], at: usize, n: usize)
    requires { at + n ≤ length t.old }
    ensures { t.new ≡ sets t.old at (replicate n 0) }
{
    t[at..at + n].fill(0);
}

// The words from `at` on become these. (A loop: `copy_from_slice` calls memmove, which the archive for C is not to need from outside.)
fn set_words(t: &mut [u32], at: usize, words: &[u32])
    requires { at + length words.now ≤ length t.old }
    ensures { t.new ≡ sets t.old at words.now }
{
    for (i, word) in words.iter().enumerate() {
        t[at + i] = *word;
    }
}
