// Where the queues of a core begin and end.
ghost use Rattle.std.specs.Prelude.{◌≡◌, ◌+◌, ◌<◌, ◌≤◌, length};
ghost use Rattle.rules.specs.Layout.{process_at, process_stride};
ghost use Rattle.table.specs.Has.{HasCore};
ghost use Rattle.soundness.specs.Parts.{first_of, stand_at, next_head, next_fits, queue_ends};

use table::{Core, Process, Record, Sizes};

// A queue of a core: the active one has the head 0, a batch goes by its head. (A word, as the table has it, where 0 is none: an enum would
// be made of each such word and taken apart again in each function.)
#[derive(Clone, Copy, Debug, PartialEq, Eq)]
pub struct Queue {
    pub sizes: Sizes,
    pub core: Core,
    pub head: u32,
}

impl Queue {
    // The head's record, of a batch.
    fn record(self) -> Process
        ensures sizes { result.sizes ≡ self.sizes }
        ensures number { result.number ≡ self.head }
    {
        Process {
            sizes: self.sizes,
            number: self.head,
        }
    }

    // Its first process: of a batch it is the head.
    pub fn first(self, t: &[u32]) -> u32
        requires { HasCore t.now self.core.0 }
        ensures { result ≡ first_of t.now self.core.0 self.head }
    {
        if self.head == 0 {
            self.core.word(t, layout::CORE_FIRST)
        } else {
            self.head
        }
    }

    // The head of the batch that follows it.
    pub fn next_head(self, t: &[u32]) -> u32
        requires core { HasCore t.now self.core.0 }
        requires head { process_at self.sizes.cores self.head process_stride ≤ length t.now }
        ensures { result ≡ next_head t.now self.sizes.cores self.core.0 self.head }
    {
        if self.head == 0 {
            self.core.word(t, layout::CORE_FIRST_HEAD)
        } else {
            self.record().word(t, layout::PROCESS_NEXT_HEAD)
        }
    }

    // What follows it: another batch, or nothing, and then the core's last head is this one.
    fn next_fits(self, t: &[u32], next: u32) -> bool
        requires { HasCore t.now self.core.0 }
        ensures { result ≡ next_fits t.now self.sizes.processes self.core.0 self.head next }
    {
        if next == 0 {
            self.core.word(t, layout::CORE_LAST_HEAD) == self.head
        } else {
            next as usize <= self.sizes.processes
        }
    }

    // Its last process and its size stand where they are kept, and what follows fits.
    pub fn ends(self, t: &[u32], last: u32, size: u32) -> bool
        requires core { HasCore t.now self.core.0 }
        requires head { process_at self.sizes.cores self.head process_stride ≤ length t.now }
        ensures { result ≡ queue_ends t.now self.sizes.cores self.sizes.processes self.core.0 self.head last size }
    {
        let follows = self.next_fits(t, self.next_head(t));
        if self.head == 0 {
            stand_at(t, self.core.at(t, layout::CORE_LAST), last, size) & follows
        } else {
            stand_at(t, self.record().at(t, layout::PROCESS_LAST), last, size) & follows
        }
    }
}

// A queue's last process and its size stand at the word `at` and next to it.
fn stand_at(t: &[u32], at: usize, last: u32, size: u32) -> bool
    requires { at + 1 < length t.now }
    ensures { result ≡ stand_at t.now at last size }
{
    (t[at] == last) & (t[at + 1] == size)
}
