// The queues of a core as chains in the table (docs/PACKING.md, "Queues"): a few words are written, whatever a queue's length.
#![tactic(auto)]

ghost use Rattle.std.specs.Prelude.{◌≡◌, ◌<◌, set, eqb, if◌then◌else◌};
ghost use Rattle.rules.specs.Layout.{core_stride, process_stride, process_at, process_place, place_queued};
ghost use Rattle.packing.specs.Queues.{link_end, push_table, take_table, store_heads, store_table, split_table, load_table};
ghost use Rattle.table.specs.Has.{HasCore, HasProcess};
ghost use Rattle.queues.specs.Parts.{active_table, batch_table, alone_table, no_batch_table};
ghost use Rattle.queues.specs.RunQueue.{has_batch, whole, stored_table, loaded_table};
ghost use Rattle.queues.specs.Fits.{CanLink, CanPush, CanJoin, CanTake, CanBatch, CanSplit, CanStore, CanLoadFirst, CanLoad};

use layout::{
    CORE_FIRST, CORE_FIRST_HEAD, CORE_LAST, CORE_LAST_HEAD, CORE_MARK, CORE_SIZE, PROCESS_LAST,
    PROCESS_NEXT, PROCESS_NEXT_HEAD, PROCESS_PLACE, PROCESS_SIZE, Place,
};
use table::{Core, Process, Record, Sizes};

// Process p is linked behind the last one b by the word g of b; where there is none it is the first, the word f of the core. (b is a word
// as the table has it, where 0 is none, here and below: an Option would be made of it and taken apart at once.)
fn link_end(t: &mut [u32], core: Core, f: usize, g: usize, b: u32, p: Process)
    requires linkable { CanLink t.old p.sizes.cores core.0 b }
    requires of_core { f < core_stride }
    requires of_process { g < process_stride }
    ensures { t.new ≡ link_end f g b p.number t.old p.sizes.cores core.0 }
{
    if b == 0 {
        core.set(t, f, p.number);
    } else {
        let last = Process {
            sizes: p.sizes,
            number: b,
        };
        last.set(t, g, p.number);
    }
}

// q goes to the end of the active queue.
pub fn push(t: &mut [u32], core: Core, q: Process)
    requires { CanPush t.old q.sizes.cores core.0 }
    ensures { t.new ≡ push_table t.old q.sizes.cores core.0 q.number }
{
    let old_last = core.word(t, CORE_LAST);
    let size = core.word(t, CORE_SIZE);
    link_end(t, core, CORE_FIRST, PROCESS_NEXT, old_last, q);
    core.set(t, CORE_LAST, q.number);
    core.set(t, CORE_SIZE, size + 1);
}

// Process q is queued, at the end of the active queue.
pub fn joins(t: &mut [u32], core: Core, q: Process)
    requires { CanJoin t.old q.sizes.cores core.0 q.number }
    ensures { t.new ≡ push_table (set t.old (process_at q.sizes.cores q.number process_place) place_queued) q.sizes.cores core.0 q.number }
{
    q.set(t, PROCESS_PLACE, Place::Queued as u32);
    push(t, core, q);
}

// The last of a queue from which the first is gone: nobody if nobody is next.
fn last_after(next: u32, last: u32) -> u32
    ensures { result ≡ (if eqb next 0 then 0 else last) }
{
    if next == 0 { 0 } else { last }
}

// The active queue has another first, last and size.
fn set_active(t: &mut [u32], core: Core, first: u32, last: u32, size: u32)
    requires { HasCore t.old core.0 }
    ensures { t.new ≡ active_table t.old core.0 first last size }
{
    core.set(t, CORE_FIRST, first);
    core.set(t, CORE_LAST, last);
    core.set(t, CORE_SIZE, size);
}

// The first process p leaves the active queue.
pub fn take_first(t: &mut [u32], core: Core, p: Process)
    requires { CanTake t.old p.sizes.cores core.0 p.number }
    ensures { t.new ≡ take_table t.old p.sizes.cores core.0 }
{
    let next = p.word(t, PROCESS_NEXT);
    let last = last_after(next, core.word(t, CORE_LAST));
    let size = core.word(t, CORE_SIZE);
    set_active(t, core, next, last, size - 1);
    p.set(t, PROCESS_NEXT, 0);
}

// A batch with the head p stands behind the last one, whose head is b; the last head is h then, and the active queue is empty.
fn store_heads(t: &mut [u32], core: Core, p: Process, h: u32, b: u32)
    requires { CanLink t.old p.sizes.cores core.0 b }
    ensures { t.new ≡ store_heads p.number h b t.old p.sizes.cores core.0 }
{
    link_end(t, core, CORE_FIRST_HEAD, PROCESS_NEXT_HEAD, b, p);
    core.set(t, CORE_LAST_HEAD, h);
    set_active(t, core, 0, 0, 0);
}

// The head p of a batch keeps the batch's last process and its size.
fn keep_batch(t: &mut [u32], p: Process, last: u32, size: u32)
    requires { HasProcess t.old p.sizes.cores p.number }
    ensures { t.new ≡ batch_table t.old p.sizes.cores p.number last size }
{
    p.set(t, PROCESS_LAST, last);
    p.set(t, PROCESS_SIZE, size);
}

// The active queue, with the first process p, becomes the last batch.
fn store_whole(t: &mut [u32], core: Core, p: Process)
    requires { CanBatch t.old p.sizes.cores core.0 p.number }
    ensures { t.new ≡ store_table t.old p.sizes.cores core.0 }
{
    let last = core.word(t, CORE_LAST);
    let size = core.word(t, CORE_SIZE);
    let b = core.word(t, CORE_LAST_HEAD);
    keep_batch(t, p, last, size);
    store_heads(t, core, p, p.number, b);
}

// Process p is a batch of its own, which the batch with the head q follows.
fn set_alone(t: &mut [u32], p: Process, q: u32)
    requires { HasProcess t.old p.sizes.cores p.number }
    ensures { t.new ≡ alone_table t.old p.sizes.cores p.number q }
{
    p.set(t, PROCESS_NEXT, 0);
    p.set(t, PROCESS_LAST, p.number);
    p.set(t, PROCESS_SIZE, 1);
    p.set(t, PROCESS_NEXT_HEAD, q);
}

// The active queue becomes the two last batches: its first process p alone, then the others, with the head q.
fn split(t: &mut [u32], core: Core, p: Process)
    requires { CanSplit t.old p.sizes.cores core.0 p.number }
    ensures { t.new ≡ split_table t.old p.sizes.cores core.0 }
{
    let q = Process {
        sizes: p.sizes,
        number: p.word(t, PROCESS_NEXT),
    };
    let last = core.word(t, CORE_LAST);
    let size = core.word(t, CORE_SIZE);
    let b = core.word(t, CORE_LAST_HEAD);
    set_alone(t, p, q.number);
    keep_batch(t, q, last, size - 1);
    store_heads(t, core, p, q.number, b);
}

// With the mark set, or one process only, the queue becomes one batch.
fn is_whole(mark: u32, size: u32) -> bool
    ensures { result ≡ whole mark size }
{
    mark == 1 || size == 1
}

// The active queue is stored: as one batch, or split into two.
pub fn store(t: &mut [u32], sizes: Sizes, core: Core)
    requires { CanStore t.old sizes.cores core.0 }
    ensures { t.new ≡ stored_table t.old sizes.cores core.0 }
{
    let p = Process {
        sizes,
        number: core.word(t, CORE_FIRST),
    };
    let size = core.word(t, CORE_SIZE);
    let mark = core.word(t, CORE_MARK);
    if is_whole(mark, size) {
        store_whole(t, core, p);
    } else {
        split(t, core, p);
    }
}

// Process p is the head of no batch.
fn keep_nothing(t: &mut [u32], p: Process)
    requires { HasProcess t.old p.sizes.cores p.number }
    ensures { t.new ≡ no_batch_table t.old p.sizes.cores p.number }
{
    p.set(t, PROCESS_LAST, 0);
    p.set(t, PROCESS_SIZE, 0);
    p.set(t, PROCESS_NEXT_HEAD, 0);
}

// The first batch, with the head p, becomes the active queue.
fn load_first(t: &mut [u32], core: Core, p: Process)
    requires { CanLoadFirst t.old p.sizes.cores core.0 p.number }
    ensures { t.new ≡ load_table t.old p.sizes.cores core.0 }
{
    let last = p.word(t, PROCESS_LAST);
    let size = p.word(t, PROCESS_SIZE);
    let next = p.word(t, PROCESS_NEXT_HEAD);
    let last_head = last_after(next, core.word(t, CORE_LAST_HEAD));
    set_active(t, core, p.number, last, size);
    core.set(t, CORE_FIRST_HEAD, next);
    core.set(t, CORE_LAST_HEAD, last_head);
    keep_nothing(t, p);
}

// The first batch is loaded.
#[tactic(auto, unfolding(crate::specs::RunQueue::loaded_table))]
pub fn load(t: &mut [u32], sizes: Sizes, core: Core)
    requires { CanLoad t.old sizes.cores core.0 }
    ensures { t.new ≡ loaded_table t.old sizes.cores core.0 }
{
    let p = Process {
        sizes,
        number: core.word(t, CORE_FIRST_HEAD),
    };
    load_first(t, core, p);
}

// The core has a batch.
#[tactic(auto, unfolding(crate::specs::RunQueue::has_batch))]
pub fn has_batch(t: &[u32], core: Core) -> bool
    requires { HasCore t.now core.0 }
    ensures { result ≡ has_batch t.now core.0 }
{
    core.word(t, CORE_FIRST_HEAD) != 0
}
