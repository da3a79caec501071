// The steps of send and receive (document 01; 000, figure 7), for the process p that runs on the core.
#![tactic(auto)]

ghost use Rattle.std.specs.Prelude.{◌≡◌, slice_index, slice_set};
ghost use Rattle.rules.specs.Numbers.{MOVED, SLEPT, yes_with};
ghost use Rattle.rules.specs.State.{look, park, copy, clear, wake};
ghost use Rattle.rules.specs.Layout.{process_at, channel_at, process_progress, process_partner, channel_holder, at_send_copy};
ghost use Rattle.rules.specs.Packing.{word_numbered};
ghost use Rattle.rules.specs.Steps.{look_step, park_step, copy_step, clear_step, wake_step};
ghost use Rattle.layout.specs.Numbers.{which, of_way, exchange_number, outcome_number};
ghost use Rattle.answers.specs.Said.{said};
ghost use Rattle.words.specs.Meaning.{meaning};
ghost use Rattle.table.specs.Has.{HasCore, HasProcess, HasChannel};
ghost use Rattle.parts.specs.Tasks.{kind_of, subject_of};
ghost use Rattle.parts.specs.Does.{At, Does};
ghost use Rattle.parts.specs.Shared.{asleep_table};
ghost use Rattle.steps.specs.Outcomes.{due_of, copied, counted};
ghost use Rattle.steps.specs.Wakes.{CanWake, Wakes};

use answers::{Refusal, Reply};
use layout::Place;
use layout::progress::{Exchange, Outcome, Progress, Way};
use parts::Task;
use table::{Channel, Core, Process, Record};
use words::Holder;

// Who stands in the word of channel c.
fn who_is_at(t: &[u32], c: Channel) -> Holder
    requires { HasChannel t.now c.sizes.cores c.sizes.processes c.number }
    ensures { meaning result ≡ word_numbered (slice_index t.now (channel_at c.sizes.cores c.sizes.processes c.number channel_holder)) }
{
    Holder::from(c.word(t, layout::CHANNEL_HOLDER))
}

// The word of channel c becomes v.
fn set_word(t: &mut [u32], c: Channel, v: u32)
    requires { HasChannel t.old c.sizes.cores c.sizes.processes c.number }
    ensures { t.new ≡ slice_set t.old (channel_at c.sizes.cores c.sizes.processes c.number channel_holder) v }
{
    c.set(t, layout::CHANNEL_HOLDER, v);
}

// The request goes on at another stage.
fn goes_on(t: &mut [u32], p: Process, way: Way, stage: Exchange) -> Reply
    requires { HasProcess t.old p.sizes.cores p.number }
    ensures table { t.new ≡ slice_set t.old (process_at p.sizes.cores p.number process_progress) (of_way (which way) (exchange_number stage)) }
    ensures reply { said result ≡ yes_with MOVED }
{
    parts::move_on(t, p, Progress::Exchanging(way, stage))
}

// The partner is q: next copy.
fn finds(t: &mut [u32], p: Process, way: Way, q: u32) -> Reply
    requires { HasProcess t.old p.sizes.cores p.number }
    ensures table { t.new ≡ slice_set (slice_set t.old (process_at p.sizes.cores p.number process_partner) q) (process_at p.sizes.cores p.number process_progress) (of_way (which way) at_send_copy) }
    ensures reply { said result ≡ yes_with MOVED }
{
    p.set(t, layout::PROCESS_PARTNER, q);
    goes_on(t, p, way, Exchange::Copy)
}

// Look: nobody, or one who is choosing: next park. Otherwise that process is the partner: next copy.
pub fn look_step(t: &mut [u32], core: Core, p: Process, way: Way, c: u32) -> Reply
    requires { At t.old p.sizes.cores p.sizes.processes core.0 p.number (look (which way) c) }
    ensures { Does (look_step p.number (which way) c) t.old (said result) t.new }
{
    let channel = Channel {
        sizes: p.sizes,
        number: c,
    };
    let found = who_is_at(t, channel);
    match found {
        Holder::Nobody => goes_on(t, p, way, Exchange::Park),
        Holder::Choosing(_) => goes_on(t, p, way, Exchange::Park),
        Holder::Plain(partner) => finds(t, p, way, partner),
    }
}

// The outcome of send and of receive. (A function, and no `From`: an outcome is no other form of a way.)
fn due(way: Way) -> Outcome
    ensures { outcome_number result ≡ due_of (which way) }
{
    match way {
        Way::Sending => Outcome::Sent,
        Way::Receiving => Outcome::Got,
    }
}

// Process p falls asleep with its outcome due, and the core has a task.
fn sleeps(t: &mut [u32], core: Core, p: Process, way: Way, task: Task) -> Reply
    requires process { HasProcess t.old p.sizes.cores p.number }
    requires core { HasCore t.old core.0 }
    ensures table { t.new ≡ asleep_table (slice_set t.old (process_at p.sizes.cores p.number process_progress) (due_of (which way))) p.sizes.cores core.0 p.number (kind_of task) (subject_of task) }
    ensures reply { said result ≡ yes_with (SLEPT p.number) }
{
    p.set(t, layout::PROCESS_PROGRESS, u32::from(due(way)));
    parts::falls_asleep(t, core, p, task)
}

// Park: swap one's plain name into the word. What stood there decides: nobody, or one who is choosing, who is to be triggered: one
// falls asleep. A process: the look was stale, next copy.
pub fn park_step(t: &mut [u32], core: Core, p: Process, way: Way, c: u32) -> Reply
    requires { At t.old p.sizes.cores p.sizes.processes core.0 p.number (park (which way) c) }
    ensures { Does (park_step core.0 p.number (which way) c) t.old (said result) t.new }
{
    let channel = Channel {
        sizes: p.sizes,
        number: c,
    };
    let found = who_is_at(t, channel);
    let name = words::plain_name(p.number);
    set_word(t, channel, name);
    match found {
        Holder::Nobody => sleeps(t, core, p, way, Task::None),
        Holder::Choosing(q) => sleeps(t, core, p, way, Task::Trigger(q)),
        Holder::Plain(q) => finds(t, p, way, q),
    }
}

// A sender writes its data word into the partner q's, a receiver takes the partner's into its own.
fn copy_word(t: &mut [u32], p: Process, way: Way, q: u32)
    requires process { HasProcess t.old p.sizes.cores p.number }
    requires partner { HasProcess t.old p.sizes.cores q }
    ensures { t.new ≡ copied (which way) t.old p.sizes.cores p.number q }
{
    let partner = Process {
        sizes: p.sizes,
        number: q,
    };
    let (from, to) = match way {
        Way::Sending => (p, partner),
        Way::Receiving => (partner, p),
    };
    let v = from.word(t, layout::PROCESS_DATA);
    to.set(t, layout::PROCESS_DATA, v);
}

// One transfer more on channel c, modulo two to the 32.
fn count_transfer(t: &mut [u32], c: Channel)
    requires { HasChannel t.old c.sizes.cores c.sizes.processes c.number }
    ensures { t.new ≡ counted t.old c.sizes.cores c.sizes.processes c.number }
{
    let n = c.word(t, layout::CHANNEL_TRANSFERS);
    let one_more = n.wrapping_add(1);
    c.set(t, layout::CHANNEL_TRANSFERS, one_more);
}

// Copy, and one transfer more.
pub fn copy_step(t: &mut [u32], core: Core, p: Process, way: Way, c: u32, q: u32) -> Reply
    requires { At t.old p.sizes.cores p.sizes.processes core.0 p.number (copy (which way) c q) }
    ensures { Does (copy_step p.number (which way) c q) t.old (said result) t.new }
{
    let channel = Channel {
        sizes: p.sizes,
        number: c,
    };
    copy_word(t, p, way, q);
    count_transfer(t, channel);
    goes_on(t, p, way, Exchange::Clear)
}

// Clear: the word becomes 0.
pub fn clear_step(t: &mut [u32], core: Core, p: Process, way: Way, c: u32, q: u32) -> Reply
    requires { At t.old p.sizes.cores p.sizes.processes core.0 p.number (clear (which way) c q) }
    ensures { Does (clear_step p.number (which way) c q) t.old (said result) t.new }
{
    let channel = Channel {
        sizes: p.sizes,
        number: c,
    };
    set_word(t, channel, 0);
    goes_on(t, p, way, Exchange::Wake)
}

// The core wakes process q, who must be asleep: it goes to the end of this core's active queue.
pub fn wakes(t: &mut [u32], core: Core, q: Process) -> Result<(), Refusal>
    requires { CanWake t.old q.sizes.cores q.sizes.processes core.0 q.number }
    ensures { Wakes t.old core.0 q.number result t.new }
{
    if q.word(t, layout::PROCESS_PLACE) != Place::Asleep as u32 {
        return Err(Refusal::Fault);
    }
    queues::joins(t, core, q);
    Ok(())
}

// Wake: the core wakes the partner; answer SENT or GOT.
pub fn wake_step(t: &mut [u32], core: Core, p: Process, way: Way, c: u32, q: u32) -> Reply
    requires { At t.old p.sizes.cores p.sizes.processes core.0 p.number (wake (which way) c q) }
    ensures { Does (wake_step core.0 p.number (which way) c q) t.old (said result) t.new }
{
    let partner = Process {
        sizes: p.sizes,
        number: q,
    };
    wakes(t, core, partner)?;
    parts::reports(t, p, due(way), c)
}
