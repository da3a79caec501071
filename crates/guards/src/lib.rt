// The count and the guards of the choice of process p, and going from one guard to the next (document 01).
#![tactic(auto)]

ghost use Rattle.std.specs.Prelude.{◌≡◌, ◌+◌, ◌≤◌, ◌<◌, length, get_or, set};
ghost use Rattle.rules.specs.Numbers.{MOVED, yes_with};
ghost use Rattle.rules.specs.Choice.{lowered, raised};
ghost use Rattle.rules.specs.Layout.{process_at};
ghost use Rattle.layout.specs.Numbers.{choice_number};
ghost use Rattle.answers.specs.Said.{said};
ghost use Rattle.table.specs.Has.{HasProcess};
ghost use Rattle.guards.specs.Change.{changes};
ghost use Rattle.guards.specs.Read.{word_of, guard_place, guard_at, guard_word_at, AtGuard};
ghost use Rattle.guards.specs.Read.{stage_table, next_table};

use answers::{Answer, Refusal, Reply};
use layout::progress::Choice;
use table::{Channel, Process, Record};

// Lowers a count: count - 1; at 0 a fault.
pub fn lowered(count: u32) -> Result<u32, Refusal>
    ensures { changes result ≡ lowered count }
{
    count.checked_sub(1).ok_or(Refusal::Fault)
}

// Raises a count: count + 1; at 9 a fault.
pub fn raised(count: u32) -> Result<u32, Refusal>
    requires { count ≤ 9 }
    ensures { changes result ≡ raised count }
{
    if count == 9 {
        return Err(Refusal::Fault);
    }
    Ok(count + 1)
}

// The guard at index i, counted from 1.
pub fn guard(t: &[u32], p: Process, i: u32) -> u32
    requires { (1 ≤ p.number) × (process_at p.sizes.cores p.number (guard_place i) < length t.now) }
    ensures { result ≡ word_of t.now p.sizes.cores p.number (guard_place i) }
{
    p.word(t, layout::PROCESS_FIRST_GUARD - 1 + i as usize)
}

// The channel of the guard that the choice has come to.
pub fn guard_now(t: &[u32], p: Process) -> Channel
    requires { AtGuard t.now p.sizes.cores p.sizes.processes p.number }
    ensures number { result.number ≡ guard_at t.now p.sizes.cores p.number }
    ensures sizes { result.sizes ≡ p.sizes }
{
    Channel {
        sizes: p.sizes,
        number: guard(t, p, p.word(t, layout::PROCESS_INDEX)),
    }
}

// The word of that channel.
pub fn guard_word(t: &[u32], p: Process) -> u32
    requires { AtGuard t.now p.sizes.cores p.sizes.processes p.number }
    ensures { result ≡ get_or t.now (guard_word_at t.now p.sizes.cores p.sizes.processes p.number) 0 }
{
    guard_now(t, p).word(t, layout::CHANNEL_HOLDER)
}

// That word becomes v.
pub fn set_guard_word(t: &mut [u32], p: Process, v: u32)
    requires { AtGuard t.old p.sizes.cores p.sizes.processes p.number }
    ensures { t.new ≡ set t.old (guard_word_at t.old p.sizes.cores p.sizes.processes p.number) v }
{
    guard_now(t, p).set(t, layout::CHANNEL_HOLDER, v);
}

// Process p is at the guard of number g, at this stage.
pub fn set_stage(t: &mut [u32], p: Process, g: u32, stage: Choice)
    requires { HasProcess t.old p.sizes.cores p.number }
    ensures { t.new ≡ stage_table t.old p.sizes.cores p.number g (choice_number stage) }
{
    p.set(t, layout::PROCESS_INDEX, g);
    p.set(t, layout::PROCESS_PROGRESS, stage as u32);
}

// The choice goes on there.
pub fn goes_on(t: &mut [u32], p: Process, g: u32, stage: Choice) -> Reply
    requires { HasProcess t.old p.sizes.cores p.number }
    ensures table { t.new ≡ stage_table t.old p.sizes.cores p.number g (choice_number stage) }
    ensures reply { said result ≡ yes_with MOVED }
{
    set_stage(t, p, g, stage);
    Ok(Answer::Moved)
}

// The next guard, at the stage `again`; after the last guard the stage `after`.
#[tactic(auto, unfolding(crate::specs::Read::next_table))]
pub fn next_guard(t: &mut [u32], p: Process, again: Choice, after: Choice) -> Reply
    requires { HasProcess t.old p.sizes.cores p.number }
    ensures table { t.new ≡ next_table t.old p.sizes.cores p.number (choice_number again) (choice_number after) }
    ensures reply { said result ≡ yes_with MOVED }
{
    let guards = p.word(t, layout::PROCESS_GUARDS);
    let i = p.word(t, layout::PROCESS_INDEX);
    if i < guards {
        goes_on(t, p, i + 1, again)
    } else {
        goes_on(t, p, 0, after)
    }
}
