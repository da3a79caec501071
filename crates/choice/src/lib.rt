// The steps of a choice once its guards are enabled (document 01; 000, section 4.1), for the process p that runs on a core, and the kernel
// task trigger.
#![tactic(auto, using(guards::proofs::Stands::at_process, guards::proofs::Stands::at_core))]

ghost use Rattle.std.specs.Prelude.{◌≡◌};
ghost use Rattle.rules.specs.State.{wait, disable, lower, finish, trigger, free};
ghost use Rattle.rules.specs.Items.{core_of};
ghost use Rattle.rules.specs.Choice.{wait_step, disable_step, lower_step, finish_step, trigger_step};
ghost use Rattle.rules.specs.Packing.{view};
ghost use Rattle.answers.specs.Said.{said};
ghost use Rattle.table.specs.Has.{HasProcess};
ghost use Rattle.parts.specs.Does.{Card, At, Does};
ghost use Rattle.guards.specs.Read.{guards_at, ready_at, AtDisabling, DoesDisabling, flags_table, kept_table, triggered_table};

use answers::{Answer, Refusal, Reply};
use layout::progress::{Choice, Outcome, Progress};
use parts::Task;
use table::{Core, Process, Record};
use words::Holder;

// Process p waits: enabling and not-ready are cleared, and waiting is set.
fn set_waiting(t: &mut [u32], p: Process)
    requires { HasProcess t.old p.sizes.cores p.number }
    ensures { t.new ≡ flags_table t.old p.sizes.cores p.number 0 0 1 }
{
    p.set(t, layout::PROCESS_ENABLING, 0);
    p.set(t, layout::PROCESS_NOT_READY, 0);
    p.set(t, layout::PROCESS_WAITING, 1);
}

// Wait: if not-ready is set, clear enabling and not-ready, set waiting, asleep; otherwise clear enabling. Disabling comes next.
pub fn wait_step(t: &mut [u32], core: Core, p: Process) -> Reply
    requires { At t.old p.sizes.cores p.sizes.processes core.0 p.number (wait (guards_at t.old p.sizes.cores p.number)) }
    ensures { Does (wait_step core.0 p.number (guards_at t.old p.sizes.cores p.number)) t.old (said result) t.new }
{
    if p.word(t, layout::PROCESS_NOT_READY) == 0 {
        p.set(t, layout::PROCESS_ENABLING, 0);
        guards::goes_on(t, p, 1, Choice::Disable)
    } else {
        set_waiting(t, p);
        guards::set_stage(t, p, 1, Choice::Disable);
        parts::falls_asleep(t, core, p, Task::None)
    }
}

// The guard that the choice has come to is ready: the first such is kept. (0 in the word is none, here and in finish.)
fn keep_first(t: &mut [u32], p: Process)
    requires { HasProcess t.old p.sizes.cores p.number }
    ensures { t.new ≡ kept_table t.old p.sizes.cores p.number }
{
    if p.word(t, layout::PROCESS_FIRST_READY) == 0 {
        let i = p.word(t, layout::PROCESS_INDEX);
        p.set(t, layout::PROCESS_FIRST_READY, i);
    }
}

// Disable: one's own name becomes 0, next lower; a process's plain name: the guard is ready, the first such is kept; otherwise not.
pub fn disable_step(t: &mut [u32], core: Core, p: Process) -> Reply
    requires { AtDisabling disable t.old p.sizes.cores p.sizes.processes core.0 p.number }
    ensures { DoesDisabling disable_step t.old p.sizes.cores p.number (said result) t.new }
{
    match Holder::from(guards::guard_word(t, p)) {
        Holder::Nobody => guards::next_guard(t, p, Choice::Disable, Choice::Finish),
        Holder::Plain(_) => {
            keep_first(t, p);
            guards::next_guard(t, p, Choice::Disable, Choice::Finish)
        }
        Holder::Choosing(q) if q == p.number => {
            guards::set_guard_word(t, p, 0);
            parts::move_on(t, p, Progress::Choosing(Choice::Lower))
        }
        Holder::Choosing(_) => guards::next_guard(t, p, Choice::Disable, Choice::Finish),
    }
}

// Lower: count - 1.
pub fn lower_step(t: &mut [u32], core: Core, p: Process) -> Reply
    requires { AtDisabling lower t.old p.sizes.cores p.sizes.processes core.0 p.number }
    ensures { DoesDisabling lower_step t.old p.sizes.cores p.number (said result) t.new }
{
    let n = guards::lowered(p.word(t, layout::PROCESS_COUNT))?;
    p.set(t, layout::PROCESS_COUNT, n);
    guards::next_guard(t, p, Choice::Disable, Choice::Finish)
}

// Finish: no ready guard is a fault; count - 1; at 0 CHOSE with the first ready guard; above 0 asleep, with CHOSE due.
pub fn finish_step(t: &mut [u32], core: Core, p: Process) -> Reply
    requires { At t.old p.sizes.cores p.sizes.processes core.0 p.number
        (finish (guards_at t.old p.sizes.cores p.number) (ready_at t.old p.sizes.cores p.number)) }
    ensures { Does (finish_step core.0 p.number (guards_at t.old p.sizes.cores p.number) (ready_at t.old p.sizes.cores p.number))
        t.old (said result) t.new }
{
    let ready = p.word(t, layout::PROCESS_FIRST_READY);
    let count = p.word(t, layout::PROCESS_COUNT);
    if ready == 0 {
        return Err(Refusal::Fault);
    }
    let c = guards::guard(t, p, ready);
    let left = guards::lowered(count)?;
    p.set(t, layout::PROCESS_COUNT, left);
    if left == 0 {
        parts::reports(t, p, Outcome::Chose, c)
    } else {
        parts::set_due(t, p, Outcome::Chose, c);
        parts::falls_asleep(t, core, p, Task::None)
    }
}

// Process q is triggered: not-ready and waiting are cleared, and the count is n.
fn set_triggered(t: &mut [u32], q: Process, n: u32)
    requires { HasProcess t.old q.sizes.cores q.number }
    ensures { t.new ≡ triggered_table t.old q.sizes.cores q.number n }
{
    q.set(t, layout::PROCESS_NOT_READY, 0);
    q.set(t, layout::PROCESS_WAITING, 0);
    q.set(t, layout::PROCESS_COUNT, n);
}

// Trigger q, a kernel task: clear q's not-ready and waiting, count - 1. Where waiting had been set or the new count is 0, the task is
// then to wake q; otherwise it is over.
#[tactic(auto, using(crate::proofs::Finishing::trigger_process, parts::proofs::Card::card_core))]
pub fn trigger_step(t: &mut [u32], core: Core, q: Process) -> Reply
    requires card { Card t.old q.sizes.cores q.sizes.processes core.0 }
    requires task { (core_of (view t.old) core.0).work ≡ free (trigger q.number) }
    ensures { Does (trigger_step core.0 q.number) t.old (said result) t.new }
{
    let n = guards::lowered(q.word(t, layout::PROCESS_COUNT))?;
    let waiting = q.word(t, layout::PROCESS_WAITING);
    set_triggered(t, q, n);
    let task = if waiting == 1 || n == 0 {
        Task::Wake(q.number)
    } else {
        Task::None
    };
    parts::has_task(t, core, task);
    Ok(Answer::Moved)
}
