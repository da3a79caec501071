// What several steps share: a stage, a task, falling asleep, an outcome due.
#![tactic(auto)]

ghost use Rattle.std.specs.Prelude.{◌≡◌, get_or, set};
ghost use Rattle.rules.specs.Numbers.{MOVED, SLEPT, yes_with};
ghost use Rattle.rules.specs.Layout.{core_at, process_at, core_task, core_task_process, process_progress, process_data};
ghost use Rattle.layout.specs.Numbers.{number_of, outcome_number};
ghost use Rattle.answers.specs.Said.{said};
ghost use Rattle.table.specs.Has.{HasCore, HasProcess};
ghost use Rattle.parts.specs.Tasks.{kind_of, subject_of, meant, task_numbered};
ghost use Rattle.parts.specs.Shared.{task_table, asleep_table, cleared, due_table, reported};

use answers::{Answer, Reply};
use layout::progress::{Outcome, Progress};
use layout::{Place, TaskKind};
use table::{Core, Process, Record};

// The request of process p goes on there.
pub fn move_on(t: &mut [u32], p: Process, progress: Progress) -> Reply
    requires { HasProcess t.old p.sizes.cores p.number }
    ensures table { t.new ≡ set t.old (process_at p.sizes.cores p.number process_progress) (number_of progress) }
    ensures reply { said result ≡ yes_with MOVED }
{
    p.set(t, layout::PROCESS_PROGRESS, u32::from(progress));
    Ok(Answer::Moved)
}

// A kernel task: none, or to trigger or wake a process.
#[derive(Clone, Copy, Debug, PartialEq, Eq)]
pub enum Task {
    None,
    Trigger(u32),
    Wake(u32),
}

impl Task {
    // The task that the core's words say, where nothing runs there. (No TryFrom of the kind: there is no other in a sound table.)
    pub fn of(t: &[u32], core: Core) -> Task
        requires { HasCore t.now core.0 }
        ensures { meant result ≡ task_numbered (get_or t.now (core_at core.0 core_task) 0) (get_or t.now (core_at core.0 core_task_process) 0) }
    {
        let kind = core.word(t, layout::CORE_TASK);
        let q = core.word(t, layout::CORE_TASK_PROCESS);
        if kind == TaskKind::None as u32 {
            Task::None
        } else if kind == TaskKind::Trigger as u32 {
            Task::Trigger(q)
        } else {
            Task::Wake(q)
        }
    }

    fn kind(self) -> u32
        ensures { result ≡ kind_of self }
    {
        match self {
            Task::None => TaskKind::None as u32,
            Task::Trigger(_) => TaskKind::Trigger as u32,
            Task::Wake(_) => TaskKind::Wake as u32,
        }
    }

    // The process that it is about; 0 where there is none.
    fn subject(self) -> u32
        ensures { result ≡ subject_of self }
    {
        match self {
            Task::None => 0,
            Task::Trigger(q) => q,
            Task::Wake(q) => q,
        }
    }
}

// The core runs nothing and has a task.
pub fn has_task(t: &mut [u32], core: Core, task: Task)
    requires { HasCore t.old core.0 }
    ensures { t.new ≡ task_table t.old core.0 (kind_of task) (subject_of task) }
{
    core.set(t, layout::CORE_RUNS, 0);
    core.set(t, layout::CORE_TASK, task.kind());
    core.set(t, layout::CORE_TASK_PROCESS, task.subject());
}

// Process p of the core falls asleep, and the core has a task. (Core and process, which steps take side by side, stay two records: each is
// written by itself, and a pair would be taken apart in each function.)
pub fn falls_asleep(t: &mut [u32], core: Core, p: Process, task: Task) -> Reply
    requires process { HasProcess t.old p.sizes.cores p.number }
    requires core { HasCore t.old core.0 }
    ensures table { t.new ≡ asleep_table t.old p.sizes.cores core.0 p.number (kind_of task) (subject_of task) }
    ensures reply { said result ≡ yes_with (SLEPT p.number) }
{
    p.set(t, layout::PROCESS_PLACE, Place::Asleep as u32);
    has_task(t, core, task);
    Ok(Answer::Slept(p.number))
}

// Process p has nothing in hand.
#[tactic(auto, unfolding(crate::specs::Shared::cleared))]
pub fn clear_progress(t: &mut [u32], p: Process)
    requires { HasProcess t.old p.sizes.cores p.number }
    ensures { t.new ≡ cleared t.old p.sizes.cores p.number }
{
    p.zero(t, layout::PROCESS_PROGRESS, layout::PROGRESS_SIZE);
}

// Process p has an outcome due, at channel c.
pub fn set_due(t: &mut [u32], p: Process, outcome: Outcome, c: u32)
    requires { HasProcess t.old p.sizes.cores p.number }
    ensures { t.new ≡ due_table t.old p.sizes.cores p.number (outcome_number outcome) c }
{
    clear_progress(t, p);
    p.set(t, layout::PROCESS_PROGRESS, u32::from(outcome));
    p.set(t, layout::PROCESS_CHANNEL, c);
}

// The answer to an outcome of process p, with channel c and data word v.
fn answer_to(outcome: Outcome, p: u32, c: u32, v: u32) -> Reply
    ensures { said result ≡ yes_with (reported (outcome_number outcome) p c v) }
{
    Ok(match outcome {
        Outcome::Go => Answer::Go(p),
        Outcome::Sent => Answer::Sent(p, c),
        Outcome::Got => Answer::Got(p, c, v),
        Outcome::Chose => Answer::Chose(p, c),
    })
}

// Process p has come to an outcome: it answers, and has nothing in hand.
pub fn reports(t: &mut [u32], p: Process, outcome: Outcome, c: u32) -> Reply
    requires { HasProcess t.old p.sizes.cores p.number }
    ensures table { t.new ≡ cleared t.old p.sizes.cores p.number }
    ensures reply { said result ≡ yes_with (reported (outcome_number outcome) p.number c (get_or t.old (process_at p.sizes.cores p.number process_data) 0)) }
{
    let v = p.word(t, layout::PROCESS_DATA);
    clear_progress(t, p);
    answer_to(outcome, p.number, c, v)
}
