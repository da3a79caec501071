// A step: the next atomic step of a core, on a sound table (document 01).
#![tactic(auto)]

ghost use Rattle.rules.specs.State.{wake_up};
ghost use Rattle.rules.specs.CoreStep.{step};
ghost use Rattle.layout.specs.Numbers.{which};
ghost use Rattle.answers.specs.Said.{said};
ghost use Rattle.parts.specs.Tasks.{meant};
ghost use Rattle.parts.specs.Does.{Card, At, Does};
ghost use Rattle.scheduler.specs.Free.{Free};
ghost use Rattle.core_step.specs.Running.{Running, exchanged, chosen_by, Idle};

use answers::{Answer, Refusal, Reply};
use layout::progress::{Choice, Exchange, Progress, Way};
use parts::Task;
use table::{Core, Process, Record, Sizes};

// A stage of send or receive, with the channel c and the partner q. (A match, here and below, and no table of functions: the kinds are
// closed, and each arm's function asks for another stage. Way, channel and partner go side by side, as in the rules' stages, since look and
// park have no partner.)
#[tactic(auto, using(crate::proofs::Stage::does_stage))]
fn exchange_step(
    t: &mut [u32],
    core: Core,
    p: Process,
    way: Way,
    stage: Exchange,
    c: u32,
    q: u32,
) -> Reply
    requires { At t.old p.sizes.cores p.sizes.processes core.0 p.number (exchanged (which way) stage c q) }
    ensures { Does (step core.0) t.old (said result) t.new }
{
    match stage {
        Exchange::Look => steps::look_step(t, core, p, way, c),
        Exchange::Park => steps::park_step(t, core, p, way, c),
        Exchange::Copy => steps::copy_step(t, core, p, way, c, q),
        Exchange::Clear => steps::clear_step(t, core, p, way, c, q),
        Exchange::Wake => steps::wake_step(t, core, p, way, c, q),
    }
}

// A stage of choose.
#[tactic(auto, using(crate::proofs::Stage::does_stage))]
fn choice_step(t: &mut [u32], core: Core, p: Process, stage: Choice) -> Reply
    requires { At t.old p.sizes.cores p.sizes.processes core.0 p.number (chosen_by t.old p.sizes.cores p.number stage) }
    ensures { Does (step core.0) t.old (said result) t.new }
{
    match stage {
        Choice::EnableLook => enabling::enable_look_step(t, core, p),
        Choice::Raise => enabling::raise_step(t, core, p),
        Choice::PlaceName => enabling::place_name_step(t, core, p),
        Choice::ReadyFromLook => enabling::ready_from_look_step(t, core, p),
        Choice::ReadyFromPlace => enabling::ready_from_place_step(t, core, p),
        Choice::Wait => choice::wait_step(t, core, p),
        Choice::Disable => choice::disable_step(t, core, p),
        Choice::Lower => choice::lower_step(t, core, p),
        Choice::Finish => choice::finish_step(t, core, p),
    }
}

// The running process p: the stage of its request; AWAITED where it has none.
#[tactic(auto, using(crate::proofs::Stage::at_exchange, crate::proofs::Stage::at_choice, crate::proofs::Stage::awaited_due, crate::proofs::Stage::awaited_beyond, crate::proofs::Stage::awaited_nothing))]
fn running_step(t: &mut [u32], core: Core, p: Process) -> Reply
    requires { Running t.old p.sizes.cores p.sizes.processes core.0 p.number }
    ensures { Does (step core.0) t.old (said result) t.new }
{
    let number = p.word(t, layout::PROCESS_PROGRESS);
    match Progress::try_from(number) {
        Ok(Progress::Exchanging(way, stage)) => {
            let c = p.word(t, layout::PROCESS_CHANNEL);
            let q = p.word(t, layout::PROCESS_PARTNER);
            exchange_step(t, core, p, way, stage, c, q)
        }
        Ok(Progress::Choosing(stage)) => choice_step(t, core, p, stage),
        Ok(Progress::Nothing) => Err(Refusal::Awaited),
        Ok(Progress::Due(_)) => Err(Refusal::Awaited),
        Err(_) => Err(Refusal::Awaited),
    }
}

// Wake q, a kernel task: the core wakes q, and the task is over.
#[tactic(auto, using(crate::proofs::Tasks::free_core, crate::proofs::Tasks::can_wake, crate::proofs::Tasks::task_over))]
fn wake_task_step(t: &mut [u32], core: Core, q: Process) -> Reply
    requires { Free t.old q.sizes.cores q.sizes.processes core.0 (wake_up q.number) }
    ensures { Does (step core.0) t.old (said result) t.new }
{
    steps::wakes(t, core, q)?;
    parts::has_task(t, core, Task::None);
    Ok(Answer::Moved)
}

// The kernel task of the core; the scheduler where there is none.
#[tactic(auto, using(crate::proofs::Tasks::is_trigger, crate::proofs::Tasks::does_trigger))]
fn task_step(t: &mut [u32], sizes: Sizes, core: Core, task: Task) -> Reply
    requires { Free t.old sizes.cores sizes.processes core.0 (meant task) }
    ensures { Does (step core.0) t.old (said result) t.new }
{
    match task {
        Task::None => scheduler::schedule(t, sizes, core),
        Task::Trigger(number) => choice::trigger_step(t, core, Process { sizes, number }),
        Task::Wake(number) => wake_task_step(t, core, Process { sizes, number }),
    }
}

// Nothing runs on the core: the task that it has.
#[tactic(auto, using(crate::proofs::Tasks::has_the_task))]
fn free_step(t: &mut [u32], sizes: Sizes, core: Core) -> Reply
    requires { Idle t.old sizes.cores sizes.processes core.0 }
    ensures { Does (step core.0) t.old (said result) t.new }
{
    let task = Task::of(t, core);
    task_step(t, sizes, core, task)
}

// The next atomic step of the core.
#[tactic(auto, using(parts::proofs::Card::card_core, crate::proofs::Tasks::is_running, crate::proofs::Tasks::is_idle))]
pub fn step(t: &mut [u32], sizes: Sizes, core: Core) -> Reply
    requires { Card t.old sizes.cores sizes.processes core.0 }
    ensures { Does (step core.0) t.old (said result) t.new }
{
    let number = core.word(t, layout::CORE_RUNS);
    if number == 0 {
        return free_step(t, sizes, core);
    }
    running_step(t, core, Process { sizes, number })
}
