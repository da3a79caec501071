// The steps of a core with nothing running and no task (document 01; 000, section 2.1).
#![tactic(auto)]

ghost use Rattle.std.specs.Prelude.{◌≡◌, ◌*◌, min, eqb};
ghost use Rattle.rules.specs.Lists.{bit};
ghost use Rattle.rules.specs.State.{no_task};
ghost use Rattle.rules.specs.CoreStep.{step};
ghost use Rattle.answers.specs.Said.{said};
ghost use Rattle.parts.specs.Does.{Does};
ghost use Rattle.queues.specs.Fits.{CanTake};
ghost use Rattle.scheduler.specs.Free.{Free, Takes, Stores, Loads, taken_table};

use answers::{Answer, Reply};
use layout::Place;
use layout::progress::Outcome;
use table::{Core, Process, Record, Sizes};

// The first process p of the active queue runs, and the dispatch count is n.
fn run_first(t: &mut [u32], core: Core, p: Process, n: u32)
    requires { CanTake t.old p.sizes.cores core.0 p.number }
    ensures { t.new ≡ taken_table t.old p.sizes.cores core.0 p.number n }
{
    queues::take_first(t, core, p);
    core.set(t, layout::CORE_RUNS, p.number);
    core.set(t, layout::CORE_DISPATCH, n);
    p.set(t, layout::PROCESS_PLACE, Place::Running as u32);
}

// Take the head, count - 1; answer its outcome, or MOVED where its request goes on.
#[tactic(auto, using(crate::proofs::Known::free_core, crate::proofs::Take::can_take_first, crate::proofs::Take::head_has, crate::proofs::Take::take_moved, crate::proofs::Take::take_reports))]
fn take_step(t: &mut [u32], sizes: Sizes, core: Core) -> Reply
    requires { Takes t.old sizes.cores sizes.processes core.0 }
    ensures { Does (step core.0) t.old (said result) t.new }
{
    let p = Process {
        sizes,
        number: core.word(t, layout::CORE_FIRST),
    };
    let count = core.word(t, layout::CORE_DISPATCH);
    run_first(t, core, p, count - 1);
    match Outcome::try_from(p.word(t, layout::PROCESS_PROGRESS)) {
        Ok(outcome) => {
            let c = p.word(t, layout::PROCESS_CHANNEL);
            parts::reports(t, p, outcome, c)
        }
        Err(_) => Ok(Answer::Moved),
    }
}

// Store the active queue.
#[tactic(auto, using(crate::proofs::Store::may_store, crate::proofs::Store::store_does))]
fn store_step(t: &mut [u32], sizes: Sizes, core: Core) -> Reply
    requires { Stores t.old sizes.cores sizes.processes core.0 }
    ensures { Does (step core.0) t.old (said result) t.new }
{
    queues::store(t, sizes, core);
    Ok(Answer::Moved)
}

// The lesser of 32 and 4 times a batch's size.
fn dispatch_count(size: u32) -> u32
    ensures { result ≡ min 32 (4 * size) }
{
    if size < 8 { 4 * size } else { 32 }
}

// Load the first batch; the mark is set exactly if its size is 1.
#[tactic(auto, using(crate::proofs::Known::free_core, crate::proofs::Load::may_load, crate::proofs::Load::load_does))]
fn load_step(t: &mut [u32], sizes: Sizes, core: Core) -> Reply
    requires { Loads t.old sizes.cores sizes.processes core.0 }
    ensures { Does (step core.0) t.old (said result) t.new }
{
    queues::load(t, sizes, core);
    let size = core.word(t, layout::CORE_SIZE);
    core.set(t, layout::CORE_DISPATCH, dispatch_count(size));
    core.set(t, layout::CORE_MARK, u32::from(size == 1));
    Ok(Answer::Moved)
}

// Nothing runs and there is no task: store, take, load, or nothing to do. (0 in the core's word is nobody.)
#[tactic(auto, using(crate::proofs::Known::free_core, crate::proofs::Load::idle_does))]
pub fn schedule(t: &mut [u32], sizes: Sizes, core: Core) -> Reply
    requires { Free t.old sizes.cores sizes.processes core.0 no_task }
    ensures { Does (step core.0) t.old (said result) t.new }
{
    if core.word(t, layout::CORE_FIRST) == 0 {
        if queues::has_batch(t, core) {
            load_step(t, sizes, core)
        } else {
            Ok(Answer::Idle)
        }
    } else if core.word(t, layout::CORE_DISPATCH) == 0 {
        store_step(t, sizes, core)
    } else {
        take_step(t, sizes, core)
    }
}
