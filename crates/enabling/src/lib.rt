// The steps that enable the guards of a choice (document 01; 000, section 4.1), for the process p that runs on a core.
#![tactic(auto, using(guards::proofs::Stands::at_process))]

ghost use Rattle.std.specs.Prelude.{◌≡◌};
ghost use Rattle.rules.specs.Numbers.{MOVED, yes_with};
ghost use Rattle.rules.specs.State.{enable_look, raise, place_name, ready_from_look, ready_from_place};
ghost use Rattle.rules.specs.Choice.{enable_look_step, raise_step, place_name_step, ready_from_look_step, ready_from_place_step};
ghost use Rattle.answers.specs.Said.{said};
ghost use Rattle.table.specs.Has.{HasProcess};
ghost use Rattle.guards.specs.Read.{AtEnabling, DoesEnabling, ready_table};

use answers::Reply;
use layout::progress::{Choice, Progress};
use table::{Core, Process, Record};

// Enabling, look: word 0: next raise; otherwise next ready.
pub fn enable_look_step(t: &mut [u32], core: Core, p: Process) -> Reply
    requires { AtEnabling enable_look t.old p.sizes.cores p.sizes.processes core.0 p.number }
    ensures { DoesEnabling enable_look_step t.old p.sizes.cores p.number (said result) t.new }
{
    let stage = if guards::guard_word(t, p) == 0 {
        Choice::Raise
    } else {
        Choice::ReadyFromLook
    };
    parts::move_on(t, p, Progress::Choosing(stage))
}

// Raise: count + 1.
pub fn raise_step(t: &mut [u32], core: Core, p: Process) -> Reply
    requires { AtEnabling raise t.old p.sizes.cores p.sizes.processes core.0 p.number }
    ensures { DoesEnabling raise_step t.old p.sizes.cores p.number (said result) t.new }
{
    let n = guards::raised(p.word(t, layout::PROCESS_COUNT))?;
    p.set(t, layout::PROCESS_COUNT, n);
    parts::move_on(t, p, Progress::Choosing(Choice::PlaceName))
}

// Place: if the word is still 0 it becomes one's name with the low bit set; otherwise next ready.
pub fn place_name_step(t: &mut [u32], core: Core, p: Process) -> Reply
    requires { AtEnabling place_name t.old p.sizes.cores p.sizes.processes core.0 p.number }
    ensures { DoesEnabling place_name_step t.old p.sizes.cores p.number (said result) t.new }
{
    if guards::guard_word(t, p) == 0 {
        guards::set_guard_word(t, p, words::choosing_name(p.number));
        guards::next_guard(t, p, Choice::EnableLook, Choice::Wait)
    } else {
        parts::move_on(t, p, Progress::Choosing(Choice::ReadyFromPlace))
    }
}

// The guard is ready: not-ready is cleared. Then the next guard, or wait.
fn goes_on_ready(t: &mut [u32], p: Process) -> Reply
    requires { HasProcess t.old p.sizes.cores p.number }
    ensures table { t.new ≡ ready_table t.old p.sizes.cores p.number }
    ensures reply { said result ≡ yes_with MOVED }
{
    p.set(t, layout::PROCESS_NOT_READY, 0);
    guards::next_guard(t, p, Choice::EnableLook, Choice::Wait)
}

// Ready, from look: clear not-ready.
pub fn ready_from_look_step(t: &mut [u32], core: Core, p: Process) -> Reply
    requires { AtEnabling ready_from_look t.old p.sizes.cores p.sizes.processes core.0 p.number }
    ensures { DoesEnabling ready_from_look_step t.old p.sizes.cores p.number (said result) t.new }
{
    goes_on_ready(t, p)
}

// Ready, from place: clear not-ready, and count - 1.
pub fn ready_from_place_step(t: &mut [u32], core: Core, p: Process) -> Reply
    requires { AtEnabling ready_from_place t.old p.sizes.cores p.sizes.processes core.0 p.number }
    ensures { DoesEnabling ready_from_place_step t.old p.sizes.cores p.number (said result) t.new }
{
    let n = guards::lowered(p.word(t, layout::PROCESS_COUNT))?;
    p.set(t, layout::PROCESS_COUNT, n);
    goes_on_ready(t, p)
}
