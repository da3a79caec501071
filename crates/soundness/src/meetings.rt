// Who was met so far: what was met of each process, by its name. (Place 0 is not used. The words are fixed memory, 257 of them whatever N is:
// so N stands beside them, and that it is at most 256 stays a clause.)
ghost use Rattle.std.specs.Prelude.{◌≡◌, ◌≤◌, set, if◌then◌else◌};
ghost use Rattle.table.specs.Has.{HasCore};
ghost use Rattle.processes.specs.Met.{met_number, met_numbers};
ghost use Rattle.fitting.specs.Twin.{fresh};
ghost use Rattle.soundness.specs.Parts.{outcome, core_enters, marked};

use processes::Met;
use records::cores;
use table::{Core, Record, within};

// Meets p, unless there is no such process or it was met before.
#[tactic(auto, using(crate::proofs::Numbers::numbers_set))]
pub fn meet(met: &mut [Met; 257], processes: usize, p: u32, how: Met) -> bool
    requires { processes ≤ 256 }
    ensures first { result ≡ fresh processes (met_numbers met.old) p }
    ensures met { met_numbers met.new ≡ (if result then set (met_numbers met.old) p (met_number how) else met_numbers met.old) }
{
    if !within(1, processes, p) {
        return false;
    }
    let i = p as usize;
    if met[i] != Met::Unmet {
        return false;
    }
    met[i] = how;
    true
}

// A core's own words fit, and its running process is met.
pub fn enter_core(t: &[u32], processes: usize, core: Core, met: &mut [Met; 257]) -> bool
    requires { (HasCore t.now core.0) × (processes ≤ 256) }
    ensures { outcome result (met_numbers met.new) ≡ core_enters t.now processes core.0 (met_numbers met.old) }
{
    if !cores::core_fits(t, processes, core) {
        return false;
    }
    let running = core.word(t, layout::CORE_RUNS);
    if running == 0 {
        return true;
    }
    meet(met, processes, running, Met::Running)
}

// The head of a batch that was met is marked; the active queue has none.
#[tactic(auto, using(crate::proofs::Numbers::numbers_set))]
pub fn mark_head(met: &mut [Met; 257], head: u32)
    requires { head ≤ 256 }
    ensures { met_numbers met.new ≡ marked (met_numbers met.old) head }
{
    if head != 0 {
        met[head as usize] = Met::Head;
    }
}
