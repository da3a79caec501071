// A core's own words.
ghost use Rattle.std.specs.Prelude.{◌≡◌};
ghost use Rattle.table.specs.Has.{HasCore};
ghost use Rattle.fitting.specs.Twin.{work_fits, core_fits};

use crate::zeros;
use layout::TaskKind;
use table::{Core, Record, within};

// Task q only where nothing runs. (Words, not an enum: the check is there to find those that mean nothing.)
fn work_fits(processes: usize, running: u32, task: u32, q: u32) -> bool
    ensures { result ≡ work_fits processes running task q }
{
    if running != 0 {
        (running as usize <= processes) & (task == TaskKind::None as u32) & (q == 0)
    } else if task == TaskKind::None as u32 {
        q == 0
    } else {
        (task <= TaskKind::Wake as u32) & within(1, processes, q)
    }
}

// Running process and task, dispatch count, mark, unused words.
pub fn core_fits(t: &[u32], processes: usize, core: Core) -> bool
    requires { HasCore t.now core.0 }
    ensures { result ≡ core_fits t.now processes core.0 }
{
    let work = work_fits(
        processes,
        core.word(t, layout::CORE_RUNS),
        core.word(t, layout::CORE_TASK),
        core.word(t, layout::CORE_TASK_PROCESS),
    );
    let unused = core.at(t, layout::CORE_SPARE);
    work & (core.word(t, layout::CORE_DISPATCH) <= 32)
        & (core.word(t, layout::CORE_MARK) <= 1)
        & zeros(t, unused, layout::CORE_STRIDE - layout::CORE_SPARE)
}
