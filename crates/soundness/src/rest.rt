// What is left to check once all queues were walked: the processes, each against what was met of it, and the channels.
ghost use Rattle.std.specs.Prelude.{◌≡◌, ◌≤◌};
ghost use Rattle.table.specs.Has.{IsOfSizes};
ghost use Rattle.processes.specs.Met.{met_numbers};
ghost use Rattle.fitting.specs.Twin.{well, processes_fit, channels_fit, rest_fits};

use processes::{Met, process_fits};
use records::channels::channel_fits;
use table::{Channel, Process, Sizes};

// Beside `channels_fit`: one function of the test would need a definition of its own for what the two have in the check's definition.
fn processes_fit(t: &[u32], sizes: Sizes, met: &[Met; 257]) -> bool
    requires { (IsOfSizes t.now sizes) × (sizes.processes ≤ 256) }
    ensures { result ≡ processes_fit t.now sizes.cores sizes.processes sizes.channels (met_numbers met.now) 1 sizes.processes }
{
    for number in 1..=sizes.processes as u32 {
        if !process_fits(t, Process { sizes, number }, met[number as usize]) {
            return false;
        }
    }
    true
}

fn channels_fit(t: &[u32], sizes: Sizes) -> bool
    requires { (IsOfSizes t.now sizes) × (sizes.channels ≤ 256) }
    ensures { result ≡ channels_fit t.now sizes.cores sizes.processes 1 sizes.channels }
{
    for number in 1..=sizes.channels {
        if !channel_fits(t, Channel { sizes, number }) {
            return false;
        }
    }
    true
}

pub fn rest_fits(t: &[u32], sizes: Sizes, met: &[Met; 257]) -> bool
    requires { (IsOfSizes t.now sizes) × (sizes.processes ≤ 256) × (sizes.channels ≤ 256) }
    ensures { result ≡ rest_fits t.now sizes.cores sizes.processes sizes.channels (well (met_numbers met.now)) }
{
    processes_fit(t, sizes, met) && channels_fit(t, sizes)
}
