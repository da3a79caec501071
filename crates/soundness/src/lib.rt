// The soundness check (document 01, "The state"): "The check stops at the first flaw, however deep in a queue."
#![tactic(auto)]

ghost use Rattle.std.specs.Prelude.{◌≡◌, ◌≤◌};
ghost use Rattle.table.specs.Has.{IsOfSizes};
ghost use Rattle.rules.specs.Soundness.{sound};
ghost use Rattle.soundness.specs.Parts.{parts_fit};

mod meetings; // who was met in the queues
mod queues; // where a core's queues begin and end
mod rest; // the processes and the channels

use meetings::{enter_core, mark_head, meet};
use processes::Met;
use queues::Queue;
use records::header::header_fits;
use rest::rest_fits;
use table::{Core, Process, Record, Sizes};

// Whether a table is sound.
pub fn sound(t: &[u32]) -> bool
    ensures { result ≡ sound t.now }
{
    header_fits(t) && parts_fit(t, Sizes::read(t))
}

// Core by core, queue by queue (the active one is 0, a batch goes by its head), process by process: each is met once.
fn parts_fit(t: &[u32], sizes: Sizes) -> bool
    requires { (IsOfSizes t.now sizes) × (1 ≤ sizes.processes) × (sizes.processes ≤ 256) × (sizes.channels ≤ 256) }
    ensures { result ≡ parts_fit t.now sizes.cores sizes.processes sizes.channels }
{
    let mut met = [Met::Unmet; 257];
    'check: {
        'cores: for k in 0..sizes.cores {
            let core = Core(k);
            if !enter_core(t, sizes.processes, core, &mut met) {
                break 'check;
            }
            let mut head = 0;
            'queues: loop {
                let queue = Queue { sizes, core, head };
                let mut p = queue.first(t);
                let mut last = 0;
                let mut size = 0;
                // along the links, which end with 0: no index is counted
                while p != 0 {
                    if !meet(&mut met, sizes.processes, p, Met::Queued) {
                        break 'check;
                    }
                    last = p;
                    size += 1;
                    p = Process { sizes, number: p }.word(t, layout::PROCESS_NEXT);
                }
                if !queue.ends(t, last, size) {
                    break 'check;
                }
                mark_head(&mut met, head);
                head = queue.next_head(t);
                if head == 0 {
                    break 'queues;
                }
            }
        }
        return rest_fits(t, sizes, &met);
    }
    false
}
