// The part of the soundness check that looks at one process.
#![tactic(auto)]

ghost use Rattle.std.specs.Prelude.{◌≡◌};
ghost use Rattle.rules.specs.Layout.{process_at, process_next, links_size};
ghost use Rattle.layout.specs.Numbers.{number_of};
ghost use Rattle.table.specs.Has.{HasProcess, IsProcessOf};
ghost use Rattle.processes.specs.Met.{met_number};
ghost use Rattle.fitting.specs.Twin.{zeros, place_fits, meeting_fits, flags_fit, process_fits};

use layout::Place;
use layout::progress::Progress;
use records::zeros;
use table::{Process, Record, within};

mod progress; // its progress

use progress::progress_fits;

// What was met of a process in the cores' queues.
#[derive(Clone, Copy, Debug, PartialEq, Eq)]
pub enum Met {
    Unmet,
    Running,
    Queued,
    Head, // of a batch
}

// A running process has nothing in hand or a stage; a queued or sleeping one a stage or an outcome; an ended one nothing. (The place is a
// word here, which may be of none.)
fn place_fits(place: u32, progress: Progress) -> bool
    ensures { result ≡ place_fits place (number_of progress) }
{
    match progress {
        Progress::Nothing => (place == Place::Running as u32) | (place == Place::Ended as u32),
        Progress::Due(_) => within(Place::Queued as u32, Place::Asleep as usize, place),
        Progress::Exchanging(..) | Progress::Choosing(_) => {
            within(Place::Running as u32, Place::Asleep as usize, place)
        }
    }
}

// No next, and nothing of a batch.
fn no_links(t: &[u32], p: Process) -> bool
    requires { HasProcess t.now p.sizes.cores p.number }
    ensures { result ≡ zeros t.now (process_at p.sizes.cores p.number process_next) links_size }
{
    zeros(t, p.at(t, layout::PROCESS_NEXT), layout::LINKS_SIZE)
}

// What was met agrees with the place; who is in no queue has no links, who heads no batch none of a batch's.
fn meeting_fits(t: &[u32], p: Process, place: u32, met: Met) -> bool
    requires { HasProcess t.now p.sizes.cores p.number }
    ensures { result ≡ meeting_fits t.now p.sizes.cores p.number place (met_number met) }
{
    match met {
        Met::Unmet => (Place::Asleep as u32 <= place) & no_links(t, p),
        Met::Running => (place == Place::Running as u32) & no_links(t, p),
        Met::Queued => {
            (place == Place::Queued as u32)
                & zeros(t, p.at(t, layout::PROCESS_LAST), layout::LINKS_SIZE - 1)
        }
        Met::Head => place == Place::Queued as u32,
    }
}

// Flags 0 or 1, count 0 to 9, unused words 0.
fn flags_fit(t: &[u32], p: Process) -> bool
    requires { HasProcess t.now p.sizes.cores p.number }
    ensures { result ≡ flags_fit t.now p.sizes.cores p.number }
{
    let unused = layout::PROCESS_STRIDE - layout::PROCESS_SPARE;
    (p.word(t, layout::PROCESS_ENABLING) <= 1)
        & (p.word(t, layout::PROCESS_NOT_READY) <= 1)
        & (p.word(t, layout::PROCESS_WAITING) <= 1)
        & (p.word(t, layout::PROCESS_COUNT) <= 9)
        & zeros(t, p.at(t, layout::PROCESS_SPARE), unused)
}

// Process p, of which this was met.
#[tactic(auto, using(crate::proofs::ByNumber::by_number, crate::proofs::ByNumber::unfit_meeting))]
pub fn process_fits(t: &[u32], p: Process, met: Met) -> bool
    requires { IsProcessOf t.now p }
    ensures { result ≡ process_fits t.now p.sizes.cores p.sizes.processes p.sizes.channels p.number (met_number met) }
{
    let place = p.word(t, layout::PROCESS_PLACE);
    if !flags_fit(t, p) {
        return false;
    }
    if !meeting_fits(t, p, place, met) {
        return false;
    }
    let Ok(progress) = Progress::try_from(p.word(t, layout::PROCESS_PROGRESS)) else {
        return false;
    };
    place_fits(place, progress) && progress_fits(t, p, progress)
}
