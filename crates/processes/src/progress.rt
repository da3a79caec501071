// A process's progress: which of its words mean something goes by what it is.
ghost use Rattle.std.specs.Prelude.{◌≡◌, ◌+◌, ◌<◌, ◌≤◌, length};
ghost use Rattle.rules.specs.Layout.{guard_places, channel_stride};
ghost use Rattle.layout.specs.Numbers.{number_of, choice_number};
ghost use Rattle.table.specs.Has.{HasProcess, IsOfSizes, IsProcessOf};
ghost use Rattle.fitting.specs.Twin.{end_fits, guards_fit, channel_part, partner_part, guards_stand, index_part, ready_part};
ghost use Rattle.processes.specs.Parts.{no_guards, exchange_fits, choice_fits, numbered_fits};

use layout::progress::{Choice, Exchange, Outcome, Progress, Way};
use records::zeros;
use table::{Channel, Process, Record, within};

// Process p stands at the end f (writer or reader) of channel c. (f is the word of that end, as every word goes by its number.)
fn end_fits(t: &[u32], p: Process, f: usize, c: u32) -> bool
    requires sized { IsOfSizes t.now p.sizes }
    requires end { f < channel_stride }
    ensures { result ≡ end_fits t.now p.sizes.cores p.sizes.processes p.sizes.channels p.number f c }
{
    let sizes = p.sizes;
    within(1, sizes.channels as usize, c)
        && table::may_use(t, Channel { sizes, number: c }, f, p.number)
}

// The `count` guards from the word `from` on: each one's own, none twice. (By place and count, as fitting's `guards_fit` has them.)
fn guards_fit(t: &[u32], p: Process, from: usize, count: usize) -> bool
    requires sized { IsOfSizes t.now p.sizes }
    requires reaches { from + count ≤ length t.now }
    ensures { result ≡ guards_fit t.now p.sizes.cores p.sizes.processes p.sizes.channels p.number from count }
{
    let end = from + count;
    for at in from..end {
        if !end_fits(t, p, layout::CHANNEL_READER, t[at]) {
            return false;
        }
        if t[at + 1..end].contains(&t[at]) {
            return false;
        }
    }
    true
}

// The channel c: a sender's is one that it writes, a receiver's one that it reads.
fn channel_part(t: &[u32], p: Process, progress: Progress, c: u32) -> bool
    requires { IsOfSizes t.now p.sizes }
    ensures { result ≡ channel_part t.now p.sizes.cores p.sizes.processes p.sizes.channels p.number (number_of progress) c }
{
    match progress {
        Progress::Exchanging(Way::Sending, _) | Progress::Due(Outcome::Sent) => {
            end_fits(t, p, layout::CHANNEL_WRITER, c)
        }
        Progress::Exchanging(Way::Receiving, _) | Progress::Due(Outcome::Got | Outcome::Chose) => {
            end_fits(t, p, layout::CHANNEL_READER, c)
        }
        Progress::Nothing | Progress::Choosing(_) | Progress::Due(Outcome::Go) => c == 0,
    }
}

// g guards from the word `from` on, 1 to 8, and zeros behind them. (By place and count, as fitting has them.)
fn guards_stand(t: &[u32], p: Process, g: u32, from: usize) -> bool
    requires sized { IsOfSizes t.now p.sizes }
    requires reaches { from + guard_places ≤ length t.now }
    ensures { result ≡ guards_stand t.now p.sizes.cores p.sizes.processes p.sizes.channels p.number g from }
{
    if !within(1, 8, g) {
        return false;
    }
    let count = g as usize;
    guards_fit(t, p, from, count) & zeros(t, from + count, layout::GUARD_PLACES - count)
}

// The partner q, of an exchange that has met one.
fn partner_part(processes: usize, progress: Progress, q: u32) -> bool
    ensures { result ≡ partner_part processes (number_of progress) q }
{
    match progress {
        Progress::Exchanging(_, Exchange::Copy | Exchange::Clear | Exchange::Wake) => {
            within(1, processes, q)
        }
        _ => q == 0,
    }
}

// The guard index i, of a choice that goes through its g guards.
fn index_part(stage: Choice, g: u32, i: u32) -> bool
    ensures { result ≡ index_part (choice_number stage) g i }
{
    match stage {
        Choice::Wait | Choice::Finish => i == 0,
        _ => within(1, g as usize, i),
    }
}

// The first ready guard, of a choice that disables its g guards or has done so.
fn ready_part(stage: Choice, g: u32, first: u32) -> bool
    ensures { result ≡ ready_part (choice_number stage) g first }
{
    match stage {
        Choice::Disable | Choice::Lower | Choice::Finish => first <= g,
        _ => first == 0,
    }
}

// No guards, no guard index, no ready guard.
fn no_guards(t: &[u32], p: Process) -> bool
    requires { HasProcess t.now p.sizes.cores p.number }
    ensures { result ≡ no_guards t.now p.sizes.cores p.number }
{
    (p.word(t, layout::PROCESS_GUARDS) == 0)
        & zeros(
            t,
            p.at(t, layout::PROCESS_FIRST_GUARD),
            layout::GUARD_PLACES,
        )
        & (p.word(t, layout::PROCESS_INDEX) == 0)
        & (p.word(t, layout::PROCESS_FIRST_READY) == 0)
}

// A progress without guards: its channel and partner, and zeros behind them.
fn exchange_fits(t: &[u32], p: Process, progress: Progress) -> bool
    requires { IsProcessOf t.now p }
    ensures { result ≡ exchange_fits t.now p.sizes.cores p.sizes.processes p.sizes.channels p.number (number_of progress) }
{
    channel_part(t, p, progress, p.word(t, layout::PROCESS_CHANNEL))
        && partner_part(
            p.sizes.processes,
            progress,
            p.word(t, layout::PROCESS_PARTNER),
        )
        && no_guards(t, p)
}

// One with guards: no channel and no partner; its guards, its guard index, its first ready guard.
fn choice_fits(t: &[u32], p: Process, stage: Choice) -> bool
    requires { IsProcessOf t.now p }
    ensures { result ≡ choice_fits t.now p.sizes.cores p.sizes.processes p.sizes.channels p.number (choice_number stage) }
{
    let g = p.word(t, layout::PROCESS_GUARDS);
    (p.word(t, layout::PROCESS_CHANNEL) == 0)
        & (p.word(t, layout::PROCESS_PARTNER) == 0)
        & guards_stand(t, p, g, p.at(t, layout::PROCESS_FIRST_GUARD))
        & index_part(stage, g, p.word(t, layout::PROCESS_INDEX))
        & ready_part(stage, g, p.word(t, layout::PROCESS_FIRST_READY))
}

// The words of a progress that mean something are as they may be, and the others 0.
pub fn progress_fits(t: &[u32], p: Process, progress: Progress) -> bool
    requires { IsProcessOf t.now p }
    ensures { result ≡ numbered_fits t.now p.sizes.cores p.sizes.processes p.sizes.channels p.number (number_of progress) }
{
    match progress {
        Progress::Choosing(stage) => choice_fits(t, p, stage),
        _ => exchange_fits(t, p, progress),
    }
}
