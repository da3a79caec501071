// The requests (document 01): what the running process of a core does next, on a sound table.
#![tactic(auto)]

ghost use Rattle.std.specs.Prelude.{◌≡◌, ◌≤◌, ◌<◌, ◌==◌, [], length};
ghost use Rattle.std.specs.List.{list_any};
ghost use Rattle.rules.specs.Requests.{request, asks, send, receive, choose, yield, end};
ghost use Rattle.rules.specs.State.{users};
ghost use Rattle.rules.specs.Layout.{room, channel_stride, channel_reader, guard_places};
ghost use Rattle.rules.specs.Packing.{view, m_of};
ghost use Rattle.table.specs.Has.{HasProcess};
ghost use Rattle.layout.specs.Numbers.{number_of};
ghost use Rattle.answers.specs.Said.{said};
ghost use Rattle.parts.specs.Does.{Card, Does};
ghost use Rattle.requests.specs.Asked.{asked, Idle, HasRunning, asker, found, check_end, check_guards, look_table, begun_table, enabling_table};

use answers::{Answer, Refusal, Reply};
use layout::Place;
use layout::progress::{Choice, Exchange, Outcome, Progress, Way};
use parts::Task;
use table::{Channel, Core, Process, Record, Sizes};

// What is asked.
#[derive(Clone, Copy, Debug)]
pub enum Request<'a> {
    Send(u32, u32),
    Receive(u32),
    Choose(&'a [u32]),
    Yield,
    End,
}

// The running process, if it has nothing in hand. (0 in the core's word is nobody.)
fn requester(t: &[u32], sizes: Sizes, core: Core) -> Option<Process>
    requires { HasRunning t.now sizes.cores core.0 }
    ensures { result ≡ found sizes (asker t.now sizes.cores core.0) }
{
    let p = Process {
        sizes,
        number: core.word(t, layout::CORE_RUNS),
    };
    if p.number != 0 && p.word(t, layout::PROCESS_PROGRESS) == u32::from(Progress::Nothing) {
        Some(p)
    } else {
        None
    }
}

// Process p may use the end f of channel c, its writer's or its reader's. (f is the word of that end, as every word goes by its number.)
fn check_end(t: &[u32], p: Process, f: usize, c: u32) -> Result<(), Refusal>
    requires of_channel { f < channel_stride }
    requires lies_in { room p.sizes.cores p.sizes.processes p.sizes.channels ≤ length t.now }
    ensures { result ≡ check_end t.now p.sizes p.number f c }
{
    if !table::within(1, p.sizes.channels as usize, c) {
        return Err(Refusal::Channel);
    }
    let channel = Channel {
        sizes: p.sizes,
        number: c,
    };
    if !table::may_use(t, channel, f, p.number) {
        return Err(Refusal::OtherEnd);
    }
    Ok(())
}

// The request of process p starts there, at channel c.
fn begin_look(t: &mut [u32], p: Process, way: Way, c: u32)
    requires { HasProcess t.old p.sizes.cores p.number }
    ensures { t.new ≡ look_table t.old p.sizes.cores p.number (number_of (Progress.Exchanging way Exchange.Look)) c }
{
    p.set(
        t,
        layout::PROCESS_PROGRESS,
        u32::from(Progress::Exchanging(way, Exchange::Look)),
    );
    p.set(t, layout::PROCESS_CHANNEL, c);
}

// Send stores the value in the process's data word, and starts at look.
fn send(t: &mut [u32], core: Core, p: Process, c: u32, v: u32) -> Reply
    requires { Idle t.old p.sizes core.0 p.number }
    ensures { Does (asks (users (view t.old)) core.0 p.number (send c v)) t.old (said result) t.new }
{
    check_end(t, p, layout::CHANNEL_WRITER, c)?;
    p.set(t, layout::PROCESS_DATA, v);
    begin_look(t, p, Way::Sending, c);
    Ok(Answer::Taken(p.number, c))
}

// Receive starts at look.
fn receive(t: &mut [u32], core: Core, p: Process, c: u32) -> Reply
    requires { Idle t.old p.sizes core.0 p.number }
    ensures { Does (asks (users (view t.old)) core.0 p.number (receive c)) t.old (said result) t.new }
{
    check_end(t, p, layout::CHANNEL_READER, c)?;
    begin_look(t, p, Way::Receiving, c);
    Ok(Answer::Taken(p.number, c))
}

// The guard c stands among these. (`any`, which is inlined; with a call of `contains` for each guard a choice of eight takes 1.3 times the
// time, the check aside.)
fn stands_among(guards: &[u32], c: u32) -> bool
    ensures { result ≡ list_any (λ guard. guard == c) guards.now }
{
    guards.iter().any(|guard| *guard == c)
}

// Process p may choose over these guards, which are tested one by one. (The soundness check goes over guards too, but gives no reason, and
// looks for what repeats behind a guard.)
fn check_guards(t: &[u32], p: Process, guards: &[u32]) -> Result<(), Refusal>
    requires { room p.sizes.cores p.sizes.processes p.sizes.channels ≤ length t.now }
    ensures { result ≡ check_guards (check_end t.now p.sizes p.number channel_reader) [] guards.now }
{
    for (i, c) in guards.iter().enumerate() {
        check_end(t, p, layout::CHANNEL_READER, *c)?;
        if stands_among(&guards[..i], *c) {
            return Err(Refusal::Twice);
        }
    }
    Ok(())
}

// Process p begins a choice: enabling and not-ready are set, waiting is clear, the count is 1.
fn begin_choice(t: &mut [u32], p: Process)
    requires { HasProcess t.old p.sizes.cores p.number }
    ensures { t.new ≡ begun_table t.old p.sizes.cores p.number }
{
    p.set(t, layout::PROCESS_ENABLING, 1);
    p.set(t, layout::PROCESS_NOT_READY, 1);
    p.set(t, layout::PROCESS_WAITING, 0);
    p.set(t, layout::PROCESS_COUNT, 1);
}

// Process p is at the enabling look of the first of its guards.
fn begin_enabling(t: &mut [u32], p: Process, guards: &[u32])
    requires process { HasProcess t.old p.sizes.cores p.number }
    requires few_guards { length guards.now ≤ guard_places }
    ensures { t.new ≡ enabling_table t.old p.sizes.cores p.number guards.now }
{
    p.set(
        t,
        layout::PROCESS_PROGRESS,
        u32::from(Progress::Choosing(Choice::EnableLook)),
    );
    p.set(t, layout::PROCESS_GUARDS, guards.len() as u32);
    p.set(t, layout::PROCESS_INDEX, 1);
    p.set_all(t, layout::PROCESS_FIRST_GUARD, guards);
}

// Choose sets enabling and not-ready, count 1, waiting clear, and starts enabling at the first guard.
fn choose(t: &mut [u32], core: Core, p: Process, guards: &[u32]) -> Reply
    requires { Idle t.old p.sizes core.0 p.number }
    ensures { Does (asks (users (view t.old)) core.0 p.number (choose guards.now)) t.old (said result) t.new }
{
    if guards.is_empty() || guards.len() > layout::GUARD_PLACES {
        return Err(Refusal::Guards);
    }
    check_guards(t, p, guards)?;
    begin_choice(t, p);
    begin_enabling(t, p, guards);
    Ok(Answer::Taken(p.number, 0))
}

// Yield puts the process at the end of the active queue with outcome GO and leaves nothing running.
fn yields(t: &mut [u32], core: Core, p: Process) -> Reply
    requires { Idle t.old p.sizes core.0 p.number }
    ensures { Does (asks (users (view t.old)) core.0 p.number yield) t.old (said result) t.new }
{
    p.set(t, layout::PROCESS_PROGRESS, u32::from(Outcome::Go));
    queues::joins(t, core, p);
    parts::has_task(t, core, Task::None);
    Ok(Answer::Taken(p.number, 0))
}

// End makes the process ended and leaves nothing running.
fn ends(t: &mut [u32], core: Core, p: Process) -> Reply
    requires { Idle t.old p.sizes core.0 p.number }
    ensures { Does (asks (users (view t.old)) core.0 p.number end) t.old (said result) t.new }
{
    p.set(t, layout::PROCESS_PLACE, Place::Ended as u32);
    parts::has_task(t, core, Task::None);
    Ok(Answer::Taken(p.number, 0))
}

// Process p, which has nothing in hand, does what it is asked for. (A match: the kinds of request are those of the exports.)
fn perform(t: &mut [u32], core: Core, p: Process, r: Request<'_>) -> Reply
    requires { Idle t.old p.sizes core.0 p.number }
    ensures { Does (asks (users (view t.old)) core.0 p.number (asked r.entry)) t.old (said result) t.new }
{
    match r {
        Request::Send(c, v) => send(t, core, p, c, v),
        Request::Receive(c) => receive(t, core, p, c),
        Request::Choose(guards) => choose(t, core, p, guards),
        Request::Yield => yields(t, core, p),
        Request::End => ends(t, core, p),
    }
}

// A request of the core's running process: BUSY where nothing runs there, or something is in hand.
pub fn make(t: &mut [u32], sizes: Sizes, core: Core, r: Request<'_>) -> Reply
    requires card { Card t.old sizes.cores sizes.processes core.0 }
    requires wired { sizes.channels ≡ m_of t.old }
    ensures { Does (request (users (view t.old)) (asked r.entry) core.0) t.old (said result) t.new }
{
    let p = requester(t, sizes, core).ok_or(Refusal::Busy)?;
    perform(t, core, p, r)
}
