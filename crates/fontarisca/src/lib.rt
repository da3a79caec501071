// The calls: set-up, the five requests and the step. crates/fontarisca_c exports them to the host written in C.
#![tactic(auto)]

ghost use Rattle.std.specs.Prelude.{◌≡◌};
ghost use Rattle.rules.specs.Numbers.{lends};
ghost use Rattle.rules.specs.Calls.{call, set_up_call, send_call, receive_call, choose_call, yield_call, end_call, step_call};
ghost use Rattle.rules.specs.Claims.{gives, Meets, builds, MeetsBuilt};
ghost use Rattle.answers.specs.Said.{said, why_not};
ghost use Rattle.fontarisca.specs.First.{asks, first_refusal, Replies};

use answers::{Refusal, Reply};
use requests::Request;
use table::{Core, Sizes};

// What a core is asked: a request of its running process, or its next step.
#[derive(Clone, Copy, Debug)]
pub enum Ask<'a> {
    Step,
    Request(Request<'a>),
}

// What a call is refused for before its rule is looked at: what is lent for the answer isn't as long as it must be, the table isn't
// sound, there is no such core. The soundness check stands here and nowhere else; host/without-check leaves this function out.
#[inline(never)]
fn check_first(table: &[u32], answer: &[u32], core: u32) -> Result<(), Refusal>
    ensures { why_not result ≡ first_refusal table.now (lends answer.now) core }
{
    if !answers::lent_well(answer) {
        return Err(Refusal::Answer);
    }
    if !soundness::sound(table) {
        return Err(Refusal::Damaged);
    }
    if (core as usize) < Sizes::read(table).cores {
        Ok(())
    } else {
        Err(Refusal::Core)
    }
}

// The first refusals, then the rule of what is asked. (A match: a closure for the rule would have to carry its promise past the refusals.)
fn reply_to(table: &mut [u32], answer: &[u32], core: u32, ask: Ask<'_>) -> Reply
    ensures { Replies table.old (lends answer.now) core (asks ask.entry) (said result) table.new }
{
    check_first(table, answer, core)?;
    let sizes = Sizes::read(table);
    match ask {
        Ask::Step => core_step::step(table, sizes, Core(core as usize)),
        Ask::Request(request) => requests::make(table, sizes, Core(core as usize), request),
    }
}

// A call: what it comes to is told, and its number returned.
fn call(table: &mut [u32], answer: &mut [u32], core: u32, ask: Ask<'_>) -> u32
    ensures { Meets (call table.old (lends answer.old) core (asks ask.entry)) (gives result (lends answer.new) table.new) }
{
    let reply = reply_to(table, answer, core, ask);
    answers::tell_reply(answer, reply);
    answers::number(reply)
}

// Builds a table of k cores, n processes and m channels with these (writer, reader) pairs, whatever it held.
pub fn fontarisca_set_up(k: u32, n: u32, m: u32, pairs: &[u32], table: &mut [u32]) -> u32
    ensures { MeetsBuilt (set_up_call k n m pairs.now table.old) (builds result table.new) }
{
    let sizes = Sizes {
        cores: k as usize,
        processes: n as usize,
        channels: m,
    };
    if let Err(why) = set_up::build(sizes, pairs, table) {
        return u32::from(why);
    }
    answers::BUILT
}

// The running process of the core sends the value on the channel, of which it is the writer.
pub fn fontarisca_send(
    table: &mut [u32],
    answer: &mut [u32],
    core: u32,
    channel: u32,
    value: u32,
) -> u32
    ensures { Meets (send_call table.old (lends answer.old) core channel value) (gives result (lends answer.new) table.new) }
{
    call(
        table,
        answer,
        core,
        Ask::Request(Request::Send(channel, value)),
    )
}

// It receives on the channel, of which it is the reader.
pub fn fontarisca_receive(table: &mut [u32], answer: &mut [u32], core: u32, channel: u32) -> u32
    ensures { Meets (receive_call table.old (lends answer.old) core channel) (gives result (lends answer.new) table.new) }
{
    call(table, answer, core, Ask::Request(Request::Receive(channel)))
}

// It chooses over these channels, of which it is the reader.
pub fn fontarisca_choose(table: &mut [u32], answer: &mut [u32], core: u32, guards: &[u32]) -> u32
    ensures { Meets (choose_call table.old (lends answer.old) core guards.now) (gives result (lends answer.new) table.new) }
{
    call(table, answer, core, Ask::Request(Request::Choose(guards)))
}

// It goes to the end of the active queue.
pub fn fontarisca_yield(table: &mut [u32], answer: &mut [u32], core: u32) -> u32
    ensures { Meets (yield_call table.old (lends answer.old) core) (gives result (lends answer.new) table.new) }
{
    call(table, answer, core, Ask::Request(Request::Yield))
}

// It ends.
pub fn fontarisca_end(table: &mut [u32], answer: &mut [u32], core: u32) -> u32
    ensures { Meets (end_call table.old (lends answer.old) core) (gives result (lends answer.new) table.new) }
{
    call(table, answer, core, Ask::Request(Request::End))
}

// The next atomic step of the core.
pub fn fontarisca_step(table: &mut [u32], answer: &mut [u32], core: u32) -> u32
    ensures { Meets (step_call table.old (lends answer.old) core) (gives result (lends answer.new) table.new) }
{
    call(table, answer, core, Ask::Step)
}
