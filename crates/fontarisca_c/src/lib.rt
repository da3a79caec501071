// The exports, for the host written in C (include/fontarisca.h): each is the call of crates/fontarisca of its name, and promises the same.
#![tactic(auto)]

ghost use Rattle.rules.specs.Numbers.{lends};
ghost use Rattle.rules.specs.Calls.{set_up_call, send_call, receive_call, choose_call, yield_call, end_call, step_call};
ghost use Rattle.rules.specs.Claims.{gives, Meets, builds, MeetsBuilt};

// Builds a table of k cores, n processes and m channels with these (writer, reader) pairs, whatever it held.
#[unsafe(no_mangle)]
pub extern "C" fn fontarisca_set_up(k: u32, n: u32, m: u32, pairs: &[u32], table: &mut [u32]) -> u32
    ensures { MeetsBuilt (set_up_call k n m pairs.now table.old) (builds result table.new) }
{
    fontarisca::fontarisca_set_up(k, n, m, pairs, table)
}

// The running process of the core sends the value on the channel, of which it is the writer.
#[unsafe(no_mangle)]
pub extern "C" fn fontarisca_send(
    table: &mut [u32],
    answer: &mut [u32],
    core: u32,
    channel: u32,
    value: u32,
) -> u32
    ensures { Meets (send_call table.old (lends answer.old) core channel value) (gives result (lends answer.new) table.new) }
{
    fontarisca::fontarisca_send(table, answer, core, channel, value)
}

// It receives on the channel, of which it is the reader.
#[unsafe(no_mangle)]
pub extern "C" fn fontarisca_receive(
    table: &mut [u32],
    answer: &mut [u32],
    core: u32,
    channel: u32,
) -> u32
    ensures { Meets (receive_call table.old (lends answer.old) core channel) (gives result (lends answer.new) table.new) }
{
    fontarisca::fontarisca_receive(table, answer, core, channel)
}

// It chooses over these channels, of which it is the reader.
#[unsafe(no_mangle)]
pub extern "C" fn fontarisca_choose(
    table: &mut [u32],
    answer: &mut [u32],
    core: u32,
    guards: &[u32],
) -> u32
    ensures { Meets (choose_call table.old (lends answer.old) core guards.now) (gives result (lends answer.new) table.new) }
{
    fontarisca::fontarisca_choose(table, answer, core, guards)
}

// It goes to the end of the active queue.
#[unsafe(no_mangle)]
pub extern "C" fn fontarisca_yield(table: &mut [u32], answer: &mut [u32], core: u32) -> u32
    ensures { Meets (yield_call table.old (lends answer.old) core) (gives result (lends answer.new) table.new) }
{
    fontarisca::fontarisca_yield(table, answer, core)
}

// It ends.
#[unsafe(no_mangle)]
pub extern "C" fn fontarisca_end(table: &mut [u32], answer: &mut [u32], core: u32) -> u32
    ensures { Meets (end_call table.old (lends answer.old) core) (gives result (lends answer.new) table.new) }
{
    fontarisca::fontarisca_end(table, answer, core)
}

// The next atomic step of the core.
#[unsafe(no_mangle)]
pub extern "C" fn fontarisca_step(table: &mut [u32], answer: &mut [u32], core: u32) -> u32
    ensures { Meets (step_call table.old (lends answer.old) core) (gives result (lends answer.new) table.new) }
{
    fontarisca::fontarisca_step(table, answer, core)
}
