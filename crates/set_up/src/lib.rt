// Set-up (document 01, "Set-up"): why it is refused, and the table that it builds.
#![tactic(auto)]

ghost use Rattle.std.specs.Prelude.{◌≡◌, [], ◌∷◌, ℕ, suc, ◌*◌, ◌≤◌, ◌<◌, length};
ghost use Rattle.rules.specs.SetUp.{ends_of, proper_pairs, set_up_refusal, set_up_state};
ghost use Rattle.rules.specs.Layout.{header_size, channels_at, room};
ghost use Rattle.rules.specs.Packing.{pack};
ghost use Rattle.rules.specs.Calls.{set_up_call};
ghost use Rattle.answers.specs.Said.{why_not};
ghost use Rattle.table.specs.Has.{HasProcess, HasChannel};
ghost use Rattle.set_up.specs.Filled.{flaw_number, in_turn, header_filled, process_filled, channel_filled, alone, in_batches, CanStandAlone, Ready};

use answers::Refusal;
use layout::Place;
use layout::progress::Outcome;
use table::{Channel, Core, Process, Record, Sizes, within};

// NAME where the writer or the reader is none of the n processes, before SELF where both are one.
fn check_pair(n: usize, writer: u32, reader: u32) -> Result<(), Refusal>
    ensures { why_not result ≡ proper_pairs n (record { writer = writer; reader = reader } ∷ []) }
{
    if !(within(1, n, writer) && within(1, n, reader)) {
        return Err(Refusal::Name);
    }
    if writer == reader {
        return Err(Refusal::SameProcess);
    }
    Ok(())
}

// What is wrong with the first bad pair.
fn check_pairs(n: usize, pairs: &[u32]) -> Result<(), Refusal>
    ensures { why_not result ≡ proper_pairs n (ends_of pairs.now) }
{
    for pair in pairs.chunks_exact(2) {
        check_pair(n, pair[0], pair[1])?;
    }
    Ok(())
}

// Why set-up is refused, for a table of `size` words.
fn check(sizes: Sizes, pairs: &[u32], size: usize) -> Result<(), Refusal>
    ensures { why_not result ≡ set_up_refusal sizes.cores sizes.processes sizes.channels pairs.now size }
{
    if !sizes.are_allowed() {
        return Err(Refusal::Size);
    }
    if pairs.len() != 2 * sizes.channels as usize {
        return Err(Refusal::Pairs);
    }
    if size != sizes.room() {
        return Err(Refusal::Room);
    }
    check_pairs(sizes.processes, pairs)
}

// K, N and M, and no word else, whatever the table held.
fn fill_header(t: &mut [u32], sizes: Sizes)
    requires lies_in { header_size ≤ length t.old }
    requires few_cores { sizes.cores ≤ 8 }
    requires few_processes { sizes.processes ≤ 256 }
    ensures { t.new ≡ header_filled sizes.cores sizes.processes sizes.channels t.old }
{
    t.fill(0);
    t[layout::HEADER_CORES] = sizes.cores as u32;
    t[layout::HEADER_PROCESSES] = sizes.processes as u32;
    t[layout::HEADER_CHANNELS] = sizes.channels;
}

// Process p is queued, with GO due.
fn fill_process(t: &mut [u32], p: Process)
    requires { HasProcess t.old p.sizes.cores p.number }
    ensures { t.new ≡ process_filled p.sizes.cores p.number t.old }
{
    p.set(t, layout::PROCESS_PLACE, Place::Queued as u32);
    p.set(t, layout::PROCESS_PROGRESS, u32::from(Outcome::Go));
}

// The processes. (Beside `fill_channels` and `fill_queues`: one function of what is done in turn would need the fold of its closure's
// promise in its contract, for loops of one line.)
#[tactic(auto, using(crate::proofs::Turns::one_turn))]
fn fill_processes(t: &mut [u32], sizes: Sizes)
    requires lies_in { channels_at sizes.cores sizes.processes ≤ length t.old }
    requires few_processes { sizes.processes ≤ 256 }
    ensures { t.new ≡ in_turn (process_filled sizes.cores) 1 sizes.processes t.old }
{
    for p in 1..=sizes.processes as u32 {
        fill_process(t, Process { sizes, number: p });
    }
}

// Channel c, with its writer and its reader. (The pairs are one list of words, as the host lends it.)
fn fill_channel(t: &mut [u32], c: Channel, pairs: &[u32])
    requires channel { HasChannel t.old c.sizes.cores c.sizes.processes c.number }
    requires pairs_lie_in { 2 * c.number ≤ length pairs.now }
    ensures { t.new ≡ channel_filled c.sizes.cores c.sizes.processes pairs.now c.number t.old }
{
    let i = 2 * (c.number as usize - 1);
    c.set(t, layout::CHANNEL_WRITER, pairs[i]);
    c.set(t, layout::CHANNEL_READER, pairs[i + 1]);
}

// The channels.
#[tactic(auto, using(crate::proofs::Turns::one_turn))]
fn fill_channels(t: &mut [u32], sizes: Sizes, pairs: &[u32])
    requires lies_in { room sizes.cores sizes.processes sizes.channels ≤ length t.old }
    requires pairs_lie_in { 2 * sizes.channels ≤ length pairs.now }
    requires few_channels { sizes.channels ≤ 256 }
    ensures { t.new ≡ in_turn (channel_filled sizes.cores sizes.processes pairs.now) 1 sizes.channels t.old }
{
    for c in 1..=sizes.channels {
        fill_channel(t, Channel { sizes, number: c }, pairs);
    }
}

// Process p is alone in a batch on core (p - 1) mod K, the last one there.
fn stand_alone(t: &mut [u32], p: Process)
    requires can_stand { CanStandAlone t.old p.sizes.cores p.number }
    requires some_core { 1 ≤ p.sizes.cores }
    requires from_one { 1 ≤ p.number }
    ensures { t.new ≡ alone p.sizes.cores p.number t.old }
{
    let core = Core((p.number as usize - 1) % p.sizes.cores);
    queues::push(t, core, p);
    queues::store(t, p.sizes, core);
}

// The processes stand in batches, in order.
#[tactic(auto, using(crate::proofs::Turns::one_batch))]
fn fill_queues(t: &mut [u32], sizes: Sizes)
    requires can_stand { ((i : ℕ) → i < sizes.processes → CanStandAlone (in_batches sizes.cores i t.old) sizes.cores (suc i)) }
    requires some_core { 1 ≤ sizes.cores }
    requires few_processes { sizes.processes ≤ 256 }
    ensures { t.new ≡ in_batches sizes.cores sizes.processes t.old }
{
    for p in 1..=sizes.processes as u32 {
        stand_alone(t, Process { sizes, number: p });
    }
}

// The whole table.
fn fill(sizes: Sizes, pairs: &[u32], t: &mut [u32])
    requires { Ready sizes.cores sizes.processes sizes.channels (length pairs.now) (length t.old) }
    ensures { t.new ≡ pack (set_up_state sizes.cores sizes.processes pairs.now) }
{
    fill_header(t, sizes);
    fill_processes(t, sizes);
    fill_channels(t, sizes, pairs);
    fill_queues(t, sizes);
}

// Set-up: the table built; or why it is refused, and nothing written.
#[tactic(auto, unfolding(rules::specs::Calls::set_up_call))]
pub fn build(sizes: Sizes, pairs: &[u32], t: &mut [u32]) -> Result<(), Refusal>
    ensures number { flaw_number (why_not result) ≡ (set_up_call sizes.cores sizes.processes sizes.channels pairs.now t.old).number }
    ensures table { t.new ≡ (set_up_call sizes.cores sizes.processes sizes.channels pairs.now t.old).table }
{
    check(sizes, pairs, t.len())?;
    fill(sizes, pairs, t);
    Ok(())
}
