// A channel.
ghost use Rattle.std.specs.Prelude.{◌≡◌, ◌<◌, ◌≤◌, length};
ghost use Rattle.rules.specs.Layout.{channel_at, channel_holder};
ghost use Rattle.fitting.specs.Twin.{channel_fits};

use table::{Channel, Record, within};

// Writer and reader, which differ, and the channel word: nobody, or a process's name.
pub fn channel_fits(t: &[u32], c: Channel) -> bool
    requires { (1 ≤ c.number) × (channel_at c.sizes.cores c.sizes.processes c.number channel_holder < length t.now) }
    ensures { result ≡ channel_fits t.now c.sizes.cores c.sizes.processes c.number }
{
    let processes = c.sizes.processes;
    let writer = c.word(t, layout::CHANNEL_WRITER);
    let reader = c.word(t, layout::CHANNEL_READER);
    let word = c.word(t, layout::CHANNEL_HOLDER);
    within(1, processes, writer)
        & within(1, processes, reader)
        & (writer != reader)
        & ((word == 0) | within(1, processes, word >> 1))
}
