ghost use Rattle.std.specs.Prelude.{◌≡◌};
ghost use Rattle.script.specs.Room.{room_of, length_by_header};

use crate::word;

// How many words a table of these sizes has, also of sizes that none may have: `table::Sizes::room` is of allowed ones.
pub fn room(cores: u32, processes: u32, channels: u32) -> usize
    ensures { result ≡ room_of cores processes channels }
{
    layout::HEADER_SIZE
        + layout::CORE_STRIDE * cores as usize
        + layout::PROCESS_STRIDE * processes as usize
        + layout::CHANNEL_STRIDE * channels as usize
}

// How many words a table has, by its header.
pub fn table_length(t: &[u32]) -> usize
    ensures { result ≡ length_by_header t.now }
{
    room(
        word(t, layout::HEADER_CORES),
        word(t, layout::HEADER_PROCESSES),
        word(t, layout::HEADER_CHANNELS),
    )
}

// A kind of record.
#[derive(Clone, Copy, Debug, PartialEq, Eq)]
pub(crate) enum Kind {
    Header,
    Core,
    Process,
    Channel,
}

impl Kind {
    // The kind that a name says.
    pub(crate) fn named(name: &[u8]) -> Option<Kind> {
        match name {
            b"header" => Some(Kind::Header),
            b"core" => Some(Kind::Core),
            b"process" => Some(Kind::Process),
            b"channel" => Some(Kind::Channel),
            _ => None,
        }
    }

    // How far a record is from the next one of its kind: there is one header.
    pub(crate) fn stride(self) -> usize {
        match self {
            Kind::Header => 0,
            Kind::Core => layout::CORE_STRIDE,
            Kind::Process => layout::PROCESS_STRIDE,
            Kind::Channel => layout::CHANNEL_STRIDE,
        }
    }

    // Where record n begins: cores are counted from 0, processes and channels from 1.
    pub(crate) fn start(self, t: &[u32], n: u32) -> usize {
        let cores = word(t, layout::HEADER_CORES);
        let processes = word(t, layout::HEADER_PROCESSES);
        let before = n.saturating_sub(1);
        match self {
            Kind::Header => 0,
            Kind::Core => room(n, 0, 0),
            Kind::Process => room(cores, before, 0),
            Kind::Channel => room(cores, processes, before),
        }
    }

    // Where the word of a name stands in a record.
    pub(crate) fn word(self, name: &[u8]) -> Option<usize> {
        match self {
            Kind::Header => header_word(name),
            Kind::Core => core_word(name),
            Kind::Process => process_word(name),
            Kind::Channel => channel_word(name),
        }
    }
}

// The words of each kind by name. (Four functions: one of all of them would be too long to read.)
fn header_word(name: &[u8]) -> Option<usize> {
    match name {
        b"cores" => Some(layout::HEADER_CORES),
        b"processes" => Some(layout::HEADER_PROCESSES),
        b"channels" => Some(layout::HEADER_CHANNELS),
        b"spare" => Some(layout::HEADER_SPARE),
        _ => None,
    }
}

fn core_word(name: &[u8]) -> Option<usize> {
    match name {
        b"runs" => Some(layout::CORE_RUNS),
        b"task" => Some(layout::CORE_TASK),
        b"task-process" => Some(layout::CORE_TASK_PROCESS),
        b"first" => Some(layout::CORE_FIRST),
        b"last" => Some(layout::CORE_LAST),
        b"size" => Some(layout::CORE_SIZE),
        b"dispatch" => Some(layout::CORE_DISPATCH),
        b"mark" => Some(layout::CORE_MARK),
        b"first-head" => Some(layout::CORE_FIRST_HEAD),
        b"last-head" => Some(layout::CORE_LAST_HEAD),
        b"spare" => Some(layout::CORE_SPARE),
        _ => None,
    }
}

fn process_word(name: &[u8]) -> Option<usize> {
    match name {
        b"place" => Some(layout::PROCESS_PLACE),
        b"data" => Some(layout::PROCESS_DATA),
        b"enabling" => Some(layout::PROCESS_ENABLING),
        b"not-ready" => Some(layout::PROCESS_NOT_READY),
        b"waiting" => Some(layout::PROCESS_WAITING),
        b"count" => Some(layout::PROCESS_COUNT),
        b"progress" => Some(layout::PROCESS_PROGRESS),
        b"channel" => Some(layout::PROCESS_CHANNEL),
        b"partner" => Some(layout::PROCESS_PARTNER),
        b"guards" => Some(layout::PROCESS_GUARDS),
        b"index" => Some(layout::PROCESS_INDEX),
        b"first-ready" => Some(layout::PROCESS_FIRST_READY),
        b"first-guard" => Some(layout::PROCESS_FIRST_GUARD),
        b"next" => Some(layout::PROCESS_NEXT),
        b"last" => Some(layout::PROCESS_LAST),
        b"size" => Some(layout::PROCESS_SIZE),
        b"next-head" => Some(layout::PROCESS_NEXT_HEAD),
        b"spare" => Some(layout::PROCESS_SPARE),
        _ => None,
    }
}

fn channel_word(name: &[u8]) -> Option<usize> {
    match name {
        b"writer" => Some(layout::CHANNEL_WRITER),
        b"reader" => Some(layout::CHANNEL_READER),
        b"holder" => Some(layout::CHANNEL_HOLDER),
        b"transfers" => Some(layout::CHANNEL_TRANSFERS),
        b"spare" => Some(layout::CHANNEL_SPARE),
        _ => None,
    }
}
