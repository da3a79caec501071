// The layout of a table (docs/PACKING.md): the names and numbers of crates/rules/specs/Layout.antt, for the code.
#![tactic(auto)]

pub mod progress; // what a process has in hand

// How long the header is, and the records of a core, a process and a channel.
pub const HEADER_SIZE: usize = 8;

pub const CORE_STRIDE: usize = 16;

pub const PROCESS_STRIDE: usize = 24;

pub const CHANNEL_STRIDE: usize = 4;

// The header's words.
pub const HEADER_CORES: usize = 0;

pub const HEADER_PROCESSES: usize = 1;

pub const HEADER_CHANNELS: usize = 2;

pub const HEADER_SPARE: usize = 3;

// A core's words.
pub const CORE_RUNS: usize = 0;

pub const CORE_TASK: usize = 1;

pub const CORE_TASK_PROCESS: usize = 2;

pub const CORE_FIRST: usize = 3;

pub const CORE_LAST: usize = 4;

pub const CORE_SIZE: usize = 5;

pub const CORE_DISPATCH: usize = 6;

pub const CORE_MARK: usize = 7;

pub const CORE_FIRST_HEAD: usize = 8;

pub const CORE_LAST_HEAD: usize = 9;

pub const CORE_SPARE: usize = 10;

// A process's words, and how many of them are a progress, guards, links.
pub const PROCESS_PLACE: usize = 0;

pub const PROCESS_DATA: usize = 1;

pub const PROCESS_ENABLING: usize = 2;

pub const PROCESS_NOT_READY: usize = 3;

pub const PROCESS_WAITING: usize = 4;

pub const PROCESS_COUNT: usize = 5;

pub const PROCESS_PROGRESS: usize = 6;

pub const PROCESS_CHANNEL: usize = 7;

pub const PROCESS_PARTNER: usize = 8;

pub const PROCESS_GUARDS: usize = 9;

pub const PROCESS_INDEX: usize = 10;

pub const PROCESS_FIRST_READY: usize = 11;

pub const PROCESS_FIRST_GUARD: usize = 12;

pub const PROCESS_NEXT: usize = 20;

pub const PROCESS_LAST: usize = 21;

pub const PROCESS_SIZE: usize = 22;

pub const PROCESS_NEXT_HEAD: usize = 23;

pub const PROCESS_SPARE: usize = 24;

pub const PROGRESS_SIZE: usize = 14;

pub const GUARD_PLACES: usize = 8;

pub const LINKS_SIZE: usize = 4;

// A channel's words.
pub const CHANNEL_WRITER: usize = 0;

pub const CHANNEL_READER: usize = 1;

pub const CHANNEL_HOLDER: usize = 2;

pub const CHANNEL_TRANSFERS: usize = 3;

pub const CHANNEL_SPARE: usize = 4;

// Where a process is.
#[derive(Clone, Copy, Debug, PartialEq, Eq)]
pub enum Place {
    Running = 1,
    Queued = 2,
    Asleep = 3,
    Ended = 4,
}

// The kinds of kernel task.
#[derive(Clone, Copy, Debug, PartialEq, Eq)]
pub enum TaskKind {
    None = 0,
    Trigger = 1,
    Wake = 2,
}
