// What a process has in hand, and the numbers that it goes by (crates/rules/specs/Layout.antt).
ghost use Rattle.std.specs.Prelude.{◌≡◌};
ghost use Rattle.layout.specs.Numbers.{outcome_number, number_of, NumbersOutcome, Numbers};

// The end of a channel that a request is made at: a sender's is the writer's, a receiver's the reader's.
#[derive(Clone, Copy, Debug, PartialEq, Eq)]
pub enum Way {
    Sending,
    Receiving,
}

// A stage of send or of receive; the numbers are those of send, and those of receive stand in the same order.
#[derive(Clone, Copy, Debug, PartialEq, Eq)]
pub enum Exchange {
    Look = 1,
    Park = 2,
    Copy = 3,
    Clear = 4,
    Wake = 5,
}

// A stage of choose.
#[derive(Clone, Copy, Debug, PartialEq, Eq)]
pub enum Choice {
    EnableLook = 11,
    Raise = 12,
    PlaceName = 13,
    ReadyFromLook = 14,
    ReadyFromPlace = 15,
    Wait = 16,
    Disable = 17,
    Lower = 18,
    Finish = 19,
}

// An outcome to report when next taken.
#[derive(Clone, Copy, Debug, PartialEq, Eq)]
pub enum Outcome {
    Go = 20,
    Sent = 21,
    Got = 22,
    Chose = 23,
}

// Nothing in hand, the stage of a request, or an outcome due.
#[derive(Clone, Copy, Debug, PartialEq, Eq)]
pub enum Progress {
    Nothing,
    Exchanging(Way, Exchange),
    Choosing(Choice),
    Due(Outcome),
}

// A number that no progress, or no outcome, goes by.
#[derive(Clone, Copy, Debug, PartialEq, Eq)]
pub struct NoProgress;

impl From<Outcome> for u32 {
    ghost from_gives = { λ outcome n. n ≡ outcome_number outcome };

    fn from(outcome: Outcome) -> u32 {
        outcome as u32
    }
}

impl From<Progress> for u32 {
    ghost from_gives = { λ progress n. n ≡ number_of progress };

    fn from(progress: Progress) -> u32 {
        match progress {
            Progress::Nothing => 0,
            Progress::Exchanging(Way::Sending, stage) => stage as u32,
            Progress::Exchanging(Way::Receiving, stage) => stage as u32 + 5,
            Progress::Choosing(stage) => stage as u32,
            Progress::Due(outcome) => u32::from(outcome),
        }
    }
}

impl TryFrom<u32> for Outcome {
    type Error = NoProgress;

    ghost try_from_gives = { NumbersOutcome };

    fn try_from(number: u32) -> Result<Self, NoProgress> {
        match number {
            20 => Ok(Outcome::Go),
            21 => Ok(Outcome::Sent),
            22 => Ok(Outcome::Got),
            23 => Ok(Outcome::Chose),
            _ => Err(NoProgress),
        }
    }
}

impl TryFrom<u32> for Progress {
    type Error = NoProgress;

    ghost try_from_gives = { Numbers };

    fn try_from(number: u32) -> Result<Self, NoProgress> {
        match number {
            0 => Ok(Progress::Nothing),
            1 => Ok(Progress::Exchanging(Way::Sending, Exchange::Look)),
            2 => Ok(Progress::Exchanging(Way::Sending, Exchange::Park)),
            3 => Ok(Progress::Exchanging(Way::Sending, Exchange::Copy)),
            4 => Ok(Progress::Exchanging(Way::Sending, Exchange::Clear)),
            5 => Ok(Progress::Exchanging(Way::Sending, Exchange::Wake)),
            6 => Ok(Progress::Exchanging(Way::Receiving, Exchange::Look)),
            7 => Ok(Progress::Exchanging(Way::Receiving, Exchange::Park)),
            8 => Ok(Progress::Exchanging(Way::Receiving, Exchange::Copy)),
            9 => Ok(Progress::Exchanging(Way::Receiving, Exchange::Clear)),
            10 => Ok(Progress::Exchanging(Way::Receiving, Exchange::Wake)),
            11 => Ok(Progress::Choosing(Choice::EnableLook)),
            12 => Ok(Progress::Choosing(Choice::Raise)),
            13 => Ok(Progress::Choosing(Choice::PlaceName)),
            14 => Ok(Progress::Choosing(Choice::ReadyFromLook)),
            15 => Ok(Progress::Choosing(Choice::ReadyFromPlace)),
            16 => Ok(Progress::Choosing(Choice::Wait)),
            17 => Ok(Progress::Choosing(Choice::Disable)),
            18 => Ok(Progress::Choosing(Choice::Lower)),
            19 => Ok(Progress::Choosing(Choice::Finish)),
            _ => Ok(Progress::Due(Outcome::try_from(number)?)),
        }
    }
}
