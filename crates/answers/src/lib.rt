// What a call answers, or why it is refused: the number returned and the answer words (docs/NUMBERS.md).
#![tactic(auto)]

ghost use Rattle.std.specs.Prelude.{◌≡◌, T, IfOk, ltb, if◌then◌else◌};
ghost use Rattle.rules.specs.Numbers.{reply, refusal_number, number_of, written, lends, well_lent};
ghost use Rattle.answers.specs.Said.{answered, because, said, told};

// What set-up returns where it has built a table.
pub const BUILT: u32 = 0;

// How many words are lent for the answer.
pub const ANSWER_SIZE: usize = 3;

// What an accepted call of a core answers: processes, channels and values.
#[derive(Clone, Copy, Debug, PartialEq, Eq)]
pub enum Answer {
    Taken(u32, u32),
    Moved,
    Slept(u32),
    Idle,
    Go(u32),
    Sent(u32, u32),
    Got(u32, u32, u32),
    Chose(u32, u32),
}

// Why a call is refused; each has its number.
#[derive(Clone, Copy, Debug, PartialEq, Eq)]
pub enum Refusal {
    Size = 20,
    Pairs = 21,
    Room = 22,
    Name = 23,
    SameProcess = 24,
    Answer = 25,
    Damaged = 26,
    Core = 27,
    Busy = 28,
    Awaited = 29,
    Guards = 30,
    Channel = 31,
    OtherEnd = 32,
    Twice = 33,
    Fault = 34,
}

pub type Reply = Result<Answer, Refusal>;

impl Answer {
    // The number returned. (Two methods, this and `words`, and no `From`: neither is the whole of an answer.)
    pub fn number(self) -> u32
        ensures { result ≡ (reply (answered self)).number }
    {
        match self {
            Answer::Taken(_, _) => 1,
            Answer::Moved => 2,
            Answer::Slept(_) => 3,
            Answer::Idle => 4,
            Answer::Go(_) => 5,
            Answer::Sent(_, _) => 6,
            Answer::Got(_, _, _) => 7,
            Answer::Chose(_, _) => 8,
        }
    }

    // The answer words: process, channel, value; one that doesn't apply is 0.
    pub fn words(self) -> [u32; ANSWER_SIZE]
        ensures { lends result ≡ written (answered self) }
    {
        match self {
            Answer::Taken(p, c) => [p, c, 0],
            Answer::Moved => [0, 0, 0],
            Answer::Slept(p) => [p, 0, 0],
            Answer::Idle => [0, 0, 0],
            Answer::Go(p) => [p, 0, 0],
            Answer::Sent(p, c) => [p, c, 0],
            Answer::Got(p, c, v) => [p, c, v],
            Answer::Chose(p, c) => [p, c, 0],
        }
    }
}

impl From<Refusal> for u32 {
    ghost from_gives = { λ why n. n ≡ refusal_number (because why) };

    fn from(why: Refusal) -> u32 {
        why as u32
    }
}

// The number that a call returns. (A function: a reply is a Result, for which no `From` can be written here.)
pub fn number(r: Reply) -> u32
    ensures { result ≡ number_of (said r) }
{
    match r {
        Ok(answer) => answer.number(),
        Err(why) => u32::from(why),
    }
}

// What is lent for the answer is as long as it must be.
pub fn lent_well(answer: &[u32]) -> bool
    ensures { result ≡ well_lent (lends answer.now) }
{
    answer.len() == ANSWER_SIZE
}

// The words are written where the number is of an accepted call, below 20; a refusal writes nothing. (Any number and words: what no call
// says can be told too.)
pub fn tell(answer: &mut [u32], number: u32, words: [u32; ANSWER_SIZE])
    requires { T (well_lent (lends answer.old)) }
    ensures { lends answer.new ≡ (if ltb number 20 then lends words else lends answer.old) }
{
    if number < 20 {
        answer.copy_from_slice(&words);
    }
}

// An accepted call's words are written; a refused one writes nothing.
pub fn tell_reply(answer: &mut [u32], r: Reply)
    requires { IfOk r (λ _. T (well_lent (lends answer.old))) }
    ensures { lends answer.new ≡ told (said r) (lends answer.old) }
{
    if let Ok(given) = r {
        tell(answer, given.number(), given.words());
    }
}
