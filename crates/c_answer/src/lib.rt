// What the calls of the C edge answer: numbers alone, by value.
#![tactic(auto)]

ghost use Rattle.std.specs.Prelude.{◌≡◌};
ghost use Rattle.verdict.specs.Rules.{given, refused};
ghost use Rattle.c_answer.specs.Answer.{answered, flag_of};

use verdict::Refusal;

// The number is 0 where the call was accepted, and the count is then what the call says; on a refusal it is 0.
#[repr(C)]
#[derive(Clone, Copy)]
pub struct Answer {
    pub number: u64,
    pub place: u64,
    pub count: u64,
}

pub fn accepted(count: u64) -> Answer
    ensures { result ≡ answered (given count) }
{
    Answer {
        number: 0,
        place: 0,
        count,
    }
}

pub fn refuse(number: u8, place: u64) -> Answer
    ensures { result ≡ answered (refused number place) }
{
    Answer {
        number: u64::from(number),
        place,
        count: 0,
    }
}

impl From<Refusal> for Answer {
    ghost from_gives = { λ w a. a ≡ answered (refused w.number w.place) };

    fn from(w: Refusal) -> Answer {
        refuse(w.number, w.place)
    }
}

pub fn refused(w: Refusal) -> Answer
    ensures { result ≡ answered (refused w.number w.place) }
{
    Answer::from(w)
}

// 1 for what is so, else 0.
pub fn flag(holds: bool) -> u64
    ensures { result ≡ flag_of holds }
{
    u64::from(holds)
}
