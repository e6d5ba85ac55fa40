// What every call of the library answers with where it refuses.
#![tactic(auto)]

ghost use Rattle.std.specs.Prelude.{◌≡◌};
ghost use Rattle.verdict.specs.Rules.{broken};
ghost use Rattle.verdict.specs.Answer.{verdict_of};

// The paper's number, and the offset or the quantity that is at fault.
#[derive(Clone, Copy, Debug, PartialEq, Eq)]
pub struct Refusal {
    pub number: u8,
    pub place: u64,
}

// A rule that doesn't hold, by its number and its place.
pub fn broken(number: u8, place: u64) -> Result<(), Refusal>
    ensures { verdict_of result ≡ broken number place }
{
    Err(Refusal { number, place })
}
