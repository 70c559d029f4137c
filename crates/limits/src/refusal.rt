// Why a call is refused.
ghost use Rattle.std.specs.Prelude.{◌≡◌, Some};
ghost use Rattle.limits.specs.Refusals.{refusal_number, refusal_text};

use std::fmt;

#[derive(Clone, Copy, PartialEq, Eq, Debug)]
pub enum Refusal {
    // a port count outside its limit, or a port not below it
    Port,
    // a cost of too large a size
    Cost,
    // too many hours
    Hours,
    // a leg entered under a number in use
    NumberTaken,
    // a leg number that cannot be used here
    Number,
    // a table, grid or buffer of a wrong length
    Length,
    // an entry of the chart breaks a limit
    EntryOver,
    // a round takes no hours
    IdleRound,
    // the chart has no round
    NoRound,
    // a line that is not of the sheet's form
    Malformed,
    // no round stands
    NothingStands,
}

impl Refusal {
    // The number by which a refusal is told. No call answers with it.
    pub fn number(self) -> u8
        ensures { result ≡ refusal_number self }
    {
        match self {
            Refusal::Port => 1,
            Refusal::Cost => 2,
            Refusal::Hours => 3,
            Refusal::NumberTaken => 4,
            Refusal::Number => 5,
            Refusal::Length => 6,
            Refusal::EntryOver => 7,
            Refusal::IdleRound => 8,
            Refusal::NoRound => 9,
            Refusal::Malformed => 10,
            Refusal::NothingStands => 11,
        }
    }
}

// As a call's refusal is told.
impl fmt::Display for Refusal {
    ghost output = { λ r. Some (refusal_text r) };

    fn fmt<W: fmt::Write>(&self, f: &mut fmt::Formatter<W>) -> fmt::Result {
        write!(f, "refused, {}", self.number())
    }
}
