// The refusals: why something is refused, the table's number for it, and the place that goes with it.
#![tactic(auto)]

ghost use Rattle.std.specs.Prelude.{◌≡◌};
ghost use Rattle.refusals.specs.Refusal.{number_of, refusal};

// Why a record, a month or a year is refused, by the table's numbers. A sum that is too large is defined and looked for, but no book reaches it.
#[derive(Clone, Copy, Debug, PartialEq, Eq)]
pub enum Reason {
    NotSixteenBytes = 1,
    UnknownMark = 2,
    NotZero = 3,
    OutOfRange = 4,
    AlreadyFilled = 5,
    OverShared = 7,
    Lacking = 8,
    NoSuchYear = 9,
    NoMonth = 10,
    BadHour = 11,
    SumTooLarge = 12,
}

impl Reason {
    // The table's number.
    pub fn number(self) -> u8
        ensures { result ≡ number_of self }
    {
        self as u8
    }

    // The refusal for this reason at a place.
    pub fn at(self, place: usize) -> Refusal
        ensures { result ≡ refusal self place }
    {
        Refusal {
            place,
            reason: self,
        }
    }
}

// What is given where something is refused.
#[derive(Clone, Copy, Debug, PartialEq, Eq)]
pub struct Refusal {
    pub place: usize,
    pub reason: Reason,
}
