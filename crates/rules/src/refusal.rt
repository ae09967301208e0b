ghost use Rattle.std.specs.Prelude.{◌≡◌};
ghost use Rattle.rules.specs.Refusals.{code_of, named_by};

/// Why a call on the engine is refused.
#[derive(Clone, Copy, PartialEq, Eq, Debug)]
pub enum Refusal {
    /// The first slot is too late.
    FirstSlot,
    /// The deadline is 0 or above the period, or the period is too long.
    Terms,
    /// There is no booking number left.
    Numbers,
    /// The table is full.
    TableFull,
    /// The query of this number would not keep its deadline; the first in rank.
    Deadline(u32),
    /// No booked query has the number.
    NotBooked,
    /// No ready or waiting query has the number.
    NotOpen,
    /// The period since the last release is not over.
    TooEarly,
    /// A round of the query waits.
    RoundWaits,
    /// The last slot is reached.
    LastSlot,
    /// The list is shorter than the lines of a slot can be.
    ShortList,
    /// No query in the table has the number.
    NotInTable,
}

impl Refusal {
    /// The number that the refusal is reported by.
    pub fn code(self) -> u8
        ensures { result ≡ code_of self }
    {
        match self {
            Refusal::FirstSlot => 10,
            Refusal::Terms => 20,
            Refusal::Numbers => 21,
            Refusal::TableFull => 22,
            Refusal::Deadline(_) => 23,
            Refusal::NotBooked => 24,
            Refusal::NotOpen => 25,
            Refusal::TooEarly => 26,
            Refusal::RoundWaits => 27,
            Refusal::LastSlot => 28,
            Refusal::ShortList => 29,
            Refusal::NotInTable => 30,
        }
    }

    /// The number of the query that the refusal names, where it names one.
    pub fn named(self) -> Option<u32>
        ensures { result ≡ named_by self }
    {
        match self {
            Refusal::Deadline(number) => Some(number),
            _ => None,
        }
    }
}
