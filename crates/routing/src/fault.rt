ghost use Rattle.std.specs.Prelude.{◌≡◌};
ghost use Rattle.routing.specs.Faults.{code_of, place_of};

/// Why a routing tree is refused. A position counts records from 0 and names the first offender.
#[derive(Clone, Copy, PartialEq, Eq, Debug)]
pub enum TreeFault {
    /// There is not exactly one record for each node but the base station.
    Count,
    /// A node or the slots are out of range, or the child is the base station or its own parent.
    OutOfRange(usize),
    /// The child has an earlier record.
    Repeated(usize),
    /// The child has no way to the base station.
    Unrooted(usize),
}

impl TreeFault {
    /// The number that the refusal is reported by.
    pub fn code(self) -> u8
        ensures { result ≡ code_of self }
    {
        match self {
            TreeFault::Count => 1,
            TreeFault::OutOfRange(_) => 2,
            TreeFault::Repeated(_) => 3,
            TreeFault::Unrooted(_) => 4,
        }
    }

    /// The position of the first offender, where the refusal has one.
    pub fn position(self) -> Option<usize>
        ensures { result ≡ place_of self }
    {
        match self {
            TreeFault::Count => None,
            TreeFault::OutOfRange(at) => Some(at),
            TreeFault::Repeated(at) => Some(at),
            TreeFault::Unrooted(at) => Some(at),
        }
    }
}
