ghost use Rattle.std.specs.Prelude.{◌≡◌};
ghost use Rattle.interference.specs.Faults.{code_of, place_of};

/// Why an interference model is refused. A position counts words, edges or records from 0.
#[derive(Clone, Copy, PartialEq, Eq, Debug)]
pub enum ModelFault {
    /// The number of nodes is not from 1 to 64.
    NodeCount,
    /// The first word or edge that names a node at or above the number of nodes.
    EdgeOutside(usize),
    /// The side of a cell is not from 1 to 100,000 centimetres.
    Side,
    /// The first record with a coordinate beyond a million centimetres.
    Coordinate(usize),
}

impl ModelFault {
    /// The number that the refusal is reported by.
    pub fn code(self) -> u8
        ensures { result ≡ code_of self }
    {
        match self {
            ModelFault::NodeCount => 11,
            ModelFault::EdgeOutside(_) => 12,
            ModelFault::Side => 13,
            ModelFault::Coordinate(_) => 14,
        }
    }

    /// The position of the first offender, where the refusal has one.
    pub fn position(self) -> Option<usize>
        ensures { result ≡ place_of self }
    {
        match self {
            ModelFault::NodeCount => None,
            ModelFault::EdgeOutside(at) => Some(at),
            ModelFault::Side => None,
            ModelFault::Coordinate(at) => Some(at),
        }
    }
}
