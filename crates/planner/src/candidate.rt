ghost use Rattle.planner.specs.Planner.{deeper};
ghost use Rattle.std.proofs.Common.{rules};

use queue::Rank;
use std::cmp::Reverse;

/// A node that may transmit in the step that is being filled: the deepest goes first, then the smallest number.
#[derive(Clone, Copy, Default, PartialEq, Eq, PartialOrd, Ord, Debug)]
pub struct Candidate {
    pub depth: Reverse<u8>,
    pub node: u8,
}

impl Rank for Candidate {
    ghost before = { deeper };

    ghost order = { Prim.search rules };

    fn precedes(&self, other: &Candidate) -> bool {
        self < other
    }
}
