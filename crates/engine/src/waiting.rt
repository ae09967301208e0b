ghost use Rattle.std.specs.Prelude.{◌≡◌};
ghost use Rattle.engine.specs.Entries.{entry_of, sooner};
ghost use Rattle.std.proofs.Common.{rules};

use queue::Rank;
use rules::row::Row;

/// A round that waits for its start: the priority and the number of its query. Smaller priority first, then smaller number.
#[derive(Clone, Copy, PartialEq, Eq, PartialOrd, Ord, Debug, Default)]
pub(crate) struct Waiting {
    pub(crate) priority: u8,
    pub(crate) number: u32,
}

impl Rank for Waiting {
    ghost before = { sooner };

    ghost order = { Prim.search rules };

    fn precedes(&self, other: &Waiting) -> bool {
        self < other
    }
}

impl Waiting {
    /// A round of the query of a row.
    pub(crate) fn of(row: &Row) -> Waiting
        ensures { result ≡ entry_of row.now }
    {
        Waiting {
            priority: row.priority,
            number: row.number,
        }
    }
}
