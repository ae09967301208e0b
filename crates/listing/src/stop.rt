ghost use Rattle.std.specs.Prelude.{◌≡◌};
ghost use Rattle.listing.specs.Stops.{code_of, inner_in, inner_of, position_in, position_of};
ghost use Rattle.listing.specs.declared.stop.SiteFault.TheVariants.{Graph, Routing};
ghost use Rattle.listing.specs.declared.stop.StopFault.TheVariants.{NoRoom};

use dayfile::record::ReadFault;
use interference::fault::ModelFault;
use lines::writer::Full;
use routing::fault::TreeFault;

/// Why a site has no plan: its graph or its routing tree is refused. What the planner makes of a sound tree is always
/// approved, so there is no third case.
#[derive(Clone, Copy, PartialEq, Eq, Debug)]
pub enum SiteFault {
    Graph(ModelFault),
    Routing(TreeFault),
}

/// Why a listing stops before the end of its file.
#[derive(Clone, Copy, PartialEq, Eq, Debug)]
pub enum StopFault {
    /// The file has more bytes than a day file may have.
    TooLong,
    /// The record cannot be read.
    Unreadable(ReadFault),
    /// The record comes in the wrong order, or there is no nodes record.
    Order,
    /// The next line does not fit into the list.
    NoRoom,
    /// The site has no plan.
    Unplanned(SiteFault),
}

/// Where a listing stopped, and why. The offset counts bytes of the file.
#[derive(Clone, Copy, PartialEq, Eq, Debug)]
pub struct Stop {
    pub fault: StopFault,
    pub offset: usize,
}

impl SiteFault {
    /// The number that the refusal is reported by.
    pub fn code(self) -> u8
        ensures { result ≡ inner_of self }
    {
        match self {
            SiteFault::Graph(fault) => fault.code(),
            SiteFault::Routing(fault) => fault.code(),
        }
    }

    // `code` and `position` hand on to the fault inside, each to the method of its name: a closure would say no more.
    /// The position of the first offender, an edge or a tree record, where the refusal has one.
    pub fn position(self) -> Option<usize>
        ensures { result ≡ position_of self }
    {
        match self {
            SiteFault::Graph(fault) => fault.position(),
            SiteFault::Routing(fault) => fault.position(),
        }
    }
}

impl StopFault {
    /// The number that the refusal is reported by.
    pub fn code(self) -> u8
        ensures { result ≡ code_of self }
    {
        match self {
            StopFault::TooLong => 36,
            StopFault::Unreadable(fault) => fault.code(),
            StopFault::Order => 33,
            StopFault::NoRoom => 34,
            StopFault::Unplanned(_) => 35,
        }
    }

    /// The number of the site's refusal, where the listing stops for that.
    pub fn inner(self) -> Option<u8>
        ensures { result ≡ inner_in self }
    {
        match self {
            StopFault::Unplanned(fault) => Some(fault.code()),
            _ => None,
        }
    }

    /// The position of the site's refusal, where the listing stops for that and it has one.
    pub fn position(self) -> Option<usize>
        ensures { result ≡ position_in self }
    {
        match self {
            StopFault::Unplanned(fault) => fault.position(),
            _ => None,
        }
    }
}

impl From<Full> for StopFault {
    ghost from_gives = { λ f r. r ≡ NoRoom };

    fn from(_: Full) -> StopFault {
        Self::NoRoom
    }
}

impl From<ModelFault> for SiteFault {
    ghost from_gives = { λ f r. r ≡ Graph f };

    fn from(f: ModelFault) -> SiteFault {
        SiteFault::Graph(f)
    }
}

impl From<TreeFault> for SiteFault {
    ghost from_gives = { λ f r. r ≡ Routing f };

    fn from(f: TreeFault) -> SiteFault {
        SiteFault::Routing(f)
    }
}
