use crate::ending::Stop;
use std::alloc::{AllocError, AllocFailed};

/// Why a site has no plan.
#[derive(Clone, Copy)]
pub enum SiteFault {
    LinkCount,
    BadLink,
    RepeatedChild,
    LostChild,
    NodeCount,
    OuterEdge,
}

impl SiteFault {
    fn code(self) -> u8 {
        match self {
            SiteFault::LinkCount => 1,
            SiteFault::BadLink => 2,
            SiteFault::RepeatedChild => 3,
            SiteFault::LostChild => 4,
            SiteFault::NodeCount => 11,
            SiteFault::OuterEdge => 12,
        }
    }
}

/// Why a file is not listed to its end.
#[derive(Clone, Copy)]
pub enum Fault {
    UnknownKind,
    CutShort,
    Order,
    NoRoom,
    Unplanned(SiteFault),
    TooLong,
}

impl Fault {
    fn code(self) -> u8 {
        match self {
            Fault::UnknownKind => 31,
            Fault::CutShort => 32,
            Fault::Order => 33,
            Fault::NoRoom => 34,
            Fault::Unplanned(_) => 35,
            Fault::TooLong => 36,
        }
    }

    /// The listing that stops for this at the offset.
    pub fn at(self, offset: usize) -> Stop {
        Stop {
            refusal: self.code(),
            offset,
            inner: match self {
                Fault::Unplanned(fault) => Some(fault.code()),
                _ => None,
            },
        }
    }
}

/// Why the naive scheduler does not go on.
#[derive(Clone, Copy)]
pub enum Halt {
    Memory,
    /// The fault of the record at the offset.
    Stopped(Fault, usize),
}

impl From<AllocError> for Halt {
    fn from(_: AllocError) -> Halt {
        Halt::Memory
    }
}

impl<T: Drop> From<AllocFailed<T>> for Halt {
    fn from(_: AllocFailed<T>) -> Halt {
        Halt::Memory
    }
}
