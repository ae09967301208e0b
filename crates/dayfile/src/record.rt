// What a record says, and why there may be none.
ghost use Rattle.std.specs.Prelude.{◌≡◌, Some};
ghost use Rattle.dayfile.specs.Codes.{code_of, read_fault_shown};

use std::error::Error;
use std::fmt;

/// One record of a day file, its numbers as written: nothing is checked of them here.
#[derive(Clone, Copy, PartialEq, Eq, Debug)]
pub enum Record {
    /// The number of nodes of the site.
    Nodes {
        count: u8,
    },
    /// Of the interference survey: `to` hears `from`.
    Edge {
        from: u8,
        to: u8,
    },
    /// Of the routing tree: `child` transmits to `parent`, in this many slots.
    Tree {
        child: u8,
        parent: u8,
        slots: u8,
    },
    /// A query; a period or a deadline of 0 is kept as it stands.
    Query {
        priority: u8,
        period: u16,
        deadline: u16,
    },
    /// A release of the query of this number.
    Release {
        number: u32,
    },
    /// The query of this number is closed.
    Close {
        number: u32,
    },
    /// This many slots pass.
    Run {
        slots: u16,
    },
}

/// Why no record can be read.
#[derive(Clone, Copy, PartialEq, Eq, Debug)]
pub enum ReadFault {
    /// The kind byte is none of 1 to 7.
    UnknownKind,
    /// The bytes end before the record does.
    CutShort,
}

impl ReadFault {
    /// The refusal's number.
    pub fn code(self) -> u8
        ensures { result ≡ code_of self }
    {
        match self {
            ReadFault::UnknownKind => 31,
            ReadFault::CutShort => 32,
        }
    }
}

impl fmt::Display for ReadFault {
    ghost output = { λ x. Some (read_fault_shown x) };

    fn fmt<W: fmt::Write>(&self, f: &mut fmt::Formatter<W>) -> fmt::Result {
        f.write_str(match self {
            ReadFault::UnknownKind => "no record begins with this byte",
            ReadFault::CutShort => "the record is cut short",
        })
    }
}

impl Error for ReadFault {}
