use crate::naive::fault::Fault;
use dayfile::record::Record;

/// A record, and how many bytes it has.
#[derive(Clone, Copy)]
pub struct Reading {
    pub record: Record,
    pub size: usize,
}

/// The record at the front of the bytes.
pub fn read(bytes: &[u8]) -> Result<Reading, Fault> {
    let (record, size) = match bytes {
        [1, count, ..] => (Record::Nodes { count: *count }, 2),
        [2, from, to, ..] => (
            Record::Edge {
                from: *from,
                to: *to,
            },
            3,
        ),
        [3, child, parent, slots, ..] => {
            let link = Record::Tree {
                child: *child,
                parent: *parent,
                slots: *slots,
            };
            (link, 4)
        }
        [4, priority, p, q, d, e, ..] => {
            let query = Record::Query {
                priority: *priority,
                period: u16::from_le_bytes([*p, *q]),
                deadline: u16::from_le_bytes([*d, *e]),
            };
            (query, 6)
        }
        [5, a, b, c, d, ..] => (
            Record::Release {
                number: u32::from_le_bytes([*a, *b, *c, *d]),
            },
            5,
        ),
        [6, a, b, c, d, ..] => (
            Record::Close {
                number: u32::from_le_bytes([*a, *b, *c, *d]),
            },
            5,
        ),
        [7, a, b, ..] => (
            Record::Run {
                slots: u16::from_le_bytes([*a, *b]),
            },
            3,
        ),
        [] | [1..=7, ..] => return Err(Fault::CutShort),
        _ => return Err(Fault::UnknownKind),
    };
    Ok(Reading { record, size })
}
