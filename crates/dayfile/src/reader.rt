// Checking and reading. `check` cuts the bytes of one record off the front; `read` turns them into numbers.
ghost use Rattle.std.specs.Prelude.{◌≡◌, ◌<◌, length, IfOk, Ok, Err, MatchResult};
ghost use Rattle.dayfile.specs.Layout.{kind_of, size_of, record_of, rest_of};
ghost use Rattle.dayfile.specs.Reading.{checked, next_of};
ghost use Rattle.dayfile.specs.Frames.{framed, bytes_in};

use crate::record::{ReadFault, Record};

// The bytes of one record after its kind byte, as many as the kind asks for. The type holds what `check`
// found out, so that `read` can refuse nothing.
#[derive(Clone, Copy)]
enum Frame {
    Nodes([u8; 1]),
    Edge([u8; 2]),
    Tree([u8; 3]),
    Query([u8; 5]),
    Release([u8; 4]),
    Close([u8; 4]),
    Run([u8; 2]),
}

/// Bytes that begin with a whole record of a known kind: the bytes of that record, and those after it.
#[derive(Clone, Copy)]
pub struct WholeRecord<'a>(Frame, &'a [u8]);

/// Refuses bytes that do not begin with a whole record of a known kind. An unknown kind is refused before a
/// missing end; no bytes at all are a record cut short.
pub fn check(bytes: &[u8]) -> Result<WholeRecord<'_>, ReadFault>
    ensures answer { MatchResult result (λ w. checked bytes.now ≡ Ok (bytes_in w)) (λ f. checked bytes.now ≡ Err f) }
    ensures same { IfOk result (λ w. bytes_in w ≡ bytes.now) }
{
    match bytes {
        [1, a, rest @ ..] => Ok(WholeRecord(Frame::Nodes([*a]), rest)),
        [2, a, b, rest @ ..] => Ok(WholeRecord(Frame::Edge([*a, *b]), rest)),
        [3, a, b, c, rest @ ..] => Ok(WholeRecord(Frame::Tree([*a, *b, *c]), rest)),
        [4, a, b, c, d, e, rest @ ..] => Ok(WholeRecord(Frame::Query([*a, *b, *c, *d, *e]), rest)),
        [5, a, b, c, d, rest @ ..] => Ok(WholeRecord(Frame::Release([*a, *b, *c, *d]), rest)),
        [6, a, b, c, d, rest @ ..] => Ok(WholeRecord(Frame::Close([*a, *b, *c, *d]), rest)),
        [7, a, b, rest @ ..] => Ok(WholeRecord(Frame::Run([*a, *b]), rest)),
        [] | [1..=7, ..] => Err(ReadFault::CutShort),
        _ => Err(ReadFault::UnknownKind),
    }
}

impl Frame {
    // `some` and `size` tell `read` that the bytes after the frame are those after the record.
    fn record(self) -> Record
        ensures value { result ≡ record_of (framed self) }
        ensures some { 0 < length (framed self) }
        ensures size { length (framed self) ≡ size_of (kind_of (framed self)) }
    {
        // Each body is taken apart by a `let`: the borrow checker covers no array within a variant's pattern.
        match self {
            Frame::Nodes(body) => {
                let [count] = body;
                Record::Nodes { count }
            }
            Frame::Edge(body) => {
                let [from, to] = body;
                Record::Edge { from, to }
            }
            Frame::Tree(body) => {
                let [child, parent, slots] = body;
                Record::Tree {
                    child,
                    parent,
                    slots,
                }
            }
            Frame::Query(body) => {
                let [priority, a, b, c, d] = body;
                Record::Query {
                    priority,
                    period: u16::from_le_bytes([a, b]),
                    deadline: u16::from_le_bytes([c, d]),
                }
            }
            Frame::Release(number) => Record::Release {
                number: u32::from_le_bytes(number),
            },
            Frame::Close(number) => Record::Close {
                number: u32::from_le_bytes(number),
            },
            Frame::Run(slots) => Record::Run {
                slots: u16::from_le_bytes(slots),
            },
        }
    }
}

impl<'a> WholeRecord<'a> {
    /// The record, and the bytes after it: fewer than there were, so a loop that reads on ends.
    pub fn read(self) -> (Record, &'a [u8])
        ensures first { result.0 ≡ record_of (bytes_in self.entry) }
        ensures rest { result.1.now ≡ rest_of (bytes_in self.entry) }
        ensures shorter { length result.1.now < length (bytes_in self.entry) }
    {
        let WholeRecord(frame, rest) = self;
        (frame.record(), rest)
    }
}

/// The record at the front and the bytes after it, or why there is none.
pub fn next(bytes: &[u8]) -> Result<(Record, &[u8]), ReadFault>
    ensures answer { MatchResult result (λ p. next_of bytes.now ≡ Ok (p.0, p.1.now)) (λ f. next_of bytes.now ≡ Err f) }
    ensures shorter { IfOk result (λ p. length p.1.now < length bytes.now) }
{
    Ok(check(bytes)?.read())
}
