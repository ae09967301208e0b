// A record as the bytes of a day file.
ghost use Rattle.std.specs.Prelude.{◌≡◌, ◌≤◌, ◌∷◌, length};
ghost use Rattle.daytext.specs.Bytes.{bytes_of};
ghost use Rattle.daytext.specs.RoundTrip.{ReadsBack};

use arrayvec::ArrayVec;
use dayfile::record::Record;

/// The most bytes that a record has.
pub const RECORD_BYTES: usize = 6;

// A kind byte and the body of a record.
fn encoded(kind: u8, body: &[u8]) -> ArrayVec<u8, RECORD_BYTES>
    requires { length body.now ≤ 5 }
    ensures { result.items ≡ kind ∷ body.now }
{
    let mut bytes = ArrayVec::new();
    bytes.push(kind);
    bytes.try_extend_from_slice(body).unwrap();
    bytes
}

/// The bytes of a record. The reader of day files gives the record back.
pub fn encode(record: Record) -> ArrayVec<u8, RECORD_BYTES>
    ensures bytes { result.items ≡ bytes_of «record» }
    ensures bound { length result.items ≤ 6 }
    ensures reads_back { ReadsBack «record» }
{
    match record {
        Record::Nodes { count } => encoded(1, &[count]),
        Record::Edge { from, to } => encoded(2, &[from, to]),
        Record::Tree {
            child,
            parent,
            slots,
        } => encoded(3, &[child, parent, slots]),
        Record::Query {
            priority,
            period,
            deadline,
        } => {
            let [a, b] = period.to_le_bytes();
            let [c, d] = deadline.to_le_bytes();
            encoded(4, &[priority, a, b, c, d])
        }
        Record::Release { number } => encoded(5, &number.to_le_bytes()),
        Record::Close { number } => encoded(6, &number.to_le_bytes()),
        Record::Run { slots } => encoded(7, &slots.to_le_bytes()),
    }
}
