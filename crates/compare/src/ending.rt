// Where a listing stops, told in the same way of both schedulers.
use std::fmt;

/// Why a listing stopped: the refusal, the offset of the record being read, and the inner number of refusal 35. Plain
/// numbers, since the two schedulers have no type of a refusal in common.
#[derive(Clone, Copy, PartialEq, Eq)]
pub struct Stop {
    pub refusal: u8,
    pub offset: usize,
    pub inner: Option<u8>,
}

/// How a listing ends, for the reader of the program's output.
#[derive(Clone, Copy)]
pub struct Ending(pub Option<Stop>);

impl fmt::Display for Ending {
    fn fmt<W: fmt::Write>(&self, f: &mut fmt::Formatter<W>) -> fmt::Result {
        let Some(stop) = self.0 else {
            return write!(f, "complete");
        };
        let refusal = stop.refusal;
        let offset = stop.offset;
        match stop.inner {
            Some(inner) => write!(f, "stopped by {refusal} at {offset}, inner {inner}"),
            None => write!(f, "stopped by {refusal} at {offset}"),
        }
    }
}
