use crate::comparison::Comparison;
use crate::drawn::file::DayFile;
use std::alloc::{AllocError, Global};

/// A record to a row: a chain of two links, two queries (the first with its period for a deadline), and a release that
/// comes too early.
const FILE: &'static [u8; 43] = b"\
    \x01\x03\
    \x03\x02\x01\x01\
    \x03\x01\x00\x01\
    \x04\x05\x0a\x00\x00\x00\
    \x04\x03\x08\x00\x06\x00\
    \x05\x01\x00\x00\x00\
    \x07\x01\x00\
    \x05\x02\x00\x00\x00\
    \x05\x01\x00\x00\x00\
    \x07\x03\x00";

const LINES: &'static str = "PLAN 2 2\nQUERY 1 1\nQUERY 2 1\nSTART 0 1\nNO 26 35\nSTART 2 2\n";

/// Whether both schedulers list the example as it was worked out by hand.
pub fn example_holds(heap: Global) -> Result<bool, AllocError> {
    let file = DayFile {
        bytes: Vec::from_slice(heap, FILE)?,
        room: LINES.len(),
        stop_room: 0,
    };
    let comparison = Comparison::run(heap, &file)?;
    Ok(
        comparison.agrees()
            && comparison.naive.text.as_slice() == LINES.as_bytes()
            && comparison.naive.stop.is_none(),
    )
}
