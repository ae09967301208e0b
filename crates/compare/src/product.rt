// All that is asked of the product, turned into the types of this crate.
use crate::ending::Stop;
use listing::listing::{list, stop_line};

/// The lists that the product writes into.
#[derive(Drop)]
pub struct Lists<'a> {
    pub lines: &'a mut [u8],
    pub stop_line: &'a mut [u8],
    /// For the STOP line once more, and mostly too short for it.
    pub short_stop_line: &'a mut [u8],
}

/// What the product answers. The length of a STOP line is missing where its list was too short or nothing stopped.
#[derive(Clone, Copy)]
pub struct Answer {
    pub length: usize,
    pub stop: Option<Stop>,
    pub stop_line: Option<usize>,
    pub short_stop_line: Option<usize>,
}

/// Lists a file by the product, and its STOP line into both lists if it stopped.
pub fn ask_product(file: &[u8], lists: Lists<'_>) -> Answer {
    let listed = list(file, lists.lines);
    let Some(stop) = listed.stop else {
        return Answer {
            length: listed.length,
            stop: None,
            stop_line: None,
            short_stop_line: None,
        };
    };
    Answer {
        length: listed.length,
        stop: Some(Stop {
            refusal: stop.fault.code(),
            offset: stop.offset,
            inner: stop.fault.inner(),
        }),
        stop_line: stop_line(stop, lists.stop_line).ok(),
        short_stop_line: stop_line(stop, lists.short_stop_line).ok(),
    }
}
