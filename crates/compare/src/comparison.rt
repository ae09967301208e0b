use crate::drawn::file::DayFile;
use crate::ending::{Ending, Stop};
use crate::naive::lister::{Listed, list};
use crate::naive::page::stop_text;
use crate::product::{Answer, Lists, ask_product};
use std::alloc::{AllocError, Global};

/// Stands in the lists beforehand, and in no line, so that a byte written past a line is seen.
const MARKER: u8 = 0xaa;

/// Room for every STOP line.
const STOP_ROOM: usize = 40;

/// One file listed by both schedulers.
#[derive(Drop)]
pub struct Comparison {
    pub naive: Listed,
    /// The STOP line, empty where nothing stopped.
    pub stop: String,
    pub product: Answer,
    /// The first place of the product's list that is not as the naive scheduler has it.
    pub differs_at: Option<usize>,
    stop_lines_agree: bool,
}

/// The first place of a list that holds something else than this text and then markers.
fn first_difference(text: &[u8], list: &[u8]) -> Option<usize> {
    list.iter().enumerate().position(|(place, byte)| *byte
        != text.get(place).copied().unwrap_or(MARKER))
}

/// Whether a STOP line was written whole, or refused and not begun where it does not fit.
fn stop_line_agrees(text: &[u8], list: &[u8], written: Option<usize>) -> bool {
    if text.is_empty() || text.len() > list.len() {
        return written.is_none() && first_difference(&[], list).is_none();
    }
    written == Some(text.len()) && first_difference(text, list).is_none()
}

fn stop_text_of(heap: Global, stop: Option<Stop>) -> Result<String, AllocError> {
    match stop {
        None => Ok(String::new(heap)),
        Some(stop) => stop_text(heap, stop),
    }
}

impl Comparison {
    pub fn run(heap: Global, file: &DayFile) -> Result<Comparison, AllocError> {
        let naive = list(heap, file.bytes.as_slice(), file.room)?;
        let stop = stop_text_of(heap, naive.stop)?;
        let mut lines = vec![in heap; MARKER; file.room]?;
        let mut long = vec![in heap; MARKER; STOP_ROOM]?;
        let mut short = vec![in heap; MARKER; file.stop_room]?;
        let product = ask_product(
            file.bytes.as_slice(),
            Lists {
                lines: lines.as_mut_slice(),
                stop_line: long.as_mut_slice(),
                short_stop_line: short.as_mut_slice(),
            },
        );
        let differs_at = first_difference(naive.text.as_slice(), lines.as_slice());
        let stop_lines_agree = stop_line_agrees(stop.as_bytes(), long.as_slice(), product.stop_line)
            && stop_line_agrees(stop.as_bytes(), short.as_slice(), product.short_stop_line);
        Ok(Comparison {
            naive,
            stop,
            product,
            differs_at,
            stop_lines_agree,
        })
    }

    pub fn agrees(&self) -> bool {
        self.differs_at.is_none()
            && self.product.length == self.naive.text.len()
            && self.product.stop == self.naive.stop
            && self.stop_lines_agree
    }

    pub fn print(&self, rt: &HostRuntime, index: u32) -> Result<(), anyhow::Error> {
        let naive = Ending(self.naive.stop);
        let product = Ending(self.product.stop);
        let bytes = self.naive.text.len();
        let length = self.product.length;
        println!(rt;
            "file {index}: naive {naive}, {bytes} bytes; product {product}, {length} bytes"
        )?;
        match self.differs_at {
            Some(place) => println!(rt; "  first differing byte {place}")?,
            None => println!(rt; "  same bytes, STOP lines agree: {}", self.stop_lines_agree)?,
        }
        Ok(())
    }
}
