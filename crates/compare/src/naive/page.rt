use crate::ending::Stop;
use crate::naive::fault::{Fault, Halt};
use std::alloc::{AllocError, Global};

/// The lines so far, and how many bytes they may have together.
#[derive(Drop)]
pub struct Page {
    pub text: Vec<u8>,
    room: usize,
}

impl Page {
    pub fn new(heap: Global, room: usize) -> Page {
        Page {
            text: Vec::new(heap),
            room,
        }
    }

    /// Writes a line of the record at this offset, whole or not at all.
    pub fn write(&mut self, offset: usize, line: &str) -> Result<(), Halt> {
        if self.text.len().saturating_add(line.len()) > self.room {
            return Err(Halt::Stopped(Fault::NoRoom, offset));
        }
        self.text.extend_from_slice(line.as_bytes())?;
        Ok(())
    }
}

/// The STOP line.
pub fn stop_text(heap: Global, stop: Stop) -> Result<String, AllocError> {
    let refusal = stop.refusal;
    let offset = stop.offset;
    match stop.inner {
        Some(inner) => format!(in heap; "STOP {refusal} {offset} {inner}\n"),
        None => format!(in heap; "STOP {refusal} {offset}\n"),
    }
}
