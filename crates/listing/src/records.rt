// The records of a day file, one after the other.
ghost use Rattle.std.specs.Prelude.{◌≡◌, ◌≤◌, length};

use crate::stop::{Stop, StopFault};
use dayfile::reader::next;
use dayfile::record::Record;

/// The records that are still to come: they are the last bytes of a file of so many bytes.
#[derive(Clone, Copy)]
pub(crate) struct Records<'a> {
    pub(crate) total: usize,
    pub(crate) rest: &'a [u8],
    ghost within: { length rest.now ≤ total },
}

impl<'a> Records<'a> {
    ghost use Rattle.listing.specs.Records.{Came, offset_in};
    ghost use Rattle.listing.specs.Stops.{stop_at};

    /// All records of a file.
    pub(crate) fn all(file: &'a [u8]) -> Records<'a>
        ensures total { result.total ≡ length file.now }
        ensures rest { result.rest.now ≡ file.now }
    {
        Records {
            total: file.len(),
            rest: file,
        }
    }

    /// Where the next record stands in the file.
    pub(crate) fn offset(&self) -> usize
        ensures { result ≡ offset_in self.now }
    {
        self.total - self.rest.len()
    }

    /// A listing that stops at the next record.
    pub(crate) fn stop(&self, fault: StopFault) -> Stop
        ensures { result ≡ stop_at fault (offset_in self.now) }
    {
        Stop {
            fault,
            offset: self.offset(),
        }
    }

    /// The next record and those after it, if there is one.
    // In line: what it answers, through memory, took a reader half its time.
    #[inline(always)]
    pub(crate) fn next(&self) -> Result<Option<(Record, Records<'a>)>, Stop>
        ensures { Came self.now result }
    {
        if self.rest.is_empty() {
            return Ok(None);
        }
        let total = self.total;
        let offset = self.offset();
        let (record, rest) = next(self.rest).map_err(|fault| Stop {
            fault: StopFault::Unreadable(fault),
            offset,
        })?;
        Ok(Some((record, Records { total, rest })))
    }
}
