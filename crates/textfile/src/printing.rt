// A day file as a text.
ghost use Rattle.std.specs.Prelude.{◌≡◌, IfOk, Ok};
ghost use Rattle.textfile.specs.Printing.{Prints};
ghost use Rattle.textfile.specs.Texts.{packed_of};

use crate::fault::FileFault;
use dayfile::reader::next;
use daytext::printer::{LINE_BYTES, print_at_end};
use std::alloc::Global;

/// The text of a day file, a line for each record, or the first place where no record begins. The text packs to the
/// file.
pub fn print_file(heap: Global, file: &[u8]) -> Result<Vec<u8>, FileFault>
    ensures text { Prints file.now result }
    ensures packs_back { IfOk result (λ t. packed_of t.items ≡ Ok file.now) }
{
    let mut text = Vec::new(heap);
    let mut line = [0; LINE_BYTES];
    let mut rest = file;
    // Not an iterator over records: it would have to hand out the offset of each too, and is no plainer.
    while !rest.is_empty() {
        let offset = file.len() - rest.len();
        let (record, after) = next(rest).map_err(|fault| FileFault::Unreadable(offset, fault))?;
        let start = print_at_end(record, &mut line);
        text.extend_from_slice(&line[start..])?;
        text.extend_from_slice(b"\n")?;
        rest = after;
    }
    Ok(text)
}
