ghost use Rattle.std.specs.Prelude.{◌≡◌, length};
ghost use Rattle.lines.specs.Text.{bytes_of, lined, placed};

use crate::line::{LINE_BYTES, TextLine};

/// The line does not fit into what is left of the list.
#[derive(Clone, Copy, PartialEq, Eq, Debug)]
pub struct Full;

/// Writes the line from place `at` on, and answers the place after it. A line that does not fit is not begun.
// A list and how far it is filled, since C lends the list; `Page` of the listing carries the two.
pub fn put_line(out: &mut [u8], at: usize, line: TextLine) -> Result<usize, Full>
    ensures place { result ≡ placed (length out.old) at (bytes_of line) }
    ensures text { out.new ≡ lined out.old at (bytes_of line) }
{
    let mut text = [0; LINE_BYTES];
    let start = line.put(&mut text);
    let size = LINE_BYTES - start;
    if out.len().saturating_sub(at) < size {
        return Err(Full);
    }
    let end = at + size;
    out[at..end].copy_from_slice(&text[start..]);
    Ok(end)
}
