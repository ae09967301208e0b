// The list that a listing is written into.
ghost use Rattle.std.specs.Prelude.{◌≡◌};
ghost use Rattle.listing.specs.Turns.{Told};

use crate::stop::StopFault;
use lines::line::TextLine;
use lines::writer::put_line;

/// The list that a listing is written to the front of, and how many bytes of it are written.
#[derive(Drop)]
pub(crate) struct Page<'a> {
    pub(crate) out: &'a mut [u8],
    pub(crate) at: usize,
}

impl Page<'_> {
    // `same`, here and above: the list stays the one that was lent. It is a fact of two states, which no type can hold.
    /// Writes the line, if there is one.
    pub(crate) fn tell(&mut self, line: Option<TextLine>) -> Result<(), StopFault>
        ensures same { self.new.out.ghost_name ≡ self.old.out.ghost_name }
        ensures told { Told line self.old self.new result }
    {
        if let Some(line) = line {
            self.at = put_line(self.out, self.at, line)?;
        }
        Ok(())
    }
}
