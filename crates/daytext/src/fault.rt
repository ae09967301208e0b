// What is wrong with a line.
ghost use Rattle.std.specs.Prelude.{◌≡◌, Some};
ghost use Rattle.daytext.specs.Messages.{message_of};

use std::error::Error;
use std::fmt;

/// Why a line of text has no meaning. The first fault from the left is the one that is named.
#[derive(Clone, Copy, PartialEq, Eq, Debug)]
pub enum LineFault {
    /// The line begins with a word that names no record.
    UnknownWord,
    /// The line ends where a number is expected.
    MissingNumber,
    /// A word that stands for a number has a character that is no decimal digit.
    NotANumber,
    /// A number does not fit its field.
    TooLarge,
    /// Words follow the record's last number.
    TooMuch,
}

impl LineFault {
    /// The fault in words, for the writer of the line.
    // Beside `Display`: it cannot fail, as a formatted write can.
    pub fn message(self) -> &'static str
        ensures { result.now ≡ message_of self }
    {
        match self {
            LineFault::UnknownWord => "unknown word",
            LineFault::MissingNumber => "missing number",
            LineFault::NotANumber => "not a number",
            LineFault::TooLarge => "number too large",
            LineFault::TooMuch => "too much on the line",
        }
    }
}

impl fmt::Display for LineFault {
    ghost output = { λ x. Some (message_of x) };

    fn fmt<W: fmt::Write>(&self, f: &mut fmt::Formatter<W>) -> fmt::Result {
        f.write_str(self.message())
    }
}

impl Error for LineFault {}
