// Why a text or a file is not taken.
ghost use Rattle.std.specs.Prelude.{◌≡◌, Some};
ghost use Rattle.textfile.specs.declared.fault.FileFault.TheVariants.{Memory as NoFileMemory};
ghost use Rattle.textfile.specs.declared.fault.TextFault.TheVariants.{Memory as NoTextMemory};
ghost use Rattle.textfile.specs.Faults.{text_fault_shown, file_fault_shown};

use dayfile::record::ReadFault;
use daytext::fault::LineFault;
use std::alloc::AllocError;
use std::error::Error;
use std::fmt;

// Not one type over the inner fault: a line's number and a byte's offset print with another word, which takes a trait.

/// Why a text cannot be packed.
#[derive(Clone, Copy, Debug)]
pub enum TextFault {
    /// The line of this number, counted from 1, has no meaning.
    Line(usize, LineFault),
    /// There is no memory for the file.
    Memory,
}

/// Why a day file cannot be printed.
#[derive(Clone, Copy, Debug)]
pub enum FileFault {
    /// The bytes from this offset on, counted from 0, begin with no whole record.
    Unreadable(usize, ReadFault),
    /// There is no memory for the text.
    Memory,
}

impl From<AllocError> for TextFault {
    ghost from_gives = { λ _ r. r ≡ NoTextMemory };

    fn from(_: AllocError) -> TextFault {
        TextFault::Memory
    }
}

impl From<AllocError> for FileFault {
    ghost from_gives = { λ _ r. r ≡ NoFileMemory };

    fn from(_: AllocError) -> FileFault {
        FileFault::Memory
    }
}

impl fmt::Display for TextFault {
    ghost output = { λ x. Some (text_fault_shown x) };

    fn fmt<W: fmt::Write>(&self, f: &mut fmt::Formatter<W>) -> fmt::Result {
        match *self {
            TextFault::Line(number, fault) => write!(f, "line {number}: {fault}"),
            TextFault::Memory => f.write_str("out of memory"),
        }
    }
}

impl fmt::Display for FileFault {
    ghost output = { λ x. Some (file_fault_shown x) };

    fn fmt<W: fmt::Write>(&self, f: &mut fmt::Formatter<W>) -> fmt::Result {
        match *self {
            FileFault::Unreadable(offset, fault) => write!(f, "byte {offset}: {fault}"),
            FileFault::Memory => f.write_str("out of memory"),
        }
    }
}

impl Error for TextFault {}

impl Error for FileFault {}
