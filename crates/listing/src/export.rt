// The listing for a controller written in C: what is answered comes back in a struct of numbers. The crate listing_c
// exports the two calls; a crate is a library or a static library, and not both.
ghost use Rattle.std.specs.Prelude.{length};
ghost use Rattle.listing.specs.Exports.{Written, Reported, stop_text};
ghost use Rattle.listing.specs.Listings.{listing_of};
ghost use Rattle.listing.specs.Promises.{FilePromised};

use crate::listing::list;
use lines::line::TextLine;
use lines::writer::{Full, put_line};

/// A listing, in numbers. `refusal` is 0 where it is complete; `offset` is where in the file it stopped. `inner` and
/// `position` are the number and the position of the site's refusal where it stopped for that, and otherwise 0.
// Numbers, and 0 for what there is not, here and below: C has neither an Option nor an enum with values in it.
#[repr(C)]
#[derive(Clone, Copy)]
pub struct ListingReport {
    pub length: u64,
    pub refusal: u64,
    pub offset: u64,
    pub inner: u64,
    pub position: u64,
}

/// A line, in numbers: its length and 0, or 0 and the refusal where it does not fit.
#[repr(C)]
#[derive(Clone, Copy)]
pub struct LineReport {
    pub length: u64,
    pub refusal: u64,
}

/// Writes the listing of a day file to the front of the list.
pub fn sundrixa_list(file: &[u8], out: &mut [u8]) -> ListingReport
    ensures listed { Reported (listing_of (length out.old) file.now) out.old out.new result }
    ensures promise { FilePromised file.now }
{
    let listing = list(file, out);
    let length = listing.length as u64;
    match listing.stop {
        None => ListingReport {
            length,
            refusal: 0,
            offset: 0,
            inner: 0,
            position: 0,
        },
        Some(stop) => ListingReport {
            length,
            refusal: u64::from(stop.fault.code()),
            offset: stop.offset as u64,
            inner: u64::from(stop.fault.inner().unwrap_or(0)),
            position: stop.fault.position().unwrap_or(0) as u64,
        },
    }
}

/// Writes the STOP line of a listing that stopped, from its numbers: the inner number stands in it where the refusal
/// is 35.
pub fn sundrixa_stop_line(refusal: u64, offset: u64, inner: u64, out: &mut [u8]) -> LineReport
    ensures { Written (stop_text refusal offset inner) out.old out.new result }
{
    let inner = if refusal == 35 { Some(inner) } else { None };
    let line = TextLine::Stop {
        refusal,
        offset,
        inner,
    };
    match put_line(out, 0, line) {
        Ok(end) => LineReport {
            length: end as u64,
            refusal: 0,
        },
        Err(Full) => LineReport {
            length: 0,
            refusal: 34,
        },
    }
}
