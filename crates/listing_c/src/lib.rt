//! The listing for a controller written in C, as a static library: a list goes in as a pointer and a length, and what is
//! answered comes back in a struct of numbers.
#![tactic(auto)]

ghost use Rattle.std.specs.Prelude.{length};
ghost use Rattle.listing.specs.Exports.{Written, Reported, stop_text};
ghost use Rattle.listing.specs.Listings.{listing_of};
ghost use Rattle.listing.specs.Promises.{FilePromised};

use listing::export;
use listing::export::{LineReport, ListingReport};

/// Writes the listing of a day file to the front of the list.
#[unsafe(no_mangle)]
pub extern "C" fn sundrixa_list(file: &[u8], out: &mut [u8]) -> ListingReport
    ensures listed { Reported (listing_of (length out.old) file.now) out.old out.new result }
    ensures promise { FilePromised file.now }
{
    export::sundrixa_list(file, out)
}

/// Writes the STOP line of a listing that stopped, from its numbers: the inner number stands in it where the refusal
/// is 35.
// Numbers for refusals: C has no enum with values in it.
#[unsafe(no_mangle)]
pub extern "C" fn sundrixa_stop_line(
    refusal: u64,
    offset: u64,
    inner: u64,
    out: &mut [u8],
) -> LineReport
    ensures { Written (stop_text refusal offset inner) out.old out.new result }
{
    export::sundrixa_stop_line(refusal, offset, inner, out)
}
