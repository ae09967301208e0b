ghost use Rattle.std.specs.Prelude.{◌≡◌, ◌≤◌, length, None};
ghost use Rattle.std.specs.Result.{result_err};
ghost use Rattle.lines.specs.Text.{bytes_of, lined, placed};
ghost use Rattle.listing.specs.Listings.{Ends, Listed, listing_of, plan_story, story_of};
ghost use Rattle.listing.specs.Promises.{FilePromised, Unplannable};
ghost use Rattle.listing.specs.Records.{script_in};
ghost use Rattle.listing.specs.Stops.{stop_line};
ghost use Rattle.listing.specs.Turns.{Turned};
ghost use Rattle.plan.specs.Plans.{plan_of};

use crate::day::Day;
use crate::page::Page;
use crate::records::Records;
use crate::stop::Stop;
use crate::survey::plan_site;
use engine::state::Engine;
use lines::line::TextLine;
use lines::writer::{Full, put_line};
use plan::approved::ApprovedPlan;

/// The most bytes that a day file has.
pub use dayfile::FILE_LIMIT;

/// A listing that was written to the front of a list: how many bytes it has, and where it stopped, if it did.
#[derive(Clone, Copy, PartialEq, Eq, Debug)]
pub struct Listing {
    pub length: usize,
    pub stop: Option<Stop>,
}

/// The day over a plan: its PLAN line, and what the records tell.
fn tell_day(plan: &ApprovedPlan, day: Records<'_>, page: &mut Page<'_>) -> Result<(), Stop>
    ensures same { page.new.out.ghost_name ≡ page.old.out.ghost_name }
    ensures told { Turned (plan_story None (plan_of plan.now) (script_in day.entry)) page.old (Ends (result_err result)) page.new }
{
    let line = TextLine::Plan {
        length: u64::from(plan.length()),
        distance: u64::from(plan.distance()),
    };
    let offset = day.offset();
    page.tell(Some(line))
        .map_err(|fault| Stop { fault, offset })?;
    match Engine::open(plan, 0) {
        Ok(engine) => Day::new(engine).run(day, page),
        Err(_) => unreachable(),
    }
}

/// The story of the file, told onto the page.
fn tell_file(file: &[u8], page: &mut Page<'_>) -> Result<(), Stop>
    ensures same { page.new.out.ghost_name ≡ page.old.out.ghost_name }
    ensures told { Turned (story_of file.now) page.old (Ends (result_err result)) page.new }
{
    let (site, day) = plan_site(file)?;
    tell_day(&site.plan, day, page)
}

/// Writes the listing of a day file to the front of the list, and leaves the places past it as they were.
pub fn list(file: &[u8], out: &mut [u8]) -> Listing
    ensures listed { Listed (listing_of (length out.old) file.now) out.old out.new result.length result.stop }
    ensures within { result.length ≤ length out.old }
    ensures promise { FilePromised file.now }
    ensures unplanned { Unplannable file.now result.stop }
{
    let mut page = Page { out, at: 0 };
    let stop = tell_file(file, &mut page).err();
    Listing {
        length: page.at,
        stop,
    }
}

/// Writes the STOP line of a listing that stopped, and answers its length.
pub fn stop_line(stop: Stop, out: &mut [u8]) -> Result<usize, Full>
    ensures place { result ≡ placed (length out.old) 0 (bytes_of (stop_line stop)) }
    ensures text { out.new ≡ lined out.old 0 (bytes_of (stop_line stop)) }
{
    let line = TextLine::Stop {
        refusal: u64::from(stop.fault.code()),
        offset: stop.offset as u64,
        inner: stop.fault.inner().map(u64::from),
    };
    put_line(out, 0, line)
}
