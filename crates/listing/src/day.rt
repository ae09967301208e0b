// The records of a day, carried out one after the other on the engine.
ghost use Rattle.std.specs.Prelude.{◌≡◌};
ghost use Rattle.std.specs.Result.{result_err};
ghost use Rattle.engine.specs.Engines.{view};
ghost use Rattle.listing.specs.Listings.{Ends, day_story};
ghost use Rattle.listing.specs.Records.{script_in};
ghost use Rattle.listing.specs.Turns.{Played, Ran, Turned};

use crate::calls::{SLOT_ROOM, close, outcome_line, query, release, slot};
use crate::page::Page;
use crate::records::Records;
use crate::stop::{Stop, StopFault};
use dayfile::record::Record;
use engine::state::Engine;
use rules::round::Line;

/// An engine in its day, and the list that it writes the lines of a slot into.
#[derive(Drop)]
pub(crate) struct Day {
    engine: Engine,
    lines: [Line; SLOT_ROOM],
}

impl Day {
    pub(crate) fn new(engine: Engine) -> Day
        ensures { view result.engine ≡ view engine }
    {
        Day {
            engine,
            lines: [Line::default(); SLOT_ROOM],
        }
    }

    /// Runs so many slots.
    fn run_slots(&mut self, slots: u16, offset: usize, page: &mut Page<'_>) -> Result<(), StopFault>
        ensures same { page.new.out.ghost_name ≡ page.old.out.ghost_name }
        ensures ran { Ran offset slots (view self.old.engine) (view self.new.engine) page.old page.new result }
    {
        for _ in 0..slots {
            let outcome = slot(&mut self.engine, &mut self.lines);
            page.tell(outcome_line(outcome, offset))?;
        }
        Ok(())
    }

    /// Carries out the record at the offset. A record of the site is out of order once the day has begun.
    fn play(&mut self, said: Record, offset: usize, page: &mut Page<'_>) -> Result<(), StopFault>
        ensures same { page.new.out.ghost_name ≡ page.old.out.ghost_name }
        ensures played { Played offset said (view self.old.engine) (view self.new.engine) page.old page.new result }
    {
        match said {
            Record::Nodes { count: _ } => Err(StopFault::Order),
            Record::Edge { from: _, to: _ } => Err(StopFault::Order),
            Record::Tree {
                child: _,
                parent: _,
                slots: _,
            } => Err(StopFault::Order),
            Record::Query {
                priority,
                period,
                deadline,
            } => {
                let outcome = query(&mut self.engine, priority, period, deadline);
                page.tell(outcome_line(outcome, offset))
            }
            Record::Release { number } => {
                let outcome = release(&mut self.engine, number);
                page.tell(outcome_line(outcome, offset))
            }
            Record::Close { number } => {
                let outcome = close(&mut self.engine, number);
                page.tell(outcome_line(outcome, offset))
            }
            Record::Run { slots } => self.run_slots(slots, offset, page),
        }
    }

    /// Carries out the records.
    pub(crate) fn run(&mut self, records: Records<'_>, page: &mut Page<'_>) -> Result<(), Stop>
        ensures same { page.new.out.ghost_name ≡ page.old.out.ghost_name }
        ensures told { Turned (day_story (view self.old.engine) (script_in records.entry)) page.old (Ends (result_err result)) page.new }
    {
        let mut rest = records;
        while let Some((said, after)) = rest.next()? {
            let offset = rest.offset();
            self.play(said, offset, page)
                .map_err(|fault| Stop { fault, offset })?;
            rest = after;
        }
        Ok(())
    }
}
