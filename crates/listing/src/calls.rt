// What a record of the day makes the engine do, and the line that tells of it.
ghost use Rattle.std.specs.Prelude.{◌≡◌};
ghost use Rattle.dayfile.specs.declared.record.Record.TheVariants.{Close, Query, Release};
ghost use Rattle.engine.specs.Engines.{view};
ghost use Rattle.listing.specs.Days.{deadline_of, no_line, slot_room, start_line, starting};
ghost use Rattle.listing.specs.Turns.{Called, OneLine, outcome_line};
ghost use Rattle.rules.specs.declared.call.Call.TheVariants.{Slot};

use engine::state::Engine;
use lines::line::TextLine;
use rules::refusal::Refusal;
use rules::round::Line;

/// How many lines a slot can have over any plan.
pub(crate) const SLOT_ROOM: usize = 256;

/// The line of a refusal.
fn no_line(refusal: Refusal, offset: usize) -> TextLine
    ensures { result ≡ no_line offset refusal }
{
    TextLine::No {
        refusal: u64::from(refusal.code()),
        offset: offset as u64,
        named: refusal.named().map(u64::from),
    }
}

/// The line of what came of a call for the record at the offset.
pub(crate) fn outcome_line(
    outcome: Result<Option<TextLine>, Refusal>,
    offset: usize,
) -> Option<TextLine>
    ensures { result ≡ outcome_line offset outcome }
{
    outcome.unwrap_or_else(|refusal| Some(no_line(refusal, offset)))
}

/// The deadline of a query record: 0 stands for the period.
fn deadline_of(period: u16, deadline: u16) -> u16
    ensures { result ≡ deadline_of period deadline }
{
    if deadline == 0 { period } else { deadline }
}

/// A query record: books the query and confirms it. A booking just handed out is never refused.
pub(crate) fn query(
    engine: &mut Engine,
    priority: u8,
    period: u16,
    deadline: u16,
) -> Result<Option<TextLine>, Refusal>
    ensures { OneLine (Query priority period deadline) (view engine.old) (view engine.new) result }
{
    let deadline = deadline_of(period, deadline);
    let booking = engine.book(priority, u32::from(period), u32::from(deadline))?;
    let number = booking.number();
    let wait = engine.wait(number);
    match engine.confirm(booking) {
        Ok(()) => Ok(Some(TextLine::Query {
            number: u64::from(number),
            wait: wait?,
        })),
        Err(_) => unreachable(),
    }
}

/// A release record.
pub(crate) fn release(engine: &mut Engine, number: u32) -> Result<Option<TextLine>, Refusal>
    ensures { OneLine (Release number) (view engine.old) (view engine.new) result }
{
    engine.release(number)?;
    Ok(None)
}

/// A close record.
pub(crate) fn close(engine: &mut Engine, number: u32) -> Result<Option<TextLine>, Refusal>
    ensures { OneLine (Close number) (view engine.old) (view engine.new) result }
{
    engine.close(number)?;
    Ok(None)
}

/// The number of the query whose round starts, if one does: its line has step 0.
// A `for`: with `iter().find(..)` a quiet slot takes four jumps more, and a long day a twentieth longer
fn starting(lines: &[Line]) -> Option<u32>
    ensures { result ≡ starting lines.now }
{
    for line in lines {
        if line.step == 0 {
            return Some(line.number);
        }
    }
    None
}

/// The line of a slot that ran.
fn start_line(slot: u64, starting: Option<u32>) -> Option<TextLine>
    ensures { result ≡ start_line slot starting }
{
    starting.map(|number| TextLine::Start {
        slot,
        number: u64::from(number),
    })
}

/// One slot of a run record.
pub(crate) fn slot(
    engine: &mut Engine,
    lines: &mut [Line; SLOT_ROOM],
) -> Result<Option<TextLine>, Refusal>
    ensures { Called (Slot slot_room) (view engine.old) (view engine.new) result }
{
    let slot = engine.present_slot();
    let count = engine.slot(lines)?;
    Ok(start_line(slot, starting(&lines[0..count])))
}
