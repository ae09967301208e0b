ghost use Rattle.std.specs.Prelude.{◌≡◌, ◌^◌, ◌<◌, map, Some};
ghost use Rattle.engine.specs.Rows.{ok_unless};
ghost use Rattle.rules.specs.Phases.{started};
ghost use Rattle.rules.specs.Rows.{close_row, confirm_row, release_row, start_row};
ghost use Rattle.rules.specs.Rules.{release_refusal, unless_booked, unless_open};

use rules::phase::Phase;
use rules::refusal::Refusal;
use rules::row::Row;

/// A booked row, made ready.
pub(crate) fn confirmed(row: Row) -> Result<Row, Refusal>
    ensures { result ≡ ok_unless (unless_booked (Some row)) (confirm_row row.number row) }
{
    match row.phase {
        Phase::Booked => Ok(Row {
            phase: Phase::Ready,
            ..row
        }),
        _ => Err(Refusal::NotBooked),
    }
}

/// An open row, a round of it released in the slot.
pub(crate) fn released(row: Row, slot: u64) -> Result<Row, Refusal>
    requires { slot < 2 ^ 62 }
    ensures { result ≡ ok_unless (release_refusal (Some row) slot) (release_row slot row.number row) }
{
    match row.phase {
        Phase::Ready | Phase::Waiting(_) if slot < row.earliest => Err(Refusal::TooEarly),
        Phase::Waiting(_) => Err(Refusal::RoundWaits),
        Phase::Ready => Ok(Row {
            earliest: slot + u64::from(row.period),
            phase: Phase::Waiting(slot),
            ..row
        }),
        _ => Err(Refusal::NotOpen),
    }
}

/// An open row, closed: it leaves once no round of it waits.
pub(crate) fn closed(row: Row) -> Result<Row, Refusal>
    ensures { result ≡ ok_unless (unless_open (Some row)) (close_row row.number row) }
{
    let phase = match row.phase {
        Phase::Ready => Phase::Leaving,
        Phase::Waiting(since) => Phase::LeavingWaiting(since),
        _ => return Err(Refusal::NotOpen),
    };
    Ok(Row { phase, ..row })
}

/// The phase after the start of the round that waits.
fn after_start(phase: Phase) -> Phase
    ensures { result ≡ started phase }
{
    match phase {
        Phase::Waiting(_) => Phase::Ready,
        Phase::LeavingWaiting(_) => Phase::Leaving,
        Phase::Booked | Phase::Ready | Phase::Leaving => phase,
    }
}

/// Starts the round that waits of the row of a number.
pub(crate) fn start_row(rows: &mut [Row], number: u32)
    ensures { rows.new ≡ map (start_row number) rows.old }
{
    for row in rows.iter_mut() {
        if row.number == number {
            row.phase = after_start(row.phase);
        }
    }
}
