ghost use Rattle.std.specs.Prelude.{◌≡◌, true, ◌||◌};
ghost use Rattle.engine.specs.Closings.{none_closed};
ghost use Rattle.engine.specs.Entries.{sooner, waiting_of};
ghost use Rattle.engine.specs.Rising.{Rising, Rising-prop};
ghost use Rattle.queue.specs.Ranked.{ranked};

use crate::waiting::Waiting;
use arrayvec::ArrayVec;
use queue::Queue;
use rules::row::Row;

/// The table of queries, in order of number, and the rounds of it that wait.
#[derive(Drop)]
pub(crate) struct Table {
    pub(crate) rows: ArrayVec<Row, 32>,
    pub(crate) waiting: Queue<Waiting, 32>,
    /// Whether a query may be leaving: one was closed since the last sweep.
    pub(crate) closing: bool,
    ghost rising: { Rising rows.items } by { Rising-prop rows.items },
    ghost queued: { waiting ≡ ranked sooner (waiting_of rows.items) },
    ghost noted: { (closing || none_closed rows.items) ≡ true },
}
