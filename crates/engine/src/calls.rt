ghost use Rattle.std.specs.Prelude.{◌≡◌, ◌^◌, ◌<◌, true, not, [], ◌∷◌, ◌++◌, map, is_some, length, filter, position};
ghost use Rattle.engine.specs.Rows.{unless_refused};
ghost use Rattle.engine.specs.Views.{Begun, rows_of};
ghost use Rattle.rules.specs.Phases.{is_booked};
ghost use Rattle.rules.specs.Rows.{close_row, confirm_row, first_in_rank, has_number, other_than, release_row, row_of, staying, waits};
ghost use Rattle.rules.specs.Rules.{release_refusal, unless_booked, unless_open};
ghost use Rattle.std.specs.List.{AllByRecursion};

use crate::rows::{closed, confirmed, released, start_row};
use crate::table::Table;
use crate::waiting::Waiting;
use arrayvec::ArrayVec;
use queue::Queue;
use rules::phase::Phase;
use rules::refusal::Refusal;
use rules::row::Row;

impl Table {
    /// A table without queries.
    pub(crate) fn new() -> Table
        ensures { rows_of result ≡ [] }
    {
        Table {
            rows: ArrayVec::new(),
            waiting: Queue::new(),
            closing: false,
        }
    }

    /// The row of a number.
    pub(crate) fn row(&self, number: u32) -> Option<Row>
        ensures { result ≡ row_of number (rows_of self.now) }
    {
        self.rows.iter().find(|row| row.number == number).copied()
    }

    /// The place of the row of a number.
    fn place(&self, number: u32) -> Option<usize>
        ensures { result ≡ position (has_number number) (rows_of self.now) }
    {
        self.rows.iter().position(|row| row.number == number)
    }

    /// Enters a booked row, whose number is above all others.
    pub(crate) fn enter(&mut self, row: Row)
        requires room { length (rows_of self.old) < 32 }
        requires above { AllByRecursion (λ h. h.number < row.number) (rows_of self.old) }
        requires booked { is_booked row.phase ≡ true }
        ensures { rows_of self.new ≡ rows_of self.old ++ row ∷ [] }
    {
        self.rows.push(row);
    }

    /// Confirms the query of a number.
    pub(crate) fn confirm(&mut self, number: u32) -> Result<(), Refusal>
        ensures { (result, rows_of self.new) ≡ unless_refused (unless_booked (row_of number (rows_of self.old))) (rows_of self.old) (map (confirm_row number) (rows_of self.old)) }
    {
        let i = self.place(number).ok_or(Refusal::NotBooked)?;
        self.rows[i] = confirmed(self.rows[i])?;
        Ok(())
    }

    /// Releases a round of the query of a number.
    pub(crate) fn release(&mut self, number: u32, slot: u64) -> Result<(), Refusal>
        requires { slot < 2 ^ 62 }
        ensures { (result, rows_of self.new) ≡ unless_refused (release_refusal (row_of number (rows_of self.old)) slot) (rows_of self.old) (map (release_row slot number) (rows_of self.old)) }
    {
        let i = self.place(number).ok_or(Refusal::NotOpen)?;
        let row = released(self.rows[i], slot)?;
        self.rows[i] = row;
        self.waiting.push(Waiting::of(&row)).unwrap();
        Ok(())
    }

    /// Closes the query of a number.
    pub(crate) fn close(&mut self, number: u32) -> Result<(), Refusal>
        ensures { (result, rows_of self.new) ≡ unless_refused (unless_open (row_of number (rows_of self.old))) (rows_of self.old) (map (close_row number) (rows_of self.old)) }
    {
        let i = self.place(number).ok_or(Refusal::NotOpen)?;
        self.rows[i] = closed(self.rows[i])?;
        self.closing = true;
        Ok(())
    }

    /// Removes the booked query of a number.
    pub(crate) fn withdraw(&mut self, number: u32) -> Result<(), Refusal>
        ensures { (result, rows_of self.new) ≡ unless_refused (unless_booked (row_of number (rows_of self.old))) (rows_of self.old) (filter (other_than number) (rows_of self.old)) }
    {
        let row = self.row(number);
        if !row.is_some_and(|row| row.phase == Phase::Booked) {
            return Err(Refusal::NotBooked);
        }
        self.rows.retain(|row| row.number != number);
        Ok(())
    }

    /// Removes the queries that are leaving with no round waiting. In most slots none is, and no row is looked at.
    pub(crate) fn sweep(&mut self)
        ensures { rows_of self.new ≡ filter staying (rows_of self.old) }
    {
        if !self.closing {
            return;
        }
        self.closing = !self.is_quiet();
        self.rows.retain(|row| row.phase != Phase::Leaving);
    }

    /// Whether no round waits.
    pub(crate) fn is_quiet(&self) -> bool
        ensures { result ≡ not (is_some (first_in_rank waits (rows_of self.now))) }
    {
        self.waiting.is_empty()
    }

    /// Takes the waiting round that ranks first out of the queue, and answers the number of its query.
    pub(crate) fn start_first(&mut self) -> Option<u32>
        ensures { Begun (rows_of self.old) (rows_of self.new) result }
    {
        let first = self.waiting.pop()?;
        start_row(&mut self.rows, first.number);
        Some(first.number)
    }
}
