ghost use Rattle.std.specs.Prelude.{◌≡◌};
ghost use Rattle.engine.specs.Bookings.{StandsBooked, back_with, booked_by, handed_back};
ghost use Rattle.engine.specs.Engines.{view};
ghost use Rattle.engine.specs.Meanings.{JudgedIn};
ghost use Rattle.rules.specs.Rules.{book, confirm, trial, withdraw};

use crate::state::Engine;
use crate::trial::{TrialGuard, TrialPlace};
use crate::waits::Queries;
use rules::refusal::Refusal;

/// A query that was booked, and is still to be confirmed or withdrawn: it cannot be let go otherwise.
pub struct Booking {
    number: u32,
}

impl Booking {
    /// The number of the query.
    pub fn number(&self) -> u32
        ensures { result ≡ self.now.number }
    {
        self.number
    }

    /// Lets the booking go where what was called with it was done, and hands it back where that was refused.
    fn settled(self, outcome: Result<(), Refusal>) -> Result<(), (Refusal, Booking)>
        ensures { result ≡ back_with self outcome }
    {
        match outcome {
            Ok(()) => {
                let Booking { number: _ } = self;
                Ok(())
            }
            Err(why) => Err((why, self)),
        }
    }
}

impl Engine {
    /// Books a query, if every query keeps its deadline with it.
    pub fn book(&mut self, priority: u8, period: u32, deadline: u32) -> Result<Booking, Refusal>
        ensures outcome { (booked_by result, view self.new) ≡ book priority period deadline (view self.old) }
        ensures judged { JudgedIn (view self.old) priority period deadline (booked_by result) }
        ensures stands { StandsBooked (view self.new) result }
    {
        let asked = TrialPlace {
            priority,
            period,
            deadline,
        };
        let queries = Queries {
            steps: self.length,
            distance: self.distance,
            rows: &self.table.rows,
            extra: None,
        };
        let row = queries.admit(self.next, asked)?;
        self.table.enter(row);
        self.next += 1;
        Ok(Booking { number: row.number })
    }

    /// The number that booking the query would give, or why it would be refused. The engine stays as it was.
    pub fn trial(&mut self, priority: u8, period: u32, deadline: u32) -> Result<u32, Refusal>
        ensures outcome { (result, view self.new) ≡ trial priority period deadline (view self.old) }
        ensures judged { JudgedIn (view self.old) priority period deadline result }
    {
        let table = &self.table;
        // Field by field, as in `book` and `wait`: the trial place is lent at the same time.
        let queries = Queries {
            steps: self.length,
            distance: self.distance,
            rows: &table.rows,
            extra: None,
        };
        let next = self.next;
        let guard = TrialGuard(&mut self.trial);
        *guard.0 = TrialPlace {
            priority,
            period,
            deadline,
        };
        let row = queries.admit(next, *guard.0)?;
        Ok(row.number)
    }

    /// Makes the booked query ready. A refusal hands the booking back.
    pub fn confirm(&mut self, booking: Booking) -> Result<(), (Refusal, Booking)>
        ensures { (result, view self.new) ≡ handed_back booking (confirm booking.number (view self.old)) }
    {
        let outcome = self.table.confirm(booking.number);
        booking.settled(outcome)
    }

    /// Removes the booked query. A refusal hands the booking back.
    pub fn withdraw(&mut self, booking: Booking) -> Result<(), (Refusal, Booking)>
        ensures { (result, view self.new) ≡ handed_back booking (withdraw booking.number (view self.old)) }
    {
        let outcome = self.table.withdraw(booking.number);
        booking.settled(outcome)
    }
}
