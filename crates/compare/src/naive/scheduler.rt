use crate::naive::steps::Plan;
use crate::naive::table::{MOST_QUERIES, Phase, Query, Ranked};
use std::alloc::{AllocFailed, Global};

/// The highest number that a query may get.
const MOST_NUMBERS: u32 = 1_000_000;

// As the product has it too, from which nothing is taken here but records.
/// The longest period.
const MOST_PERIOD: u64 = 60_000;

/// Why a call was refused.
#[derive(Clone, Copy)]
pub enum Refusal {
    Terms,
    Numbers,
    Full,
    /// This query would not keep its deadline.
    Late(u32),
    NotOpen,
    Early,
    Waiting,
}

impl Refusal {
    pub fn code(self) -> u8 {
        match self {
            Refusal::Terms => 20,
            Refusal::Numbers => 21,
            Refusal::Full => 22,
            Refusal::Late(_) => 23,
            Refusal::NotOpen => 25,
            Refusal::Early => 26,
            Refusal::Waiting => 27,
        }
    }
}

/// Why a query was not taken in.
#[derive(Clone, Copy)]
pub enum Failure {
    Memory,
    Refused(Refusal),
}

impl<T: Drop> From<AllocFailed<T>> for Failure {
    fn from(_: AllocFailed<T>) -> Failure {
        Failure::Memory
    }
}

/// A query that was taken in, and its longest wait right then.
#[derive(Clone, Copy)]
pub struct Accepted {
    pub number: u32,
    pub wait: u64,
}

#[derive(Drop)]
pub struct Engine {
    plan: Plan,
    /// The next slot.
    slot: u64,
    last_start: Option<u64>,
    next_number: u32,
    /// In rank order.
    queries: Vec<Query>,
}

impl Engine {
    pub fn open(heap: Global, plan: Plan) -> Engine {
        Engine {
            plan,
            slot: 0,
            last_start: None,
            next_number: 1,
            queries: Vec::new(heap),
        }
    }

    pub fn slot(&self) -> u64 {
        self.slot
    }

    /// Books a query and confirms the booking.
    pub fn accept(
        &mut self,
        priority: u8,
        period: u64,
        deadline: u64,
    ) -> Result<Accepted, Failure> {
        if deadline < 1 || deadline > period || period > MOST_PERIOD {
            return Err(Failure::Refused(Refusal::Terms));
        }
        if self.next_number > MOST_NUMBERS {
            return Err(Failure::Refused(Refusal::Numbers));
        }
        if self.queries.len() >= MOST_QUERIES {
            return Err(Failure::Refused(Refusal::Full));
        }
        self.try_query(Query {
            number: self.next_number,
            priority,
            period,
            deadline,
            earliest: 0,
            phase: Phase::Ready,
        })
    }

    fn ranked(&self) -> Ranked<'_> {
        Ranked {
            queries: self.queries.as_slice(),
            plan: self.plan,
        }
    }

    fn place_of(&self, query: &Query) -> usize {
        self.queries
            .iter()
            .filter(|other| other.ranks_before(query))
            .count()
    }

    /// Enters the query, and takes it out again if some query would then be late.
    fn try_query(&mut self, query: Query) -> Result<Accepted, Failure> {
        let place = self.place_of(&query);
        if place <= self.queries.len() {
            self.queries.insert(place, query)?;
        }
        if let Some(late) = self.ranked().first_late() {
            if place < self.queries.len() {
                let _ = self.queries.remove(place);
            }
            return Err(Failure::Refused(Refusal::Late(late)));
        }
        self.next_number = self.next_number.saturating_add(1);
        Ok(Accepted {
            number: query.number,
            wait: self.ranked().longest_wait(&query).unwrap_or(0),
        })
    }

    fn open_query(&mut self, number: u32) -> Result<&mut Query, Refusal> {
        self.queries
            .iter_mut()
            .find(|query| query.number == number && query.is_open())
            .ok_or(Refusal::NotOpen)
    }

    pub fn release(&mut self, number: u32) -> Result<(), Refusal> {
        let slot = self.slot;
        let query = self.open_query(number)?;
        if slot < query.earliest {
            return Err(Refusal::Early);
        }
        if query.phase == Phase::Waiting {
            return Err(Refusal::Waiting);
        }
        query.phase = Phase::Waiting;
        query.earliest = slot.saturating_add(query.period);
        Ok(())
    }

    pub fn close(&mut self, number: u32) -> Result<(), Refusal> {
        let query = self.open_query(number)?;
        query.phase = if query.phase == Phase::Waiting {
            Phase::LeavingWaiting
        } else {
            Phase::Leaving
        };
        Ok(())
    }

    fn has_waiting_round(&self) -> bool {
        self.queries.iter().any(|query| query.has_waiting_round())
    }

    fn remove_leaving(&mut self) {
        self.queries.retain(|query| query.phase != Phase::Leaving);
    }

    fn may_start(&self) -> bool {
        self.last_start.is_none_or(|last| self.slot >= last.saturating_add(self.plan.distance))
    }

    /// Starts the first waiting round in rank order.
    fn start_first(&mut self) -> Option<u32> {
        let query = self
            .queries
            .iter_mut()
            .find(|query| query.has_waiting_round())?;
        query.phase = if query.is_open() {
            Phase::Ready
        } else {
            Phase::Leaving
        };
        Some(query.number)
    }

    /// Runs one slot, and answers whose round starts in it.
    pub fn run_slot(&mut self) -> Option<u32> {
        let mut started = None;
        if !self.has_waiting_round() {
            self.remove_leaving();
        } else if self.may_start() {
            started = self.start_first();
            self.last_start = Some(self.slot);
        }
        self.slot = self.slot.saturating_add(1);
        started
    }
}
