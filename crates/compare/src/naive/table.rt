use crate::naive::steps::Plan;

/// The most queries of a table.
pub const MOST_QUERIES: usize = 32;

/// A booking is confirmed at once, so no query stays booked.
#[derive(Clone, Copy, PartialEq, Eq)]
pub enum Phase {
    Ready,
    Waiting,
    Leaving,
    LeavingWaiting,
}

#[derive(Clone, Copy)]
pub struct Query {
    pub number: u32,
    pub priority: u8,
    pub period: u64,
    pub deadline: u64,
    /// The earliest slot of its next release.
    pub earliest: u64,
    pub phase: Phase,
}

impl Query {
    pub fn ranks_before(&self, other: &Query) -> bool {
        (self.priority, self.number) < (other.priority, other.number)
    }

    pub fn has_waiting_round(&self) -> bool {
        matches!(self.phase, Phase::Waiting | Phase::LeavingWaiting)
    }

    pub fn is_open(&self) -> bool {
        matches!(self.phase, Phase::Ready | Phase::Waiting)
    }
}

/// The queries that a plan runs, in rank order.
#[derive(Clone, Copy)]
pub struct Ranked<'a> {
    pub queries: &'a [Query],
    pub plan: Plan,
}

impl Ranked<'_> {
    /// The rounds that may go before one of this query which waits for so many slots.
    // Those that rank before it stand before it: no other is looked at.
    fn rounds_before(self, query: &Query, wait: u64) -> u64 {
        self.queries
            .iter()
            .take_while(|other| other.ranks_before(query))
            .map(|other| wait
                .checked_div(other.period)
                .unwrap_or(0)
                .saturating_add(1))
            .fold(0, |rounds, more| rounds.saturating_add(more))
    }

    /// Whether a round that waits so long has waited for all that may go before it.
    fn waits_for_all(self, query: &Query, wait: u64) -> bool {
        let distance = self.plan.distance;
        let busy = distance.saturating_mul(self.rounds_before(query, wait));
        wait == distance.saturating_sub(1).saturating_add(busy)
    }

    /// The longest wait of a query, if there is one up to its deadline; a longer one is too late anyhow.
    pub fn longest_wait(self, query: &Query) -> Option<u64> {
        (0..query.deadline.saturating_add(1)).find(|wait| self.waits_for_all(query, *wait))
    }

    fn keeps_deadline(self, query: &Query) -> bool {
        self.longest_wait(query).is_some_and(|wait| wait.saturating_add(self.plan.length)
            <= query.deadline)
    }

    /// The first of the queries that would not keep its deadline.
    pub fn first_late(self) -> Option<u32> {
        self.queries
            .iter()
            .find(|query| !self.keeps_deadline(query))
            .map(|query| query.number)
    }
}
