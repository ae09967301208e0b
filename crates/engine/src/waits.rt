ghost use Rattle.std.specs.Prelude.{◌≡◌, ◌+◌, ◌*◌, ◌<◌, ◌≤◌, ◌&&◌, not, length, IfSome, Some, None};
ghost use Rattle.engine.specs.Tables.{Fair, Kept, Kept-prop, feels, queries_of};
ghost use Rattle.rules.specs.Rows.{before, better, first_in_rank};
ghost use Rattle.rules.specs.Waits.{against, demand, first_late, keeps, load, rounds, wait_of};
ghost use Rattle.std.specs.Option.{option_to_list};
ghost use Rattle.std.specs.List.{AllByRecursion, AllByRecursion-prop};
ghost use Rattle.std.specs.Coded.{le_prop};

use rules::row::Row;

/// The longest wait that any query in a table can have.
const LONGEST: u64 = 60_000;

/// The queries that wait for one another over a plan of so many steps and this distance: the rows of a table, in which each
/// keeps its deadline, and one more that is asked for, if any.
#[derive(Clone, Copy)]
pub(crate) struct Queries<'a> {
    pub(crate) steps: u16,
    pub(crate) distance: u16,
    pub(crate) rows: &'a [Row],
    pub(crate) extra: Option<Row>,
    ghost spread: { 1 ≤ distance },
    ghost few: { length rows.now ≤ 32 },
    ghost fair: { AllByRecursion Fair rows.now } by { AllByRecursion-prop _ (λ h. le_prop) rows.now },
    ghost kept: { AllByRecursion (Kept steps distance rows.now) rows.now } by { AllByRecursion-prop _ (Kept-prop steps distance rows.now) rows.now },
    ghost fair_extra: { AllByRecursion Fair (option_to_list extra) } by { AllByRecursion-prop _ (λ h. le_prop) (option_to_list extra) },
}

/// Whether h ranks before q: smaller priority, then smaller number.
fn ranks_before(h: &Row, q: &Row) -> bool
    ensures { result ≡ before h.now q.now }
{
    // Not `Waiting::of(h) < Waiting::of(q)`: admission over a full table then takes a sixth longer.
    h.priority < q.priority || (h.priority == q.priority && h.number < q.number)
}

/// The row, if it is late and ranks before what was found.
fn better_of(late: bool, h: &Row, found: Option<Row>) -> Option<Row>
    ensures { result ≡ better (λ _. late) h.now found }
{
    if late && found.is_none_or(|y| ranks_before(h, &y)) {
        Some(*h)
    } else {
        found
    }
}

// A wait of up to 60,000 slots goes through three functions as a number: a type for it would be taken apart in each.
/// The rounds of h, if it ranks before q, that can be released in w + 1 slots.
fn rounds_against(h: &Row, q: &Row, w: u64) -> u64
    requires { (Fair h.now) × (w ≤ 60000) }
    ensures value { result ≡ against q.now (rounds w) h.now }
    ensures bound { result ≤ 60001 }
{
    if ranks_before(h, q) {
        w / u64::from(h.period) + 1
    } else {
        0
    }
}

impl Queries<'_> {
    /// The rounds of all queries before q that can be released in w + 1 slots.
    fn load(&self, q: &Row, w: u64) -> u64
        requires { w ≤ 60000 }
        ensures value { result ≡ load (queries_of self.now.rows.now self.now.extra) q.now w }
        ensures bound { result ≤ 60001 * 33 }
    {
        let extra = self.extra.map_or(0, |x| rounds_against(&x, q, w));
        let load: u64 = self.rows.iter().map(|h| rounds_against(h, q, w)).sum();
        load + extra
    }

    /// How long q waits at most, if the queries before it are released as often as they may be in w + 1 slots.
    fn demand(&self, q: &Row, w: u64) -> u64
        requires { w ≤ 60000 }
        ensures { result ≡ demand self.now.distance (queries_of self.now.rows.now self.now.extra) q.now w }
    {
        let distance = u64::from(self.distance);
        distance - 1 + distance * self.load(q, w)
    }

    /// The longest wait of q.
    pub(crate) fn longest_wait(&self, q: &Row) -> Option<u64>
        ensures value { result ≡ wait_of self.now.distance (queries_of self.now.rows.now self.now.extra) q.now }
        ensures bound { IfSome result (λ w. w ≤ 60000) }
    {
        // A loop: with `successors` each wait would be reckoned twice, to go on and to compare, or be carried in pairs.
        let mut wait = 0;
        while wait <= LONGEST {
            let next = self.demand(q, wait);
            if next == wait {
                return Some(wait);
            }
            wait = next;
        }
        None
    }

    /// Whether q has a longest wait, and a round that starts so late still ends by its deadline.
    fn keeps_deadline(&self, q: &Row) -> bool
        ensures { result ≡ keeps self.now.steps self.now.distance (queries_of self.now.rows.now self.now.extra) q.now }
    {
        let steps = u64::from(self.steps);
        let deadline = u64::from(q.deadline);
        self.longest_wait(q)
            .is_some_and(|wait| wait + steps <= deadline)
    }

    /// Whether q would not keep its deadline. One that ranks before the new one does not feel it, and is not reckoned.
    fn is_late(&self, q: &Row) -> bool
        ensures { result ≡ (feels self.now.extra q.now && not (keeps self.now.steps self.now.distance (queries_of self.now.rows.now self.now.extra) q.now)) }
    {
        self.extra.is_some_and(|x| !ranks_before(q, &x)) && !self.keeps_deadline(q)
    }

    /// The one that is asked for, if it would not keep its deadline.
    fn late_extra(&self) -> Option<Row>
        ensures { result ≡ first_in_rank (λ q. not (keeps self.now.steps self.now.distance (queries_of self.now.rows.now self.now.extra) q)) (option_to_list self.now.extra) }
    {
        match &self.extra {
            Some(x) if !self.keeps_deadline(x) => Some(*x),
            _ => None,
        }
    }

    /// The query that ranks first among those that would not keep their deadline.
    pub(crate) fn first_late(&self) -> Option<Row>
        ensures { result ≡ first_late self.now.steps self.now.distance (queries_of self.now.rows.now self.now.extra) }
    {
        // The fold of the rule: of two rows of one rank the later one stays.
        self.rows.iter().rev().fold(
            self.late_extra(),
            |found, q| better_of(self.is_late(q), q, found),
        )
    }
}
