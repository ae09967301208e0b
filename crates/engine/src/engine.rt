ghost use Rattle.std.specs.Prelude.{◌≡◌, ◌+◌, ◌<◌, length};
ghost use Rattle.engine.specs.Engines.{Opened, PromiseFor, SlotDone, view};
ghost use Rattle.engine.specs.Meanings.{Waited};
ghost use Rattle.plan.specs.Plans.{plan_of};
ghost use Rattle.rules.specs.Rules.{close, may_start, most_lines, release, wait};

use crate::running::RunningRounds;
use crate::state::Engine;
use crate::table::Table;
use crate::trial::TrialPlace;
use crate::waits::Queries;
use plan::approved::ApprovedPlan;
use rules::refusal::Refusal;
use rules::round::Line;

/// No slot runs at or after this one.
const LAST_SLOT: u64 = 1_000_000_000_000;

impl Engine {
    /// An engine over an approved plan, whose first slot is given.
    pub fn open(plan: &ApprovedPlan, first: u64) -> Result<Engine, Refusal>
        ensures opened { Opened (plan_of plan.now) first result }
        ensures promise { PromiseFor (plan_of plan.now) first }
    {
        if first > LAST_SLOT {
            return Err(Refusal::FirstSlot);
        }
        Ok(Engine {
            length: plan.length(),
            distance: plan.distance(),
            slot: first,
            last: None,
            next: 1,
            table: Table::new(),
            running: RunningRounds::new(),
            trial: TrialPlace::default(),
        })
    }

    /// The present slot: the one that runs next.
    pub fn present_slot(&self) -> u64
        ensures { result ≡ (view self.now).slot }
    {
        let present = self.slot;
        present
    }

    /// A round of the query is released in the present slot.
    pub fn release(&mut self, number: u32) -> Result<(), Refusal>
        ensures { (result, view self.new) ≡ release number (view self.old) }
    {
        self.table.release(number, self.slot)
    }

    /// The query is released no more, and leaves the table once no round of it waits.
    pub fn close(&mut self, number: u32) -> Result<(), Refusal>
        ensures { (result, view self.new) ≡ close number (view self.old) }
    {
        self.table.close(number)
    }

    /// The longest wait of the query: how many slots after its release a round starts at the latest.
    pub fn wait(&self, number: u32) -> Result<u64, Refusal>
        ensures value { result ≡ wait number (view self.now) }
        ensures least { Waited number (view self.now) result }
    {
        let q = self.table.row(number).ok_or(Refusal::NotInTable)?;
        let queries = Queries {
            steps: self.length,
            distance: self.distance,
            rows: &self.table.rows,
            extra: None,
        };
        queries.longest_wait(&q).ok_or(Refusal::NotInTable)
    }

    /// Whether the distance lets a round start in the present slot.
    fn may_start(&self) -> bool
        ensures { result ≡ may_start self.now.distance self.now.last self.now.slot }
    {
        self.last.is_none_or(|t| self.slot.saturating_sub(t) >= u64::from(self.distance))
    }

    /// How many lines a slot can have.
    fn most_lines(&self) -> usize
        ensures { result ≡ most_lines (view self.now) }
    {
        usize::from(self.length).div_ceil(usize::from(self.distance))
    }

    /// Runs the present slot: writes one line for each running round, oldest start first, and answers how many.
    pub fn slot(&mut self, lines: &mut [Line]) -> Result<usize, Refusal>
        ensures { SlotDone (view self.old) (view self.new) lines.old lines.new result }
    {
        if self.slot == LAST_SLOT {
            return Err(Refusal::LastSlot);
        }
        if lines.len() < self.most_lines() {
            return Err(Refusal::ShortList);
        }
        let slot = self.slot;
        let may = self.may_start();
        let started = self.table.start_any(may);
        self.running.start_any(started, slot);
        self.last = started.map(|_| slot).or(self.last);
        let count = self.running.write_lines(slot, lines);
        self.slot = slot + 1;
        self.running.drop_finished(self.length, slot + 1);
        Ok(count)
    }
}
