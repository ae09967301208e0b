ghost use Rattle.std.specs.Prelude.{◌≡◌, ◌≤◌};
ghost use Rattle.engine.specs.States.{view_by};
ghost use Rattle.rules.proofs.Invariant.{Inv};

use crate::running::RunningRounds;
use crate::table::Table;
use crate::trial::TrialPlace;

/// An engine over an approved plan: the table of queries, the rounds that wait and the rounds that run.
#[derive(Drop)]
pub struct Engine {
    pub(crate) length: u16,
    pub(crate) distance: u16,
    pub(crate) slot: u64,
    pub(crate) last: Option<u64>,
    pub(crate) next: u32,
    pub(crate) table: Table,
    pub(crate) running: RunningRounds,
    pub(crate) trial: TrialPlace,
    ghost short: { length ≤ 256 },
    ghost spread: { 1 ≤ distance },
    ghost soon: { slot ≤ 1000000000000 },
    ghost numbered: { next ≤ 1000001 },
    ghost idle: { (trial.priority ≡ 0) × (trial.period ≡ 0) × (trial.deadline ≡ 0) },
    ghost good: { ∥ Inv (view_by length distance slot last running.rounds.items next table.rows.items) ∥₁ },
}
