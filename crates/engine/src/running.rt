ghost use Rattle.std.specs.Prelude.{◌≡◌, ◌<◌, ◌≤◌, true, [], ◌++◌, map, length, drop, is_some, filter};
ghost use Rattle.engine.specs.Rounds.{Runs};
ghost use Rattle.engine.specs.Starts.{joined};
ghost use Rattle.rules.specs.Rules.{line_at, runs_in};
ghost use Rattle.std.specs.List.{AllByRecursion};

use arrayvec::ArrayVec;
use rules::round::{Line, Round};

/// The rounds that run, oldest start first.
#[derive(Drop)]
pub(crate) struct RunningRounds {
    rounds: ArrayVec<Round, 256>,
}

impl RunningRounds {
    /// No round runs.
    pub(crate) fn new() -> RunningRounds
        ensures { result.rounds.items ≡ [] }
    {
        RunningRounds {
            rounds: ArrayVec::new(),
        }
    }

    /// A round starts in the slot, where a query is named.
    pub(crate) fn start_any(&mut self, started: Option<u32>, slot: u64)
        requires { is_some started ≡ true → length self.old.rounds.items < 256 }
        ensures { self.new.rounds.items ≡ joined started slot self.old.rounds.items }
    {
        if let Some(number) = started {
            self.rounds.push(Round {
                number,
                start: slot,
            });
        }
    }

    /// Writes a line for each round: its step in the slot.
    pub(crate) fn write_lines(&self, slot: u64, lines: &mut [Line]) -> usize
        requires fit { length self.now.rounds.items ≤ length lines.old }
        requires run { AllByRecursion (Runs slot) self.now.rounds.items }
        ensures count { result ≡ length self.now.rounds.items }
        ensures lines { lines.new ≡ map (line_at slot) self.now.rounds.items ++ drop result lines.old }
    {
        // By index: after a `zip` with `iter_mut` the proof knows how many lines there are, and none of them.
        for (i, round) in self.rounds.iter().enumerate() {
            lines[i] = Line {
                number: round.number,
                step: (slot - round.start) as u32,
            };
        }
        self.rounds.len()
    }

    /// Drops the rounds that have no step left for the slot.
    pub(crate) fn drop_finished(&mut self, length: u16, slot: u64)
        ensures { self.new.rounds.items ≡ filter (runs_in length slot) self.old.rounds.items }
    {
        self.rounds.retain(|round| slot.saturating_sub(round.start) < u64::from(length));
    }
}
