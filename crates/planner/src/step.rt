ghost use Rattle.std.specs.Prelude.{◌≡◌, ◌<◌, ◌≤◌, not, length, sum};
ghost use Rattle.planner.specs.Filled.{StepFilled};
ghost use Rattle.planner.specs.Planner.{step_from, to_parent};
ghost use Rattle.std.specs.List.{list_all};

use crate::site::Site;
use interference::model::Interference;
use interference::transmission::Transmission;

/// Whether the transmission conflicts with none of these.
fn is_free<M: Interference>(model: &M, sent: &[Transmission], t: Transmission) -> bool
    ensures { result ≡ list_all (λ s. not (M.conflict model.now s t)) sent.now }
{
    sent.iter().all(
        |s| -> bool
            ensures { result ≡ not (M.conflict model.entry.now s.now t) }
        { !model.conflicts(*s, t) },
    )
}

impl<M: Interference> Site<'_, M> {
    /// The node's transmission to its parent.
    fn to_parent(&self, node: u8) -> Transmission
        requires { node < 64 }
        ensures { result ≡ to_parent self.now.routes.now.parents node }
    {
        Transmission {
            from: node,
            to: self.routes.parents[usize::from(node)],
        }
    }

    /// Fills one step: writes its transmissions from the front of the list, counts the slots down, and answers how
    /// many transmissions the step has.
    pub(crate) fn fill_step(&self, left: &mut [u8; 64], out: &mut [Transmission]) -> usize
        requires { sum left.old ≤ length out.old }
        ensures { StepFilled (step_from (M.conflict self.now.model.now) (M.nodes self.now.model.now) self.now.routes.now left.old) out.old left.old out.new left.new result }
    {
        let mut ready = self.candidates(left);
        // The list is lent, and what it holds is counted beside it: a caller's list is no ArrayVec.
        let mut size = 0;
        while let Some(candidate) = ready.pop() {
            let t = self.to_parent(candidate.node);
            if is_free(self.model, &out[0..size], t) {
                out[size] = t;
                size += 1;
                left[usize::from(candidate.node)] -= 1;
            }
        }
        size
    }
}
