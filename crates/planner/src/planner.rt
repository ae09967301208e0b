ghost use Rattle.std.specs.Prelude.{◌≡◌, ◌≤◌, length, sum};
ghost use Rattle.planner.specs.Filled.{StepsFilled};
ghost use Rattle.planner.specs.Planner.{PlanDone, steps_from};

use crate::fault::PlanFault;
use crate::site::Site;
use interference::model::Interference;
use interference::transmission::Transmission;
use routing::link::TreeLink;
use routing::routes::read_tree;

/// How many transmissions and steps a plan has.
#[derive(Clone, Copy, PartialEq, Eq, Debug)]
pub struct PlanSize {
    pub transmissions: usize,
    pub steps: usize,
}

impl<M: Interference> Site<'_, M> {
    /// The slots of all nodes.
    fn total_slots(&self) -> usize
        ensures { result ≡ sum self.now.routes.now.slots }
    {
        self.routes.slots.iter().map(|k| usize::from(*k)).sum()
    }

    /// Fills step after step until no slot is left.
    fn fill_steps(&self, transmissions: &mut [Transmission], counts: &mut [u16]) -> PlanSize
        requires { (256 ≤ length transmissions.old) × (256 ≤ length counts.old) }
        ensures { StepsFilled (steps_from (M.conflict self.now.model.now) (M.nodes self.now.model.now) self.now.routes.now 256 self.now.routes.now.slots) transmissions.old counts.old transmissions.new counts.new result }
    {
        let mut left = self.routes.slots;
        let mut remaining = self.total_slots();
        let mut sent = 0;
        // By number, since the number of steps is answered, and each turn writes to both lists.
        for steps in 0..256 {
            if remaining == 0 {
                return PlanSize {
                    transmissions: sent,
                    steps,
                };
            }
            let size = self.fill_step(&mut left, &mut transmissions[sent..]);
            counts[steps] = size as u16;
            remaining -= size;
            sent += size;
        }
        PlanSize {
            transmissions: sent,
            steps: 256,
        }
    }
}

/// Fills the two lent lists with the plan of a tree, step after step, and answers how much of them it used.
pub fn plan<M: Interference>(
    model: &M,
    tree: &[TreeLink],
    transmissions: &mut [Transmission],
    counts: &mut [u16],
) -> Result<PlanSize, PlanFault>
    ensures { PlanDone (M.nodes model.now) (M.conflict model.now) tree.now transmissions.old counts.old transmissions.new counts.new result }
{
    let routes = read_tree(model, tree)?;
    if transmissions.len() < 256 || counts.len() < 256 {
        return Err(PlanFault::ShortList);
    }
    if model.nodes() == 1 {
        counts[0] = 0;
        return Ok(PlanSize {
            transmissions: 0,
            steps: 1,
        });
    }
    let site = Site {
        model,
        routes: &routes,
    };
    Ok(site.fill_steps(transmissions, counts))
}
