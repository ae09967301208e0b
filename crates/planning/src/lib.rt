//! From a routing tree to its approved plan in one call.
#![tactic(auto)]

ghost use Rattle.std.specs.Prelude.{◌≡◌, None};
ghost use Rattle.plan.specs.Plans.{plan_of};
ghost use Rattle.planning.specs.Always.{PlanApproved};
ghost use Rattle.planning.specs.Making.{Made};
ghost use Rattle.routing.specs.Tree.{tree_fault};

use interference::model::Interference;
use interference::transmission::Transmission;
use plan::approved::ApprovedPlan;
use plan::draft::Draft;
use plan::fault::ApprovalFault;
use planner::fault::PlanFault;
use planner::planner::{PlanSize, plan};
use routing::fault::TreeFault;
use routing::link::TreeLink;

/// Plans a tree and fills the place with the plan, approved for the model. Only the tree can be refused, and the place
/// is then as it was: what the planner makes from a sound tree is always approved.
// The caller lends the place that the plan fills: a rule of the product.
pub fn make_plan<M: Interference>(
    place: &mut ApprovedPlan,
    tree: &[TreeLink],
    model: &M,
) -> Result<(), TreeFault>
    ensures made { Made (M.nodes model.now) (M.conflict model.now) tree.now (plan_of place.old) (plan_of place.new) result }
    ensures always { tree_fault (M.nodes model.now) tree.now ≡ None → PlanApproved (M.nodes model.now) (M.conflict model.now) tree.now }
{
    let mut transmissions = [Transmission::default(); 256];
    let mut counts = [0; 256];
    // Of the two refusals one is passed on and one cannot be, which no `?` says.
    let PlanSize {
        transmissions: sent,
        steps,
    } = match plan(model, tree, &mut transmissions, &mut counts) {
        Ok(size) => size,
        Err(PlanFault::Tree(fault)) => return Err(fault),
        Err(PlanFault::ShortList) => unreachable(),
    };
    let draft = Draft {
        transmissions: &transmissions[0..sent],
        counts: &counts[0..steps],
    };
    // Nor here.
    match place.approve(tree, draft, model) {
        Ok(()) => Ok(()),
        Err(ApprovalFault::Tree(fault)) => Err(fault),
        Err(_) => unreachable(),
    }
}
