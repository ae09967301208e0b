ghost use Rattle.std.specs.Prelude.{◌≡◌, ◌<◌, ◌≤◌, length, MatchResult};
ghost use Rattle.plan.specs.Plans.{ApprovalDone, empty_plan, length_of, part_of, plan_of};

use crate::approved::ApprovedPlan;
use crate::draft::Draft;
use crate::fault::ApprovalFault;
use crate::judge::judge;
use interference::model::Interference;
use interference::transmission::Transmission;
use routing::link::TreeLink;

/// There is no such step.
#[derive(Clone, Copy, PartialEq, Eq, Debug)]
pub struct NoSuchStep;

impl ApprovedPlan {
    /// A new place: one empty step.
    pub fn new() -> ApprovedPlan
        ensures { plan_of result ≡ empty_plan }
    {
        ApprovedPlan {
            transmissions: [Transmission::default(); 256],
            counts: [0; 256],
            starts: [0; 256],
            size: 0,
            steps: 1,
            distance: 1,
        }
    }

    /// The number of steps.
    pub fn length(&self) -> u16
        ensures value { result ≡ length_of (plan_of self.now) }
        ensures bound { (1 ≤ result) × (result ≤ 256) }
    {
        self.steps
    }

    /// The minimum step distance: steps so far apart, or farther, do not conflict.
    pub fn distance(&self) -> u16
        ensures value { result ≡ (plan_of self.now).distance }
        ensures bound { 1 ≤ result }
    {
        self.distance
    }

    /// The transmissions of a step, as that part of the plan.
    pub fn step(&self, step: usize) -> Result<&[Transmission], NoSuchStep>
        ensures { MatchResult result (λ part. (step < length_of (plan_of self.now)) × (part.now ≡ part_of (plan_of self.now) step)) (λ _. length_of (plan_of self.now) ≤ step) }
    {
        if step >= self.length() as usize {
            return Err(NoSuchStep);
        }
        let start = self.starts[step] as usize;
        let end = start + self.counts[step] as usize;
        Ok(&self.transmissions[start..end])
    }

    // The caller lends the place: a rule of the product.
    /// Fills the place with the draft, if it can be approved for the tree and the model; a refusal leaves the place
    /// as it was.
    pub fn approve<M: Interference>(
        &mut self,
        tree: &[TreeLink],
        draft: Draft<'_>,
        model: &M,
    ) -> Result<(), ApprovalFault>
        ensures { ApprovalDone (M.nodes model.now) (M.conflict model.now) tree.now draft.entry.transmissions.now draft.entry.counts.now (plan_of self.old) (plan_of self.new) result }
    {
        let (shaped, distance) = judge(model, tree, draft)?;
        *self = shaped.laid_out(distance);
        Ok(())
    }
}
