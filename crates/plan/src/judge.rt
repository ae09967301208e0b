ghost use Rattle.std.specs.Prelude.{◌≡◌, ◌<◌, ◌≤◌, length, None, Some, Ok, Err, MatchResult, position, slice_index};
ghost use Rattle.plan.specs.Approval.{Judged, comes_late, conflicts_with, is_stray, is_uneven, sent_by, step_fault};
ghost use Rattle.std.specs.List.{list_any, range_with_len};

use crate::draft::Draft;
use crate::fault::ApprovalFault;
use crate::placed::Placed;
use crate::shape::Shaped;
use interference::model::Interference;
use interference::transmission::Transmission;
use routing::link::TreeLink;
use routing::routes::{Routes, read_tree};

/// Whether the transmission does not go from a child to its parent.
// n is at most 64 here and in two below: a type for a number of nodes would be taken apart in each.
fn is_stray(n: u8, parents: &[u8; 64], t: Transmission) -> bool
    requires { n ≤ 64 }
    ensures { result ≡ is_stray n parents.now t }
{
    t.from == 0 || t.from >= n || parents[usize::from(t.from)] != t.to
}

/// The first transmission that does not go from a child to its parent.
fn first_stray(n: u8, parents: &[u8; 64], transmissions: &[Transmission]) -> Option<usize>
    requires { n ≤ 64 }
    ensures { result ≡ position (is_stray n parents.now) transmissions.now }
{
    transmissions.iter().position(|t| is_stray(n, parents, *t))
}

/// How many transmissions the node sends.
fn sent_by(transmissions: &[Transmission], node: u8) -> usize
    ensures { result ≡ sent_by transmissions.now node }
{
    transmissions.iter().filter(|t| t.from == node).count()
}

/// Whether the node is not the base station and has not as many transmissions as slots.
fn is_uneven(slots: &[u8; 64], transmissions: &[Transmission], node: u8) -> bool
    requires { node < 64 }
    ensures { result ≡ is_uneven slots.now transmissions.now node }
{
    node > 0 && sent_by(transmissions, node) != usize::from(slots[usize::from(node)])
}

/// The smallest node but the base station that has not as many transmissions as slots.
fn first_uneven(n: u8, slots: &[u8; 64], transmissions: &[Transmission]) -> Option<usize>
    requires { n ≤ 64 }
    ensures { result ≡ position (is_uneven slots.now transmissions.now) (range_with_len 0 n) }
{
    (0..n).position(|node| is_uneven(slots, transmissions, node))
}

// Places j and k are bounded where they are read: a type for a place would have to name the list that it is in.
impl<M: Interference> Placed<'_, M> {
    /// Whether the transmissions at j and k are of one step and conflict.
    fn conflicts_with(&self, j: usize, k: usize) -> bool
        requires { (j < length self.now.transmissions.now) × (k < length self.now.transmissions.now) }
        ensures { result ≡ conflicts_with (M.conflict self.now.model.now) self.now.transmissions.now (λ i. slice_index self.now.steps i) k j }
    {
        self.steps[j] == self.steps[k]
            && self
                .model
                .conflicts(self.transmissions[j], self.transmissions[k])
    }

    /// Whether the transmission at k conflicts with an earlier one of its step.
    fn conflicts_at(&self, k: usize) -> bool
        requires { k < length self.now.transmissions.now }
        ensures { result ≡ list_any (conflicts_with (M.conflict self.now.model.now) self.now.transmissions.now (λ i. slice_index self.now.steps i) k) (range_with_len 0 k) }
    {
        (0..k).any(|j| self.conflicts_with(j, k))
    }

    /// The first transmission that conflicts with an earlier one of its step.
    fn first_conflict(&self) -> Option<usize>
        ensures { result ≡ position (λ k. list_any (conflicts_with (M.conflict self.now.model.now) self.now.transmissions.now (λ i. slice_index self.now.steps i) k) (range_with_len 0 k)) (range_with_len 0 (length self.now.transmissions.now)) }
    {
        (0..self.transmissions.len()).position(|k| self.conflicts_at(k))
    }

    /// Whether the transmission at j goes to the sender of the one at k, in the same or a later step.
    fn comes_late(&self, j: usize, k: usize) -> bool
        requires { (j < length self.now.transmissions.now) × (k < length self.now.transmissions.now) }
        ensures { result ≡ comes_late self.now.transmissions.now (λ i. slice_index self.now.steps i) k j }
    {
        self.transmissions[j].to == self.transmissions[k].from && self.steps[k] <= self.steps[j]
    }

    /// Whether a child of the sender of the transmission at k transmits in the same or a later step.
    fn is_early(&self, k: usize) -> bool
        requires { k < length self.now.transmissions.now }
        ensures { result ≡ list_any (comes_late self.now.transmissions.now (λ i. slice_index self.now.steps i) k) (range_with_len 0 (length self.now.transmissions.now)) }
    {
        (0..self.transmissions.len()).any(|j| self.comes_late(j, k))
    }

    /// The first transmission with a child's transmission in the same or a later step.
    fn first_early(&self) -> Option<usize>
        ensures { result ≡ position (λ k. list_any (comes_late self.now.transmissions.now (λ i. slice_index self.now.steps i) k) (range_with_len 0 (length self.now.transmissions.now))) (range_with_len 0 (length self.now.transmissions.now)) }
    {
        (0..self.transmissions.len()).position(|k| self.is_early(k))
    }

    /// Refuses the first fault of the steps.
    fn check(&self, routes: &Routes) -> Result<(), ApprovalFault>
        ensures { MatchResult result (λ _. step_fault (M.nodes self.now.model.now) (M.conflict self.now.model.now) routes.now.parents routes.now.slots self.now.transmissions.now (λ i. slice_index self.now.steps i) ≡ None) (λ f. step_fault (M.nodes self.now.model.now) (M.conflict self.now.model.now) routes.now.parents routes.now.slots self.now.transmissions.now (λ i. slice_index self.now.steps i) ≡ Some f) }
    {
        let n = self.model.nodes();
        if let Some(at) = first_stray(n, &routes.parents, self.transmissions) {
            return Err(ApprovalFault::NotToParent(at));
        }
        if let Some(at) = self.first_conflict() {
            return Err(ApprovalFault::Conflicting(at));
        }
        if let Some(node) = first_uneven(n, &routes.slots, self.transmissions) {
            return Err(ApprovalFault::SlotCount(node));
        }
        if let Some(at) = self.first_early() {
            return Err(ApprovalFault::OutOfOrder(at));
        }
        Ok(())
    }
}

/// A draft that can be approved with its minimum step distance, or the one reason why it cannot.
pub(crate) fn judge<'a, M: Interference>(
    model: &M,
    tree: &[TreeLink],
    draft: Draft<'a>,
) -> Result<(Shaped<'a>, u16), ApprovalFault>
    ensures { MatchResult result (λ p. (p.0.transmissions.now ≡ draft.entry.transmissions.now) × (p.0.counts.now ≡ draft.entry.counts.now) × Judged (M.nodes model.now) (M.conflict model.now) tree.now draft.entry.transmissions.now draft.entry.counts.now (Ok p.1)) (λ f. Judged (M.nodes model.now) (M.conflict model.now) tree.now draft.entry.transmissions.now draft.entry.counts.now (Err f)) }
{
    let routes = read_tree(model, tree)?;
    let Some(shaped) = draft.shaped() else {
        return Err(ApprovalFault::Shape);
    };
    let placed = Placed {
        model,
        transmissions: shaped.transmissions,
        steps: shaped.step_table(),
    };
    placed.check(&routes)?;
    Ok((shaped, placed.widest() + 1))
}
