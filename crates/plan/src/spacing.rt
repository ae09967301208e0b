ghost use Rattle.std.specs.Prelude.{◌≡◌, ◌<◌, fold, length, max, slice_index};
ghost use Rattle.std.specs.List.{range_with_len};
ghost use Rattle.plan.specs.Spacing.{gap_of};

use crate::placed::Placed;
use interference::model::Interference;

impl<M: Interference> Placed<'_, M> {
    /// By how many steps the transmission at l comes after the one at k, where they conflict and no wider gap is known.
    // The model is asked only where the answer could be wider.
    fn wider(&self, widest: u16, k: usize, l: usize) -> u16
        requires { (k < length self.now.transmissions.now) × (l < length self.now.transmissions.now) }
        ensures { result ≡ max (gap_of (M.conflict self.now.model.now) self.now.transmissions.now (λ i. slice_index self.now.steps i) l k) widest }
    {
        let apart = self.steps[l].saturating_sub(self.steps[k]);
        if widest < apart
            && self
                .model
                .conflicts(self.transmissions[k], self.transmissions[l])
        {
            apart
        } else {
            widest
        }
    }

    // Folds and not `max`: the rule is the same recursion, and 0 where there is none.
    /// The widest gap to the transmission at l, or the one known where that is wider.
    fn widest_to(&self, known: u16, l: usize) -> u16
        requires { l < length self.now.transmissions.now }
        ensures { result ≡ fold (λ widest k. max (gap_of (M.conflict self.now.model.now) self.now.transmissions.now (λ i. slice_index self.now.steps i) l k) widest) known (range_with_len 0 (length self.now.transmissions.now)) }
    {
        (0..self.transmissions.len()).fold(known, |widest, k| self.wider(widest, k, l))
    }

    /// The widest gap between two transmissions that conflict.
    pub(crate) fn widest(&self) -> u16
        ensures { result ≡ fold (λ most l. fold (λ widest k. max (gap_of (M.conflict self.now.model.now) self.now.transmissions.now (λ i. slice_index self.now.steps i) l k) widest) most (range_with_len 0 (length self.now.transmissions.now))) 0 (range_with_len 0 (length self.now.transmissions.now)) }
    {
        (0..self.transmissions.len()).fold(0, |most, l| self.widest_to(most, l))
    }
}
