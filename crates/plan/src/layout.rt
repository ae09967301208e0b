ghost use Rattle.std.specs.Prelude.{◌≡◌, ℕ, ◌<◌, ◌≤◌, length, take, sum, slice_index};
ghost use Rattle.plan.specs.Plans.{plan_of};

use crate::approved::ApprovedPlan;
use crate::shape::Shaped;

/// The items at the front of a table.
fn table_of<T: Copy + Default>(items: &[T]) -> [T; 256]
    requires { length items.now ≤ 256 }
    ensures { take (length items.now) result ≡ items.now }
{
    let mut table = [T::default(); 256];
    let places = &mut table[..];
    places[0..items.len()].copy_from_slice(items);
    table
}

impl Shaped<'_> {
    /// Where each step starts.
    fn start_table(self) -> [u16; 256]
        ensures { (k : ℕ) → k < length self.entry.counts.now → slice_index result k ≡ sum (take k self.entry.counts.now) }
    {
        let mut starts = [0; 256];
        let mut at = 0;
        for (i, count) in self.counts.iter().enumerate() {
            starts[i] = at;
            at += *count;
        }
        starts
    }

    /// The plan with these steps and this distance.
    pub(crate) fn laid_out(self, distance: u16) -> ApprovedPlan
        requires { 1 ≤ distance }
        ensures { plan_of result ≡ record { transmissions = self.entry.transmissions.now; counts = self.entry.counts.now; distance = distance } }
    {
        ApprovedPlan {
            transmissions: table_of(self.transmissions),
            counts: table_of(self.counts),
            starts: self.start_table(),
            size: self.transmissions.len() as u16,
            steps: self.counts.len() as u16,
            distance,
        }
    }
}
