ghost use Rattle.std.specs.Prelude.{◌≡◌, ℕ, ◌<◌, ◌≤◌, ◌&&◌, length, if◌then◌else◌, sum, true, false, MatchOption, nat_le, nat_lt, slice_index};
ghost use Rattle.plan.specs.Drafts.{bad_shape, step_of};

use crate::draft::Draft;
use interference::transmission::Transmission;

/// How many transmissions the counts add up to.
fn total(counts: &[u16]) -> usize
    requires { length counts.now ≤ 256 }
    ensures { result ≡ sum counts.now }
{
    counts.iter().map(|count| usize::from(*count)).sum()
}

/// Whether the steps are not from 1 to 256, the transmissions are over 256, or the counts do not add up to them.
fn is_misshapen(transmissions: &[Transmission], counts: &[u16]) -> bool
    ensures { result ≡ bad_shape transmissions.now counts.now }
{
    counts.len() < 1
        || counts.len() > 256
        || transmissions.len() > 256
        || total(counts) != transmissions.len()
}

/// A draft of a good shape: it has from 1 to 256 steps and not over 256 transmissions, and the counts add up to them.
#[derive(Clone, Copy)]
pub(crate) struct Shaped<'a> {
    pub(crate) transmissions: &'a [Transmission],
    pub(crate) counts: &'a [u16],
    ghost some: { 1 ≤ length counts.now },
    ghost few: { length counts.now ≤ 256 },
    ghost short: { length transmissions.now ≤ 256 },
    ghost adds: { sum counts.now ≡ length transmissions.now },
}

impl<'a> Draft<'a> {
    /// The draft, if its shape is good.
    pub(crate) fn shaped(self) -> Option<Shaped<'a>>
        ensures { MatchOption result (bad_shape self.entry.transmissions.now self.entry.counts.now ≡ true) (λ s. (bad_shape self.entry.transmissions.now self.entry.counts.now ≡ false) × (s.transmissions.now ≡ self.entry.transmissions.now) × (s.counts.now ≡ self.entry.counts.now)) }
    {
        if is_misshapen(self.transmissions, self.counts) {
            return None;
        }
        Some(Shaped {
            transmissions: self.transmissions,
            counts: self.counts,
        })
    }
}

/// Writes the step at the places from `from` up to `to`.
fn mark(table: &mut [u16], from: usize, to: usize, step: u16)
    requires { (from ≤ to) × (to ≤ length table.old) }
    ensures { (k : ℕ) → slice_index table.new k ≡ (if nat_le from k && nat_lt k to then step else slice_index table.old k) }
{
    table[from..to].fill(step);
}

impl Shaped<'_> {
    /// The step of each transmission, by its place.
    pub(crate) fn step_table(self) -> [u16; 256]
        ensures { (k : ℕ) → k < sum self.entry.counts.now → slice_index result k ≡ step_of self.entry.counts.now k }
    {
        let mut table = [0; 256];
        let mut at = 0;
        for (i, count) in self.counts.iter().enumerate() {
            let end = at + usize::from(*count);
            mark(&mut table, at, end, i as u16);
            at = end;
        }
        table
    }
}
