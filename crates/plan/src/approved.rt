ghost use Rattle.std.specs.Prelude.{◌≡◌, ℕ, ◌<◌, ◌≤◌, take, sum, slice_index};

use interference::transmission::Transmission;

/// A plan that was approved: its transmissions step after step, and for each step how many it has and where they
/// start. Only approval fills it, so it is what an engine opens with.
// Arrays beside their lengths, and no ArrayVec: a plan is Copy, which an ArrayVec is not.
#[derive(Clone, Copy)]
pub struct ApprovedPlan {
    pub(crate) transmissions: [Transmission; 256],
    pub(crate) counts: [u16; 256],
    pub(crate) starts: [u16; 256],
    pub(crate) size: u16,
    pub(crate) steps: u16,
    pub(crate) distance: u16,
    ghost few: { size ≤ 256 },
    ghost some: { 1 ≤ steps },
    ghost long: { steps ≤ 256 },
    ghost positive: { 1 ≤ distance },
    ghost laid: { (k : ℕ) → k < steps → slice_index starts k ≡ sum (take k counts) },
    ghost whole: { sum (take steps counts) ≡ size },
}
