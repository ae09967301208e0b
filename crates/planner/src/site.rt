ghost use Rattle.std.specs.Prelude.{ℕ, ◌<◌, ◌≤◌, sum, slice_index};

use routing::routes::Routes;

/// A site for which a plan is made: its model, and the routes of a tree that was read for it.
#[derive(Drop)]
pub(crate) struct Site<'a, M> {
    pub(crate) model: &'a M,
    pub(crate) routes: &'a Routes,
    ghost within: { (v : ℕ) → slice_index routes.now.parents v < 64 },
    ghost few: { sum routes.now.slots ≤ 256 },
}
