ghost use Rattle.std.specs.Prelude.{◌≤◌, length};

use interference::transmission::Transmission;

/// The transmissions of a draft, the step of each by its place, and the model that they are judged by.
// Two lists by place: the transmissions are lent, and pairs with their steps would copy them.
#[derive(Drop)]
pub(crate) struct Placed<'a, M> {
    pub(crate) model: &'a M,
    pub(crate) transmissions: &'a [Transmission],
    pub(crate) steps: [u16; 256],
    ghost few: { length transmissions.now ≤ 256 },
}
