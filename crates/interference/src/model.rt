ghost use Rattle.std.specs.Prelude.{◌≡◌, ℕ, ◌≤◌, Bool, true, false};
ghost use Rattle.interference.specs.Transmissions.{proper, share};
ghost use Rattle.interference.specs.declared.transmission.Transmission.{Transmission};

use crate::transmission::Transmission;

/// An interference model. Its meaning is the number of nodes and the relation of conflicting transmissions;
/// every answer is read off that meaning, and a question changes nothing.
pub trait Interference {
    ghost nodes: { Self → ℕ };

    ghost conflict: { Self → Transmission → Transmission → Bool };

    /// How many nodes the site has, the base station among them.
    fn nodes(&self) -> u8
        ensures { result ≡ nodes self.now };

    /// Whether the two transmissions conflict.
    fn conflicts(&self, a: Transmission, b: Transmission) -> bool
        ensures { result ≡ conflict self.now a b };

    ghost least: { (m : Self) → 1 ≤ nodes m };

    ghost most: { (m : Self) → nodes m ≤ 64 };

    ghost symmetric: { (m : Self) (a b : Transmission) → conflict m a b ≡ conflict m b a };

    ghost shared: { (m : Self) (a b : Transmission) → share a b ≡ true → conflict m a b ≡ true };

    ghost improper: { (m : Self) (a b : Transmission) → proper (nodes m) a ≡ false → conflict m a b ≡ true };
}
