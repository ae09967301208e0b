ghost use Rattle.std.specs.Prelude.{◌≡◌, ◌^◌, ◌<◌, ◌≤◌, nat_le};
ghost use Rattle.interference.specs.Words.{bit_of, with_bit};

/// Bit k of the word, the lowest bit being 0.
pub(crate) fn bit(w: u64, k: u8) -> bool
    requires { k < 64 }
    ensures { result ≡ bit_of w k }
{
    (w >> k) & 1 == 1
}

/// Whether the word has a bit at or above n.
pub(crate) fn reaches(w: u64, n: usize) -> bool
    requires { n ≤ 64 }
    ensures { result ≡ nat_le (2 ^ n) w }
{
    n < 64 && w >> n != 0
}

/// The word with bit k set.
pub(crate) fn with_bit(w: u64, k: u8) -> u64
    requires { k < 64 }
    ensures { result ≡ with_bit w k }
{
    w | (1 << k)
}
