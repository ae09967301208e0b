// The fields of a record, by how many bytes they have.
ghost use Rattle.std.specs.Prelude.{◌≡◌, ℕ, ◌≤◌};

/// A number of one, two or four bytes.
pub(crate) trait Field: Copy {
    /// The most that the field holds.
    const MOST: u32;

    ghost MOST: { ℕ };

    // The number that a value is.
    ghost number: { Self → ℕ };

    fn holding(n: u32) -> Self
        requires { n ≤ MOST }
        ensures { number result ≡ n };
}

impl Field for u8 {
    const MOST: u32 = 0xff;

    ghost MOST = { 255 };

    ghost number = { λ n. n };

    fn holding(n: u32) -> u8 {
        n as u8
    }
}

impl Field for u16 {
    const MOST: u32 = 0xffff;

    ghost MOST = { 65535 };

    ghost number = { λ n. n };

    fn holding(n: u32) -> u16 {
        n as u16
    }
}

impl Field for u32 {
    const MOST: u32 = 0xffff_ffff;

    ghost MOST = { 4294967295 };

    ghost number = { λ n. n };

    fn holding(n: u32) -> u32 {
        n
    }
}
