ghost use Rattle.std.specs.Prelude.{◌≡◌};
ghost use Rattle.interference.specs.Transmissions.{apart, proper, share};

/// One transmission: the node that sends and the node that is meant to receive.
#[derive(Clone, Copy, Default, PartialEq, Eq, Debug)]
pub struct Transmission {
    pub from: u8,
    pub to: u8,
}

impl Transmission {
    /// Whether both nodes are below n, and differ.
    pub fn proper(self, n: u8) -> bool
        ensures { result ≡ proper n self }
    {
        self.from < n && self.to < n && self.from != self.to
    }

    /// Whether the two transmissions have a node in common.
    pub fn shares(self, other: Transmission) -> bool
        ensures { result ≡ share self other }
    {
        self.from == other.from
            || self.from == other.to
            || self.to == other.from
            || self.to == other.to
    }

    /// Whether both transmissions are proper and have no node in common.
    pub fn apart(self, n: u8, other: Transmission) -> bool
        ensures { result ≡ apart n self other }
    {
        self.proper(n) && other.proper(n) && !self.shares(other)
    }
}
