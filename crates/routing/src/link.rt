ghost use Rattle.std.specs.Prelude.{◌≡◌};
ghost use Rattle.routing.specs.Tree.{bad_link};

/// A record of the routing tree: `child` sends to `parent`, in so many slots of each round.
#[derive(Clone, Copy, Default, PartialEq, Eq, Debug)]
pub struct TreeLink {
    pub child: u8,
    pub parent: u8,
    pub slots: u8,
}

impl TreeLink {
    /// Whether a number of the record is out of range at a site of n nodes, or the child is the base station or
    /// its own parent.
    pub(crate) fn is_bad(self, n: u8) -> bool
        ensures { result ≡ bad_link n self }
    {
        self.child >= n
            || self.parent >= n
            || self.slots < 1
            || self.slots > 4
            || self.child == 0
            || self.child == self.parent
    }
}
