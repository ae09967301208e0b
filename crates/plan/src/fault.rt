ghost use Rattle.std.specs.Prelude.{◌≡◌};
ghost use Rattle.plan.specs.Faults.{approval_code, approval_place};
ghost use Rattle.plan.specs.declared.fault.ApprovalFault.TheVariants.{Tree};

use routing::fault::TreeFault;

/// Why a draft is not approved. A position counts transmissions from 0 and names the first offender.
#[derive(Clone, Copy, PartialEq, Eq, Debug)]
pub enum ApprovalFault {
    /// The routing tree is refused.
    Tree(TreeFault),
    /// The steps are not from 1 to 256, the transmissions are over 256, or the counts do not add up to them.
    Shape,
    /// The transmission does not go from a child to its parent.
    NotToParent(usize),
    /// The transmission conflicts with an earlier one of its step.
    Conflicting(usize),
    /// The smallest node that has not as many transmissions as slots.
    SlotCount(usize),
    /// A child of the sender transmits in the same or a later step.
    OutOfOrder(usize),
}

impl ApprovalFault {
    /// The number that the refusal is reported by.
    pub fn code(self) -> u8
        ensures { result ≡ approval_code self }
    {
        match self {
            ApprovalFault::Tree(fault) => fault.code(),
            ApprovalFault::Shape => 5,
            ApprovalFault::NotToParent(_) => 6,
            ApprovalFault::Conflicting(_) => 7,
            ApprovalFault::SlotCount(_) => 8,
            ApprovalFault::OutOfOrder(_) => 9,
        }
    }

    /// The position of the first offender, or the smallest such node, where the refusal has one.
    pub fn position(self) -> Option<usize>
        ensures { result ≡ approval_place self }
    {
        match self {
            ApprovalFault::Tree(fault) => fault.position(),
            ApprovalFault::Shape => None,
            ApprovalFault::NotToParent(at) => Some(at),
            ApprovalFault::Conflicting(at) => Some(at),
            ApprovalFault::SlotCount(node) => Some(node),
            ApprovalFault::OutOfOrder(at) => Some(at),
        }
    }
}

impl From<TreeFault> for ApprovalFault {
    ghost from_gives = { λ f r. r ≡ Tree f };

    fn from(f: TreeFault) -> ApprovalFault {
        ApprovalFault::Tree(f)
    }
}
