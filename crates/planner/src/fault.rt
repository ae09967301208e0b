ghost use Rattle.std.specs.Prelude.{◌≡◌};
ghost use Rattle.planner.specs.Faults.{plan_code, plan_place};
ghost use Rattle.planner.specs.declared.fault.PlanFault.TheVariants.{Tree};

use routing::fault::TreeFault;

/// Why the planner refuses.
#[derive(Clone, Copy, PartialEq, Eq, Debug)]
pub enum PlanFault {
    /// The routing tree is refused.
    Tree(TreeFault),
    /// A lent list has fewer than 256 places.
    ShortList,
}

impl PlanFault {
    /// The number that the refusal is reported by.
    pub fn code(self) -> u8
        ensures { result ≡ plan_code self }
    {
        match self {
            PlanFault::Tree(fault) => fault.code(),
            PlanFault::ShortList => 15,
        }
    }

    /// The position of the first offender, where the refusal has one.
    pub fn position(self) -> Option<usize>
        ensures { result ≡ plan_place self }
    {
        match self {
            PlanFault::Tree(fault) => fault.position(),
            PlanFault::ShortList => None,
        }
    }
}

impl From<TreeFault> for PlanFault {
    ghost from_gives = { λ f r. r ≡ Tree f };

    fn from(f: TreeFault) -> PlanFault {
        PlanFault::Tree(f)
    }
}
