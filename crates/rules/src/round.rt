/// A running round: the number of its query, and the slot of its start.
#[derive(Clone, Copy, PartialEq, Eq, Debug, Default)]
pub struct Round {
    pub number: u32,
    pub start: u64,
}

/// What a running round does in a slot: the number of its query, and the step of the plan.
#[derive(Clone, Copy, PartialEq, Eq, Debug, Default)]
pub struct Line {
    pub number: u32,
    pub step: u32,
}
