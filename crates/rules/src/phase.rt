/// Where a query stands. A waiting round has the slot since which it waits.
#[derive(Clone, Copy, PartialEq, Eq, Debug, Default)]
pub enum Phase {
    #[default]
    Booked,
    Ready,
    Waiting(u64),
    Leaving,
    LeavingWaiting(u64),
}
