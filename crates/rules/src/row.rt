use crate::phase::Phase;

/// A query in the table: its number, terms, earliest next release and phase.
#[derive(Clone, Copy, PartialEq, Eq, Debug, Default)]
pub struct Row {
    pub number: u32,
    pub priority: u8,
    pub period: u32,
    pub deadline: u32,
    pub earliest: u64,
    pub phase: Phase,
}
