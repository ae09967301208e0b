// What a survey of a site says, for the generator and for the naive scheduler: types of their own, since the naive
// scheduler shares nothing with the product but the type of a record.

/// `to` hears `from`.
#[derive(Clone, Copy)]
pub struct Edge {
    pub from: u8,
    pub to: u8,
}

/// `child` transmits to `parent`, in so many slots of a round.
#[derive(Clone, Copy)]
pub struct Link {
    pub child: u8,
    pub parent: u8,
    pub slots: u8,
}
