/// A call on an engine. `room` is the length of the list lent for the lines of a slot.
#[derive(Clone, Copy, PartialEq, Eq, Debug)]
pub enum Call {
    Book {
        priority: u8,
        period: u32,
        deadline: u32,
    },
    Trial {
        priority: u8,
        period: u32,
        deadline: u32,
    },
    Confirm {
        number: u32,
    },
    Withdraw {
        number: u32,
    },
    Release {
        number: u32,
    },
    Close {
        number: u32,
    },
    Slot {
        room: usize,
    },
}
