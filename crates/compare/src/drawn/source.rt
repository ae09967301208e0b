use std::alloc::Global;

/// A linear congruential generator, and the heap that what it draws lies on. Each file has its own, so that any file can
/// be made again by its index alone.
#[derive(Drop)]
pub struct Source {
    pub heap: Global,
    state: u64,
}

pub fn low_byte(x: u32) -> u8 {
    (x & 0xff) as u8
}

pub fn low_word(x: u32) -> u16 {
    (x & 0xffff) as u16
}

impl Source {
    pub fn new(heap: Global, index: u32) -> Source {
        let place = u64::from(index).wrapping_add(1);
        Source {
            heap,
            state: place.wrapping_mul(0x9e37_79b9_7f4a_7c15),
        }
    }

    /// A number below the bound; 0 where the bound is 0.
    pub fn below(&mut self, bound: u32) -> u32 {
        self.state = self
            .state
            .wrapping_mul(6_364_136_223_846_793_005)
            .wrapping_add(1_442_695_040_888_963_407);
        // The low bits of such a generator have short periods.
        let high = (self.state >> 33) as u32;
        high.checked_rem(bound).unwrap_or(0)
    }

    pub fn byte(&mut self, bound: u32) -> u8 {
        low_byte(self.below(bound))
    }

    pub fn word(&mut self, bound: u32) -> u16 {
        low_word(self.below(bound))
    }

    /// A place in a list of so many items.
    pub fn place(&mut self, count: usize) -> usize {
        let bound = u32::try_from(count).unwrap_or(0);
        self.below(bound) as usize
    }

    /// A byte from this one up.
    pub fn byte_from(&mut self, least: u8) -> u8 {
        let least = u32::from(least);
        let more = self.below(256u32.saturating_sub(least));
        low_byte(least.saturating_add(more))
    }

    pub fn one_in(&mut self, bound: u32) -> bool {
        self.below(bound) == 0
    }

    pub fn shuffle<T>(&mut self, items: &mut [T]) {
        for i in 1..items.len() {
            let j = self.place(i.saturating_add(1));
            if i < items.len() && j < items.len() {
                items.swap(i, j);
            }
        }
    }
}
