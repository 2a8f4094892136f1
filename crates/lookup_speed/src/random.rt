//! Pseudo-random numbers. Equal seeds give equal numbers.
ghost use Rattle.std.specs.Prelude.{◌<◌};

/// The state of a generator (splitmix64).
#[derive(Clone, Copy)]
pub struct Random {
    state: u64,
}

impl Random {
    pub fn new(seed: u64) -> Random {
        Random { state: seed }
    }

    /// Returns the next number.
    pub fn number(&mut self) -> u64 {
        self.state = self.state.wrapping_add(0x9e37_79b9_7f4a_7c15);
        let mixed = (self.state ^ (self.state >> 30)).wrapping_mul(0xbf58_476d_1ce4_e5b9);
        let mixed = (mixed ^ (mixed >> 27)).wrapping_mul(0x94d0_49bb_1331_11eb);
        mixed ^ (mixed >> 31)
    }

    /// Returns the next number, below a bound.
    pub fn below(&mut self, bound: u32) -> u32
        requires { 0 < bound }
        ensures { result < bound }
    {
        self.address() % bound
    }

    /// Returns the next address (in host order).
    pub fn address(&mut self) -> u32 {
        (self.number() >> 32) as u32
    }

    /// Returns one of the items, or `None` if there are no items.
    pub fn pick<T: Copy>(&mut self, items: &[T]) -> Option<T> {
        let count = u32::try_from(items.len()).unwrap_or(u32::MAX);
        if count == 0 {
            return None;
        }
        items.get(self.below(count) as usize).copied()
    }
}
