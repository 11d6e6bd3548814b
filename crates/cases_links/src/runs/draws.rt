//! Numbers that look drawn by lot, and are the same each time.

/// A linear congruential generator: from each state the next.
#[derive(Drop)]
pub(super) struct Draws {
    state: u64,
}

impl Draws {
    /// One that begins with this seed.
    pub(super) fn new(seed: u32) -> Draws {
        Draws {
            state: u64::from(seed),
        }
    }

    /// The next number, from 0 and below this bound, or 0 if the bound is 0.
    pub(super) fn below(&mut self, bound: u32) -> u32 {
        // Multiplier and increment of Knuth's MMIX; its high bits are the good ones.
        self.state = self
            .state
            .wrapping_mul(6_364_136_223_846_793_005)
            .wrapping_add(1_442_695_040_888_963_407);
        let high = self.state >> 33;
        let drawn = high.checked_rem(u64::from(bound)).unwrap_or(0);
        u32::try_from(drawn).unwrap_or(0)
    }
}
