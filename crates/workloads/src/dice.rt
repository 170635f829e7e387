//! Numbers that look random, the same for each seed.

/// A linear congruential generator, with the multiplier that Knuth gives for 64 bits. Its high bits are used.
#[derive(Drop)]
pub(crate) struct Dice(u64);

impl Dice {
    /// The generator of a seed.
    pub(crate) fn new(seed: u64) -> Dice {
        let mut dice = Dice(seed.wrapping_mul(0x9E37_79B9_7F4A_7C15));
        let _ = dice.roll();
        dice
    }

    /// A number of 32 bits.
    #[inline(always)]
    pub(crate) fn roll(&mut self) -> u32 {
        self.0 = self
            .0
            .wrapping_mul(6_364_136_223_846_793_005)
            .wrapping_add(1_442_695_040_888_963_407);
        (self.0 >> 32) as u32
    }

    /// A number of 64 bits.
    pub(crate) fn roll_long(&mut self) -> u64 {
        let high = u64::from(self.roll());
        high << 32 | u64::from(self.roll())
    }

    /// A number below a bound, or 0 where that is 0.
    #[inline(always)]
    pub(crate) fn below(&mut self, bound: u32) -> u32 {
        let product = u64::from(self.roll()).wrapping_mul(u64::from(bound));
        (product >> 32) as u32
    }

    /// The same for a bound of 64 bits.
    pub(crate) fn below_long(&mut self, bound: u64) -> u64 {
        let product = u128::from(self.roll_long()).wrapping_mul(u128::from(bound));
        (product >> 64 & u128::from(u64::MAX)) as u64
    }
}
