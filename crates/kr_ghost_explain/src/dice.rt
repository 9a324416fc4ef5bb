//! Numbers that look random, the same in each run of the program.

/// What the next number comes from.
#[derive(Clone, Copy)]
pub(crate) struct Dice {
    state: u64,
}

impl Dice {
    /// Dice that were not cast yet.
    pub(crate) fn new() -> Dice {
        Dice { state: 2026 }
    }

    /// A number below a bound that isn't 0.
    pub(crate) fn below(&mut self, bound: u64) -> u64 {
        self.state = self.state.wrapping_add(0x9E37_79B9_7F4A_7C15);
        let mixed = self.state ^ (self.state >> 30);
        let mixed = mixed.wrapping_mul(0xBF58_476D_1CE4_E5B9);
        let mixed = mixed ^ (mixed >> 27);
        let mixed = mixed.wrapping_mul(0x94D0_49BB_1331_11EB);
        let mixed = mixed ^ (mixed >> 31);
        mixed.checked_rem(bound).unwrap_or(0)
    }

    /// Whether one of so many cases comes.
    pub(crate) fn one_in(&mut self, cases: u64) -> bool {
        self.below(cases) == 0
    }
}
