//! Numbers that look random, the same for the same seed.

// The golden ratio in 64 bits, which steps from state to state.
const STEP: u64 = 0x9E37_79B9_7F4A_7C15;

/// A generator of numbers: SplitMix64.
#[derive(Clone, Copy, Debug)]
pub struct Random {
    state: u64,
}

impl Random {
    /// The generator of one script of a job.
    pub fn of(seed: u64, job: u64, script: u64) -> Random {
        let mut random = Random { state: seed };
        random.state = random.word() ^ job.wrapping_mul(STEP);
        random.state = random.word() ^ script.wrapping_mul(STEP);
        random
    }

    /// The next number of 64 bits.
    pub fn word(&mut self) -> u64 {
        self.state = self.state.wrapping_add(STEP);
        let mixed = (self.state ^ (self.state >> 30)).wrapping_mul(0xBF58_476D_1CE4_E5B9);
        let mixed = (mixed ^ (mixed >> 27)).wrapping_mul(0x94D0_49BB_1331_11EB);
        mixed ^ (mixed >> 31)
    }

    /// The next number below a limit of at most 32 bits.
    pub fn below(&mut self, limit: u64) -> u64 {
        (self.word() >> 32).wrapping_mul(limit) >> 32
    }

    /// The next of so many numbers from a first one on.
    pub fn among(&mut self, first: u64, count: u64) -> u64 {
        first.wrapping_add(self.below(count))
    }
}
