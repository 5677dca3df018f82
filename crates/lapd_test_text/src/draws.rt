//! Random numbers and octets.

use rand_core::{Rng, SeedableRng};
use rand_pcg::Pcg32;

/// A sequence of random numbers, the same for the same seed.
#[derive(Drop)]
pub struct Draws {
    random: Pcg32,
}

impl Draws {
    /// Starts the sequence of this seed.
    pub fn new(seed: u64) -> Draws {
        Draws {
            random: Pcg32::seed_from_u64(seed),
        }
    }

    /// Draws a number below this one, or 0 if this one is 0.
    pub fn below(&mut self, limit: u32) -> u32 {
        self.random.next_u32().checked_rem(limit).unwrap_or(0)
    }

    /// Fills a buffer with random octets.
    pub fn fill(&mut self, octets: &mut [u8]) {
        self.random.fill_bytes(octets);
    }
}
