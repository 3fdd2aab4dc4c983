//! What is asked of a workload.
use std::alloc::Global;

/// What is asked of a workload.
#[derive(Clone, Copy)]
pub struct Work {
    pub alloc: Global,
    pub seed: u32,
    /// How often it is done, each time on another input.
    pub rounds: u32,
}

impl Work {
    /// The seed of a round.
    pub fn seed_of(&self, round: u32) -> u32 {
        self.seed
            .wrapping_mul(747_796_405)
            .wrapping_add(round.wrapping_mul(2_891_336_453))
    }
}
