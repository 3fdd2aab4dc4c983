//! Numbers by chance, the same at each run of a seed.
ghost use Rattle.std.specs.Prelude.{◌<◌};

use rand_core::Rng;
use rand_pcg::Pcg32;

/// A source of numbers by chance.
#[derive(Drop)]
pub struct Chance {
    generator: Pcg32,
}

impl Chance {
    /// The numbers of a seed; each stream of them is another.
    pub fn new(seed: u32, stream: u64) -> Self {
        Chance {
            generator: Pcg32::new(u64::from(seed), stream),
        }
    }

    /// Any number.
    pub fn any(&mut self) -> u32 {
        self.generator.next_u32()
    }

    /// A number below a bound.
    pub fn below(&mut self, bound: u32) -> u32
        requires { 0 < bound }
        ensures { result < bound }
    {
        self.any() % bound
    }
}
