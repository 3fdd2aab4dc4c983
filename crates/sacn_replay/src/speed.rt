//! How fast a recording is played.

ghost use Rattle.std.specs.Prelude.{◌≡◌, ◌≤◌, Ok, Err};
ghost use Rattle.sacn_replay.specs.Speeds.{speed_with};

use crate::fault::ReplayFault;
use std::marker::Model;

/// The speed at which a recording was made, in thousandths.
pub const UNIT_SPEED: u32 = 1000;

/// The greatest speed, in thousandths; the least is 1.
pub const MAX_SPEED: u32 = 1_000_000;

/// How fast a recording is played. Its value is the number of thousandths of the speed at which it was made, 1 to 1 000 000.
#[derive(Clone, Copy, Debug, PartialEq, Eq)]
pub struct Speed {
    thousandths: u32,
}

impl Model for Speed {
    ghost use Rattle.std.specs.Prelude.{ℕ, ◌≤◌};

    ghost Value = { ℕ };

    ghost view = { λ s. s.thousandths };

    ghost invariant = { λ s. (1 ≤ s.thousandths) × (s.thousandths ≤ 1000000) };

    ghost inverse = { λ n. record { thousandths = n } };
}

impl Speed {
    /// A speed of so many thousandths.
    ///
    /// Errors: 0, or more than `MAX_SPEED`.
    pub fn new(thousandths: u32) -> Result<Self, ReplayFault>
        ensures { result ≡ speed_with thousandths }
    {
        if thousandths == 0 || thousandths > MAX_SPEED {
            return Err(ReplayFault::SpeedRange);
        }
        Ok(Speed { thousandths })
    }

    /// The number of thousandths.
    pub fn thousandths(&self) -> u32
        ensures value { result ≡ self.now }
        ensures least { 1 ≤ result }
        ensures most { result ≤ 1000000 }
    {
        self.thousandths
    }
}
