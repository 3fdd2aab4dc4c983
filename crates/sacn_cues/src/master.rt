//! A level after the grand master.
ghost use Rattle.std.specs.Prelude.{◌≡◌, ◌≤◌, ◌*◌, ◌/◌, ℕ};
ghost use Rattle.sacn_cues.specs.declared.limits.TheConstants.{FULL};

use crate::limits::FULL;

/// A level after the master.
pub(crate) fn mastered(level: u16, master: u16) -> u16
    ensures { result ≡ level * master / FULL }
{
    (level as u32 * master as u32 / FULL as u32) as u16
}

/// Where the grand master stands. A loop over all channels has it as a type, so that it tests once and
/// not at each channel.
pub(crate) trait GrandMaster {
    /// It stands there, by definition.
    ghost stands: { ℕ → Type 0 };

    /// A level after it.
    fn mastered(level: u16, master: u16) -> u16
        requires { stands master }
        ensures { result ≡ level * master / FULL };
}

/// At `FULL`, where each level stays as it is.
pub(crate) struct AtFull;

impl GrandMaster for AtFull {
    ghost stands = { λ master. master ≡ FULL };

    fn mastered(level: u16, _master: u16) -> u16 {
        level
    }
}

/// Anywhere from 0 to `FULL`.
pub(crate) struct Anywhere;

impl GrandMaster for Anywhere {
    ghost stands = { λ master. 0 ≤ master };

    fn mastered(level: u16, master: u16) -> u16 {
        mastered(level, master)
    }
}
