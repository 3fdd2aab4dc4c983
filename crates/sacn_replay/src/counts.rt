//! What a player has done so far.

/// How many records a player was asked for so far, by what it did. Each count stops at 2^64 - 1.
#[derive(Clone, Copy, Debug, PartialEq, Eq)]
pub struct ReplayCounts {
    /// Those that went out.
    pub sent: u64,
    /// Those that were due more than 2500 ms ago.
    pub stale: u64,
    /// Those that lie before what is played.
    pub passed: u64,
}

impl ReplayCounts {
    ghost use Rattle.std.specs.Prelude.{◌≡◌};
    ghost use Rattle.sacn_replay.specs.Steps.{no_counts};

    /// None.
    pub(crate) fn none() -> Self
        ensures { result ≡ no_counts }
    {
        ReplayCounts {
            sent: 0,
            stale: 0,
            passed: 0,
        }
    }
}
