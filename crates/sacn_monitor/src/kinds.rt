//! How many packets there were of each kind.

ghost use Rattle.std.specs.Prelude.{◌≡◌};
ghost use Rattle.sacn_monitor.specs.Kinds.{no_packets, with_one_more, total};

use sacn_sources::Kind;

/// How many packets were taken of each kind. Each count stops at 2^64 - 1.
#[derive(Clone, Copy, PartialEq, Eq)]
pub struct Kinds {
    /// Levels for the stage: start code 0 (E1.11).
    pub live: u64,
    /// Preview_Data is set (E1.31, 6.2.6).
    pub previews: u64,
    /// Stream_Terminated is set (E1.31, 6.2.6).
    pub terminations: u64,
    /// Another start code than 0.
    pub others: u64,
}

impl Kinds {
    /// All of them, at most 2^64 - 1.
    pub fn total(&self) -> u64
        ensures { result ≡ total self.now }
    {
        self.live
            .saturating_add(self.previews)
            .saturating_add(self.terminations)
            .saturating_add(self.others)
    }

    /// No packet yet.
    pub(crate) fn none() -> Self
        ensures { result ≡ no_packets }
    {
        Kinds {
            live: 0,
            previews: 0,
            terminations: 0,
            others: 0,
        }
    }

    /// One packet more, of this kind.
    pub(crate) fn count(&mut self, kind: Kind)
        ensures { self.new ≡ with_one_more kind self.old }
    {
        match kind {
            Kind::Termination => self.terminations = self.terminations.saturating_add(1),
            Kind::Preview => self.previews = self.previews.saturating_add(1),
            Kind::Live => self.live = self.live.saturating_add(1),
            Kind::Other => self.others = self.others.saturating_add(1),
        }
    }
}
