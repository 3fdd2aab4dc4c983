//! What happens on a network.

ghost use Rattle.std.specs.Prelude.{◌≡◌};
ghost use Rattle.sacn_network.specs.Contests.{takes_part};

use sacn_monitor::{Endpoint, News, Stream};
use sacn_packets::PacketFault;

/// So many sources light a universe at its top priority (E1.31, 6.2.3). Where these are two or more, their levels are merged.
#[derive(Clone, Copy, Debug, PartialEq, Eq)]
pub struct Contest {
    /// The universe, 1 to 63999 (E1.31, 6.2.7).
    pub universe: u16,
    /// How many sources light it at that priority, 0 where none does.
    pub sources: usize,
    /// The greatest priority of the sources that light it, 0 to 200; 0 where none does.
    pub priority: u8,
}

impl Contest {
    /// Whether a source lights the universe at that priority at a moment.
    pub fn has(&self, at: u64, stream: &Stream) -> bool
        ensures { result ≡ takes_part at self.now stream.now }
    {
        stream.lights(self.universe, at) & (stream.priority_at(at) == self.priority)
    }
}

/// What happened. A place is that of a stream among the monitor's `streams`.
#[derive(Clone, Copy, PartialEq, Eq)]
pub enum What {
    /// The source at this place fell silent for 2500 ms (E1.31, 6.7.1).
    Lost(usize),
    /// A packet of the source at this place told these news.
    Heard(usize, News),
    /// A datagram of this sender is no packet of the standard.
    Refused(Endpoint, PacketFault),
    /// A data packet of this sender is of a source on a universe for which there is no room.
    Untracked(Endpoint),
    /// So many sources light a universe at its top priority from now on: two or more, where it was fewer, or fewer, where it was
    /// two or more.
    Contest(Contest),
}

/// What happened, and when.
#[derive(Clone, Copy, PartialEq, Eq)]
pub struct Occurrence {
    /// Milliseconds.
    pub at: u64,
    pub what: What,
}
