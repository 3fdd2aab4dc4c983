//! How many datagrams there were, by what they were.

ghost use Rattle.std.specs.Prelude.{◌≡◌};
ghost use Rattle.sacn_monitor.specs.Tallies.{nothing_tallied, refused_more};

use sacn_packets::{FAULT_NUMBERS, PacketFault};

/// How many datagrams there were. Each count stops at 2^64 - 1.
#[derive(Clone, Copy)]
pub struct Tally {
    /// All of them.
    pub datagrams: u64,
    /// Pages of universe discovery (E1.31, 8).
    pub pages: u64,
    /// Synchronization packets (E1.31, 6.3).
    pub syncs: u64,
    /// Data packets of pairs for which there was no room.
    pub untracked: u64,
    /// Those that are no packets, at the number of their fault (`PacketFault::number`).
    pub refused: [u64; FAULT_NUMBERS],
}

impl Tally {
    /// Nothing yet.
    pub(crate) fn none() -> Self
        ensures { result ≡ nothing_tallied }
    {
        Tally {
            datagrams: 0,
            pages: 0,
            syncs: 0,
            untracked: 0,
            refused: [0; FAULT_NUMBERS],
        }
    }

    /// One more datagram that is no packet.
    pub(crate) fn refuse(&mut self, fault: PacketFault)
        ensures { self.new ≡ refused_more fault self.old }
    {
        let number = usize::from(fault.number());
        self.refused[number] = self.refused[number].saturating_add(1);
    }
}
