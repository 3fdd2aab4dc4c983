//! Where a gateway's datagrams come from.
ghost use Rattle.std.specs.Prelude.{◌≡◌, List, [], ◌∷◌, None, Option};
ghost use Rattle.sacn_edge.specs.Additions.{Extends};
ghost use Rattle.sacn_machine.specs.Hearings.{Hearing, hearing_of, FitsBuffer};

use sacn_edge::BUFFER_OCTETS;

/// The octets of an IPv4 address.
pub type Octets4 = [u8; 4];

/// What one receive brought.
#[derive(Clone, Copy, PartialEq, Eq)]
pub enum Arrival {
    /// Nothing is there.
    Nothing,
    /// A datagram of so many octets, at the front of the buffer, and the address that it came from.
    Datagram { octets: usize, sender: Octets4 },
    /// The device failed in this call.
    Failed,
}

/// What one receive brought, and the reading of the clock just before it.
#[derive(Clone, Copy)]
pub struct Receipt {
    /// Milliseconds.
    pub now: u64,
    pub arrival: Arrival,
}

/// A device with a clock that brings datagrams, and can wait for them.
pub trait Receiver {
    /// What was heard so far, where it tells that. A device of the machine tells nothing.
    ghost told: { Self → Option (List Hearing) } = { λ _. None };

    /// Waits until a datagram is there, or until its clock reads this moment, whichever comes first. It may
    /// come back before.
    fn wait(&mut self, until: u64)
        ensures told { told self.new ≡ told self.old };

    /// The UDP port that the latest datagram came from, 0 where the device doesn't tell.
    fn sender_port(&self) -> u16;

    /// Reads the clock, then receives once, without waiting.
    fn receive(&mut self, buffer: &mut [u8; BUFFER_OCTETS]) -> Receipt
        ensures fits { FitsBuffer result.arrival }
        ensures told { Extends (told self.old) (told self.new)
            (hearing_of result buffer.new ∷ []) };
}
