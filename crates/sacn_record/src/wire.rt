//! Where datagrams come from.

ghost use Rattle.std.specs.Prelude.{◌≡◌, ◌≤◌, ◌∷◌, [], IfSome, List, None, Option, true, ⊤};
ghost use Rattle.sacn_edge.specs.Additions.{Extends};
ghost use Rattle.sacn_record.specs.Hearing.{Catch, catch_of};

use crate::heard::LONGEST_PAYLOAD;

/// A datagram that stands at the front of a buffer.
#[derive(Clone, Copy)]
pub struct Arrived {
    /// When it was received, in microseconds since 1970.
    pub moment: u64,
    /// The sender's address.
    pub sender: [u8; 4],
    pub sender_port: u16,
    /// How many octets it has.
    pub octets: usize,
}

/// What a receive brought, and the reading of the clock just before it.
#[derive(Clone, Copy)]
pub struct Caught {
    /// Milliseconds.
    pub now: u64,
    /// None where nothing was there, or the device failed in this call.
    pub arrived: Option<Arrived>,
}

/// A device with a clock that brings datagrams, and can wait for them.
pub trait Wire {
    /// What was caught so far, where it tells that. A device of the machine tells nothing.
    ghost told: { Self → Option (List Catch) } = { λ _. None };

    /// Whether its input may have ended. That of a device of the machine may end at any time.
    ghost Ended: { Self → Type 0 } = { λ _. ⊤ };

    /// Waits until a datagram is there, or until its clock reads this moment in milliseconds, whichever comes first. It may come back
    /// before.
    fn wait(&mut self, until: u64)
        ensures told { told self.new ≡ told self.old };

    /// Reads its clock, then receives once, without waiting. A longer datagram is cut.
    fn receive(&mut self, buffer: &mut [u8; LONGEST_PAYLOAD]) -> Caught
        ensures fits { IfSome result.arrived (λ arrived. arrived.octets ≤ 2048) }
        ensures told { Extends (told self.old) (told self.new) (catch_of result buffer.new ∷ []) };

    /// Whether the recording is to end now.
    fn has_ended(&mut self) -> bool
        ensures told { told self.new ≡ told self.old }
        ensures ended { result ≡ true → Ended self.new };
}
