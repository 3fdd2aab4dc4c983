//! What a desk's datagrams go through.
ghost use Rattle.std.specs.Prelude.{◌≡◌, List, [], ◌∷◌, None, Option, is_ok};
ghost use Rattle.sacn_edge.specs.Additions.{Extends};
ghost use Rattle.sacn_machine.specs.Sendings.{Sending, sending};

use std::io::ErrorKind;
use std::net::SocketAddrV4;

/// A set of sockets, one for each destination, of which none waits.
pub trait Sockets {
    /// What was sent so far, where it tells that. A device of the machine tells nothing.
    ghost told: { Self → Option (List Sending) } = { λ _. None };

    /// Sends a datagram to the destination at a place, from 0, at a reading of the clock in milliseconds, without waiting. The
    /// error says why it isn't taken; `WouldBlock` where it can't be taken now, `TimedOut` where the host doesn't answer on its network.
    fn send(
        &mut self,
        place: usize,
        to: SocketAddrV4,
        now: u64,
        datagram: &[u8],
    ) -> Result<(), ErrorKind>
        ensures told { Extends (told self.old) (told self.new)
            (sending to datagram.now (is_ok result) ∷ []) };
}
