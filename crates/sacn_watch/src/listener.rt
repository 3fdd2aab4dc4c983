//! Where a watch hears.

ghost use Rattle.std.specs.Prelude.{◌≡◌, true, ⊤};

use sacn_machine::memory::MemoryReceiver;
use sacn_machine::{Receiver, UdpReceiver};
use std::net::Net;
use std::rt::Clock;

/// A receiver of a watch.
pub trait Listener: Receiver {
    /// Whether its input may have ended. That of a device of the machine may end at any time.
    ghost Ended: { Self → Type 0 } = { λ _. ⊤ };

    /// Whether the watch is to end now.
    fn has_ended(&mut self) -> bool
        ensures told { Self.told self.new ≡ Self.told self.old }
        ensures ended { result ≡ true → Ended self.new };

    /// For how many milliseconds this program was stopped, since this was asked last. A clock that goes on meanwhile tells none.
    fn take_stop(&mut self) -> u64
        ensures told { Self.told self.new ≡ Self.told self.old };
}

impl<'a, R: Net + Clock> Listener for UdpReceiver<'a, R> {
    fn has_ended(&mut self) -> bool {
        self.input_ended()
    }

    fn take_stop(&mut self) -> u64 {
        0
    }
}

/// A list of datagrams. It never ends.
impl Listener for MemoryReceiver {
    ghost Ended = { λ _. ⊥ };

    fn has_ended(&mut self) -> bool {
        false
    }

    fn take_stop(&mut self) -> u64 {
        0
    }
}
