//! What shows the frames of a port.
ghost use Rattle.std.specs.Prelude.{Option, None, List, [], ◌∷◌};
ghost use Rattle.sacn_edge.specs.Additions.{Extends};
ghost use Rattle.sacn_machine.specs.declared.device.Offer.{Offer};

use sacn_packets::FRAME_OCTETS;
use std::io::ErrorKind;

/// The octets of a packet that sends a frame: four before it, and one after.
pub const WIDGET_OCTETS: usize = 4 + FRAME_OCTETS + 1;

/// Why a device failed.
#[derive(Clone, Copy, PartialEq, Eq)]
pub enum DeviceFault {
    /// Its file is there, and what stood behind it isn't any more.
    Unplugged,
    /// The machine has no descriptor left for its file.
    NoDescriptor,
    /// Any other fault of the machine.
    Other(ErrorKind),
}

/// What a device took of a packet.
#[derive(Clone, Copy)]
pub enum Took {
    /// All of it.
    Whole,
    /// Not all of it: it can take no more octets now.
    Later,
    /// The device failed in this call.
    Failed(DeviceFault),
}

/// A packet that a device was offered.
#[derive(Clone, Copy)]
pub struct Offer {
    /// The reading of the clock, in milliseconds.
    pub now: u64,
    pub packet: [u8; WIDGET_OCTETS],
    pub took: Took,
}

/// A device that takes packets.
pub trait Device {
    /// What it was offered so far, where it tells that. A device of the machine tells nothing.
    ghost told: { Self → Option (List Offer) } = { λ _. None };

    /// Takes a packet, or as much of it as it can now, without waiting.
    fn take(&mut self, now: u64, packet: &[u8; WIDGET_OCTETS]) -> Took
        ensures told { Extends (told self.old) (told self.new)
            (record { now = now; packet = packet.now; took = result } ∷ []) };
}
