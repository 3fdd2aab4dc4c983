//! What a desk hands its datagrams to.
ghost use Rattle.std.specs.Prelude.{Option, None, [], ◌∷◌};
ghost use Rattle.sacn_edge.specs.Hearings.{Hands, Transcript};

use crate::desk_datagram::DeskDatagram;
use sacn_edge::Link;
use sacn_edge::memory::MemoryLink;

/// A device that takes the datagrams of a desk.
pub trait DeskLink {
    /// What was asked of it so far, where it tells that. A device of the machine tells nothing.
    ghost told: { Self → Option Transcript } = { λ _. None };

    /// Hands a datagram over. False where the device failed in this call.
    fn hand_over(&mut self, datagram: &DeskDatagram<'_>) -> bool
        ensures told { Hands (told self.old) (told self.new) ((datagram.now, result) ∷ []) };
}

/// A link over memory, for tests: it keeps what it is handed.
impl DeskLink for MemoryLink {
    ghost use Rattle.sacn_edge.specs.MemoryDevices.{link_told};

    ghost told = { link_told };

    fn hand_over(&mut self, datagram: &DeskDatagram<'_>) -> bool {
        self.send(datagram.octets())
    }
}
