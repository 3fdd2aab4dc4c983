//! Where datagrams come from and go to.
ghost use Rattle.std.specs.Prelude.{◌≡◌, List, [], ◌∷◌, None, Option};
ghost use Rattle.sacn_edge.specs.Hearings.{Transcript, heard_of, FitsBuffer, Hears, Hands};

/// The octets of the buffer of a receive: a longer datagram is cut.
pub const BUFFER_OCTETS: usize = 2048;

/// What one receive answers.
#[derive(Clone, Copy, PartialEq, Eq)]
pub enum Received {
    /// Nothing is there.
    Nothing,
    /// A datagram of so many octets, at the front of the buffer.
    Datagram(usize),
    /// The device failed in this call.
    Failed,
}

/// A device that brings datagrams and takes them.
pub trait Link {
    /// What was asked of it so far, where it tells that. A device of the machine tells nothing.
    ghost told: { Self → Option Transcript } = { λ _. None };

    /// Receives once, without waiting.
    fn receive(&mut self, buffer: &mut [u8; BUFFER_OCTETS]) -> Received
        ensures fits { FitsBuffer result }
        ensures told { Hears (told self.old) (told self.new) (heard_of result buffer.new ∷ []) };

    /// Hands over a datagram. False where the device failed in this call.
    fn send(&mut self, datagram: &[u8]) -> bool
        ensures told { Hands (told self.old) (told self.new) ((datagram.now, result) ∷ []) };
}
