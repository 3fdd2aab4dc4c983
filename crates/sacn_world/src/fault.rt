//! Why a world refuses.

ghost use Rattle.std.specs.Prelude.{◌≡◌};

use thiserror::Error;

/// Why a world refused an event. Nothing of the world has then changed, clocks too.
///
/// Each fault has a number of its own, which `number` gives. `OutOfMemory` is found last.
#[derive(Clone, Copy, Debug, PartialEq, Eq, Error)]
pub enum WorldFault {
    /// There was no room.
    #[error("out of memory")]
    OutOfMemory = 1,
    /// There is no such console.
    #[error("there is no such console")]
    NoConsole = 2,
    /// There is no such node.
    #[error("there is no such node")]
    NoNode = 3,
    /// No such datagram was sent.
    #[error("no such datagram was sent")]
    NoDatagram = 4,
    /// The packet was sent `TOO_FAR_BEHIND` or more sends before the newest one of its life that was delivered to the node.
    #[error("the packet is too far behind")]
    TooFarBehind = 5,
    /// A packet of a later life of its source was delivered to the node.
    #[error("the packet is of an old life")]
    OldLife = 6,
    /// Noise that is a packet.
    #[error("the noise is a packet")]
    NoiseIsPacket = 7,
}

impl WorldFault {
    ghost use Rattle.sacn_world.specs.EventFaults.{world_fault_number};

    /// The fault's number, from 1 to 7.
    pub fn number(self) -> u8
        ensures { result ≡ world_fault_number self }
    {
        self as u8
    }
}

/// Where a run stopped, and why. The steps before have been taken, and no others.
#[derive(Clone, Copy)]
pub struct RunFault {
    /// The step, counted from 0.
    pub step: usize,
    /// Why its event was refused; `OutOfMemory` at step 0 also where there was no room for all answers.
    pub fault: WorldFault,
}

/// Why a world was not made.
///
/// Each fault has a number of its own, which `number` gives. `SameCid` is looked for first.
#[derive(Clone, Copy, Debug, Error)]
pub enum NewFault {
    /// There was no room.
    #[error("out of memory")]
    OutOfMemory = 1,
    /// Two consoles have one CID.
    #[error("two consoles have the same CID")]
    SameCid = 2,
}

impl NewFault {
    ghost use Rattle.sacn_world.specs.EventFaults.{new_fault_number};

    /// The fault's number, 1 or 2.
    pub fn number(self) -> u8
        ensures { result ≡ new_fault_number self }
    {
        self as u8
    }
}
