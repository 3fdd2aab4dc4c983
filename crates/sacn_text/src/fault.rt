//! Why datagrams aren't all decoded, and why a simulation ends early.
ghost use Rattle.std.specs.Prelude.{◌≡◌};

use sacn_packets::PacketFault;
use sacn_world::{TextFault, WorldFault, WorldTextFault};
use thiserror::Error;

/// Why `decode_text` ends before the last datagram.
#[derive(Clone, Copy, Debug, PartialEq, Eq, Error)]
pub enum DecodeFault {
    /// No memory is left. A prefix of the text is written.
    #[error("out of memory")]
    OutOfMemory,
    /// The datagram of this index, from 0, is no packet. The texts of those before it are written.
    #[error("datagram {0} is no packet: {1}")]
    Refused(usize, PacketFault),
    /// The sink failed. A prefix of the text is written.
    #[error("the device failed")]
    WriteFailed,
}

impl DecodeFault {
    ghost use Rattle.sacn_text.specs.PrintingFaults.{decode_fault_number};

    /// The fault's number, from 1 to 3.
    pub fn number(self) -> u8
        ensures { result ≡ decode_fault_number self }
    {
        match self {
            DecodeFault::OutOfMemory => 1,
            DecodeFault::Refused(_, _) => 2,
            DecodeFault::WriteFailed => 3,
        }
    }
}

/// Why `sim_text` ends before the last event.
#[derive(Clone, Copy, Debug, PartialEq, Eq, Error)]
pub enum SimFault {
    /// No memory is left. A prefix of the lines is written.
    #[error("out of memory")]
    OutOfMemory,
    /// The world's text is refused. Nothing is written.
    #[error("the world is refused: {0}")]
    World(WorldTextFault),
    /// A line of the schedule is faulty. Nothing is written.
    #[error("the schedule is refused: {0}")]
    Schedule(TextFault),
    /// The event of this number, from 0, is refused. The lines of the looks before it are written.
    #[error("event {0} is refused: {1}")]
    Event(usize, WorldFault),
    /// The sink failed. A prefix of the lines is written.
    #[error("the device failed")]
    WriteFailed,
}

impl SimFault {
    ghost use Rattle.sacn_text.specs.PrintingFaults.{sim_fault_number};

    /// The fault's number, from 1 to 5.
    pub fn number(self) -> u8
        ensures { result ≡ sim_fault_number self }
    {
        match self {
            SimFault::OutOfMemory => 1,
            SimFault::World(_) => 2,
            SimFault::Schedule(_) => 3,
            SimFault::Event(_, _) => 4,
            SimFault::WriteFailed => 5,
        }
    }
}
