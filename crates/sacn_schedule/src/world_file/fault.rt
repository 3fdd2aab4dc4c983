//! Why a world's file is refused.
ghost use Rattle.std.specs.Prelude.{◌≡◌};
ghost use Rattle.sacn_schedule.specs.declared.world_file.fault.WorldTextFault.TheVariants.{OutOfMemory};

use sacn_console::ShowFault;
use sacn_files::faults::FileFault;
use sacn_node::SetupFault;
use std::alloc::AllocFailed;
use thiserror::Error;

/// Why a world's file is refused: the first phase of reading it that fails (profile). Nothing was made.
///
/// Consoles and nodes are counted from 0, in the file's order.
#[derive(Clone, Copy, Debug, PartialEq, Eq, Error)]
pub enum WorldTextFault {
    /// A request for memory was refused.
    #[error("out of memory")]
    OutOfMemory,
    /// The text isn't a TOML document.
    #[error("the text isn't TOML")]
    Toml,
    /// A table of the world lacks a key that it must have.
    #[error("a key is missing")]
    MissingKey,
    /// A table of the world has a key that isn't listed for it.
    #[error("a key is unknown")]
    UnknownKey,
    /// A value of the world has the wrong kind or lies outside its range.
    #[error("a value has the wrong kind or range")]
    KeyValue,
    /// The version is a whole number other than 1.
    #[error("the version is unknown")]
    Version,
    /// The show of this console is refused.
    #[error("console {0}: {1}")]
    Console(usize, ShowFault),
    /// The setup of this node is refused.
    #[error("node {0}: {1}")]
    Node(usize, SetupFault),
    /// The shows of two consoles have one CID.
    #[error("two consoles have one CID")]
    SameCid,
}

impl WorldTextFault {
    ghost use Rattle.sacn_schedule.specs.WorldFaults.{world_fault_number};

    /// The fault's number, from 1 to 9.
    pub fn number(self) -> u8
        ensures { result ≡ world_fault_number self }
    {
        match self {
            WorldTextFault::OutOfMemory => 1,
            WorldTextFault::Toml => 2,
            WorldTextFault::MissingKey => 3,
            WorldTextFault::UnknownKey => 4,
            WorldTextFault::KeyValue => 5,
            WorldTextFault::Version => 6,
            WorldTextFault::Console(_, _) => 7,
            WorldTextFault::Node(_, _) => 8,
            WorldTextFault::SameCid => 9,
        }
    }
}

impl From<FileFault> for WorldTextFault {
    ghost use Rattle.sacn_schedule.specs.WorldFaults.{world_fault_of};

    ghost from_gives = { λ fault world_fault. world_fault ≡ world_fault_of fault };

    fn from(fault: FileFault) -> WorldTextFault {
        match fault {
            FileFault::OutOfMemory => WorldTextFault::OutOfMemory,
            FileFault::Toml => WorldTextFault::Toml,
            FileFault::MissingKey => WorldTextFault::MissingKey,
            FileFault::UnknownKey => WorldTextFault::UnknownKey,
            FileFault::KeyValue => WorldTextFault::KeyValue,
            FileFault::Version => WorldTextFault::Version,
        }
    }
}

impl<T: Drop> From<AllocFailed<T>> for WorldTextFault {
    ghost from_gives = { λ _ fault. fault ≡ OutOfMemory };

    fn from(_refused: AllocFailed<T>) -> WorldTextFault {
        WorldTextFault::OutOfMemory
    }
}
