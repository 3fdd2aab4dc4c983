//! Why a setup is refused.
ghost use Rattle.std.specs.Prelude.{◌≡◌};
ghost use Rattle.sacn_node.specs.declared.setup.fault.SetupFault.TheVariants.{OutOfMemory};

use sacn_files::faults::FileFault;
use std::alloc::{AllocError, AllocFailed};
use thiserror::Error;

/// The first phase of reading a setup that fails (profile).
#[derive(Clone, Copy, Debug, PartialEq, Eq, Error)]
pub enum SetupFault {
    /// A growth was refused; nothing was made.
    #[error("there isn't enough memory")]
    OutOfMemory = 1,
    /// The text isn't a TOML document.
    #[error("the text isn't TOML")]
    Toml = 2,
    /// A table lacks a key that it must have.
    #[error("a key is missing")]
    MissingKey = 3,
    /// A table has a key that isn't listed for it in this version.
    #[error("a key is unknown")]
    UnknownKey = 4,
    /// A value has the wrong kind or lies outside its range.
    #[error("a value has the wrong kind or range")]
    KeyValue = 5,
    /// The version is a whole number other than 1 and 2.
    #[error("the version is neither 1 nor 2")]
    Version = 6,
    /// Two ports have one number.
    #[error("a port's number stands twice")]
    PortTaken = 7,
    /// There are more than 16 ports, or more than 16 different universes.
    #[error("there are too many ports or universes")]
    Limit = 8,
    /// A range goes past slot 512 of its universe or of its port.
    #[error("a range goes past slot 512")]
    RangeEnd = 9,
    /// Two ranges of one port share a slot of the port.
    #[error("two ranges of a port overlap")]
    Overlap = 10,
}

impl SetupFault {
    ghost use Rattle.sacn_node.specs.SetupFaults.{setup_fault_number};

    /// The fault's number, from 1 to 10.
    pub fn number(self) -> u8
        ensures { result ≡ setup_fault_number self }
    {
        self as u8
    }
}

impl From<FileFault> for SetupFault {
    ghost use Rattle.sacn_node.specs.SetupFaults.{setup_fault_of};

    ghost from_gives = { λ fault setup_fault. setup_fault ≡ setup_fault_of fault };

    fn from(fault: FileFault) -> SetupFault {
        match fault {
            FileFault::OutOfMemory => SetupFault::OutOfMemory,
            FileFault::Toml => SetupFault::Toml,
            FileFault::MissingKey => SetupFault::MissingKey,
            FileFault::UnknownKey => SetupFault::UnknownKey,
            FileFault::KeyValue => SetupFault::KeyValue,
            FileFault::Version => SetupFault::Version,
        }
    }
}

impl From<AllocError> for SetupFault {
    ghost from_gives = { λ _ fault. fault ≡ OutOfMemory };

    fn from(_refused: AllocError) -> SetupFault {
        SetupFault::OutOfMemory
    }
}

impl<T: Drop> From<AllocFailed<T>> for SetupFault {
    ghost from_gives = { λ _ fault. fault ≡ OutOfMemory };

    fn from(_refused: AllocFailed<T>) -> SetupFault {
        SetupFault::OutOfMemory
    }
}
