//! Why a recording isn't told to its end.

ghost use Rattle.std.specs.Prelude.{◌≡◌};
ghost use Rattle.sacn_tell.specs.declared.fault.TellFault.TheVariants.{OutOfMemory, Device};
ghost use Rattle.sacn_tell.specs.Faults.{IsMadeOf, IsOfTelling};

use sacn_capture::{CaptureFault, FaultKind};
use sacn_discovery::DiscoveryFault;
use sacn_sources::TableFault;
use std::alloc::AllocError;
use std::io;
use thiserror::Error;

/// Why a recording isn't told to its end.
#[derive(Debug, Drop, Error)]
pub enum ExplainFault {
    /// A growth was refused.
    #[error("there isn't enough memory")]
    OutOfMemory,
    /// The recording is wrong. What happened before that place was told.
    #[error("{0}")]
    Capture(CaptureFault),
    /// What is told can't be written.
    #[error("the text can't be written")]
    Device,
}

/// Why what happens can't be told. It is nothing of a recording's.
#[derive(Clone, Copy)]
pub enum TellFault {
    /// A growth was refused.
    OutOfMemory,
    /// What is told can't be written.
    Device,
}

impl From<AllocError> for TellFault {
    ghost from_gives = { λ _ fault. fault ≡ OutOfMemory };

    fn from(_fault: AllocError) -> Self {
        TellFault::OutOfMemory
    }
}

impl From<DiscoveryFault> for TellFault {
    ghost from_gives = { λ _ fault. fault ≡ OutOfMemory };

    fn from(_fault: DiscoveryFault) -> Self {
        TellFault::OutOfMemory
    }
}

impl From<TableFault> for TellFault {
    ghost from_gives = { λ _ fault. fault ≡ OutOfMemory };

    fn from(_fault: TableFault) -> Self {
        TellFault::OutOfMemory
    }
}

impl From<io::Error> for TellFault {
    ghost from_gives = { λ _ fault. fault ≡ Device };

    fn from(_fault: io::Error) -> Self {
        TellFault::Device
    }
}

impl From<TellFault> for ExplainFault {
    ghost from_gives = { λ _ fault. IsOfTelling fault };

    fn from(fault: TellFault) -> Self {
        match fault {
            TellFault::OutOfMemory => ExplainFault::OutOfMemory,
            TellFault::Device => ExplainFault::Device,
        }
    }
}

impl From<AllocError> for ExplainFault {
    ghost from_gives = { λ _ fault. IsOfTelling fault };

    fn from(_fault: AllocError) -> Self {
        ExplainFault::OutOfMemory
    }
}

impl From<DiscoveryFault> for ExplainFault {
    fn from(_fault: DiscoveryFault) -> Self {
        ExplainFault::OutOfMemory
    }
}

impl From<TableFault> for ExplainFault {
    fn from(_fault: TableFault) -> Self {
        ExplainFault::OutOfMemory
    }
}

impl From<io::Error> for ExplainFault {
    fn from(_fault: io::Error) -> Self {
        ExplainFault::Device
    }
}

impl From<CaptureFault> for ExplainFault {
    ghost from_gives = { IsMadeOf };

    fn from(fault: CaptureFault) -> Self {
        match fault.kind {
            FaultKind::OutOfMemory => ExplainFault::OutOfMemory,
            _ => ExplainFault::Capture(fault),
        }
    }
}
