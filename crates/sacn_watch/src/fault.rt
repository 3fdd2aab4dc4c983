//! Why a watch ends before its time.

ghost use Rattle.std.specs.Prelude.{◌≡◌};
ghost use Rattle.sacn_watch.specs.Faults.{watch_fault_of};
ghost use Rattle.sacn_watch.specs.declared.fault.WatchFault.TheVariants.{OutOfMemory, Device};

use sacn_sources::TableFault;
use sacn_tell::ExplainFault;
use std::alloc::AllocError;
use std::io;
use thiserror::Error;

/// Why a watch ends before its time.
#[derive(Clone, Copy, Debug, Drop, Error)]
pub enum WatchFault {
    /// A growth was refused.
    #[error("there isn't enough memory")]
    OutOfMemory,
    /// What is seen can't be written.
    #[error("the text can't be written")]
    Device,
}

impl From<AllocError> for WatchFault {
    ghost from_gives = { λ _ fault. fault ≡ OutOfMemory };

    fn from(_fault: AllocError) -> Self {
        WatchFault::OutOfMemory
    }
}

impl From<TableFault> for WatchFault {
    ghost from_gives = { λ _ fault. fault ≡ OutOfMemory };

    fn from(_fault: TableFault) -> Self {
        WatchFault::OutOfMemory
    }
}

impl From<io::Error> for WatchFault {
    ghost from_gives = { λ _ fault. fault ≡ Device };

    fn from(_fault: io::Error) -> Self {
        WatchFault::Device
    }
}

impl From<ExplainFault> for WatchFault {
    ghost from_gives = { λ fault watch_fault. watch_fault ≡ watch_fault_of fault };

    fn from(fault: ExplainFault) -> Self {
        match fault {
            ExplainFault::OutOfMemory => WatchFault::OutOfMemory,
            _ => WatchFault::Device,
        }
    }
}
