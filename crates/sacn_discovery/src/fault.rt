//! Why a page isn't kept.
ghost use Rattle.std.specs.Prelude.{◌≡◌};

use std::alloc::{AllocError, AllocFailed};
use thiserror::Error;

/// Why a collector refuses a call.
#[derive(Clone, Copy, Debug, PartialEq, Eq, Error)]
pub enum DiscoveryFault {
    /// No memory is left. The collector moved its clock and forgot old sources, and no more.
    #[error("out of memory")]
    OutOfMemory = 1,
}

impl DiscoveryFault {
    ghost use Rattle.sacn_discovery.specs.DiscoveryFaults.{discovery_fault_number};

    /// The fault's number, 1.
    pub fn number(self) -> u8
        ensures { result ≡ discovery_fault_number self }
    {
        self as u8
    }
}

impl From<AllocError> for DiscoveryFault {
    fn from(_refused: AllocError) -> DiscoveryFault {
        DiscoveryFault::OutOfMemory
    }
}

impl<T: Drop> From<AllocFailed<T>> for DiscoveryFault {
    fn from(_refused: AllocFailed<T>) -> DiscoveryFault {
        DiscoveryFault::OutOfMemory
    }
}
