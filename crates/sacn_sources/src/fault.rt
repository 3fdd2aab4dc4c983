//! Why a table could not be made.
ghost use Rattle.std.specs.Prelude.{◌≡◌};

use std::alloc::{AllocError, AllocFailed};
use thiserror::Error;

/// Why a table could not be made. A table that was made has no faults: it takes no further memory.
#[derive(Clone, Copy, Debug, Error)]
pub enum TableFault {
    /// A request for the table's room was refused.
    #[error("out of memory")]
    OutOfMemory = 1,
}

impl TableFault {
    ghost use Rattle.sacn_sources.specs.TableFaults.{table_fault_number};

    /// The fault's number, 1.
    pub fn number(self) -> u8
        ensures { result ≡ table_fault_number self }
    {
        self as u8
    }
}

impl From<AllocError> for TableFault {
    fn from(_refused: AllocError) -> TableFault {
        TableFault::OutOfMemory
    }
}

impl<T: Drop> From<AllocFailed<T>> for TableFault {
    fn from(_refused: AllocFailed<T>) -> TableFault {
        TableFault::OutOfMemory
    }
}
