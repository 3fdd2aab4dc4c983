//! Why a source refuses a call.
ghost use Rattle.std.specs.Prelude.{◌≡◌};
ghost use Rattle.sacn_source.specs.declared.fault.SourceFault.TheVariants.{OutOfMemory};

use std::alloc::AllocError;
use thiserror::Error;

/// Why a call was refused. The source is then as it was.
///
/// Each fault has a number of its own, which `number` gives.
#[derive(Clone, Copy, Debug, PartialEq, Eq, Error)]
pub enum SourceFault {
    /// A request for memory was refused.
    #[error("out of memory")]
    OutOfMemory = 1,
    /// The universe isn't 1 to 63999.
    #[error("the universe is out of range")]
    BadUniverse = 2,
    /// The universe was never added.
    #[error("the source has no such universe")]
    NoUniverse = 3,
    /// The universe is running and can't be added.
    #[error("the universe is running")]
    Running = 4,
    /// The universe owes terminations: it can be neither ended nor added.
    #[error("the universe is ending")]
    Ending = 5,
    /// The universe is stopped and can't be ended.
    #[error("the universe is stopped")]
    Stopped = 6,
    /// There is no room for one more universe.
    #[error("the source is full")]
    Full = 7,
    /// There are more than 512 levels.
    #[error("there are more than 512 levels")]
    TooMany = 8,
    /// The priority is above 200.
    #[error("the priority is out of range")]
    BadPriority = 9,
}

impl SourceFault {
    ghost use Rattle.sacn_source.specs.SourceFaults.{source_fault_number};

    /// The fault's number, from 1 to 9.
    pub fn number(self) -> u8
        ensures { result ≡ source_fault_number self }
    {
        self as u8
    }
}

impl From<AllocError> for SourceFault {
    ghost from_gives = { λ _ fault. fault ≡ OutOfMemory };

    fn from(_refused: AllocError) -> SourceFault {
        SourceFault::OutOfMemory
    }
}
