//! Why a show is refused.
ghost use Rattle.std.specs.Prelude.{◌≡◌};
ghost use Rattle.sacn_console.specs.declared.show.fault.ShowFault.TheVariants.{OutOfMemory};

use sacn_cues::CueFault;
use sacn_files::faults::FileFault;
use sacn_patch::PatchFault;
use std::alloc::{AllocError, AllocFailed};
use thiserror::Error;

/// Why a show is refused. Nothing was made.
///
/// The faults come in the order of the phases of reading: the document, its version, unknown keys,
/// missing keys, values, then the cues and the patch. Each fault has a number of its own, which
/// `number` gives.
#[derive(Clone, Copy, Debug, PartialEq, Eq, Error)]
pub enum ShowFault {
    /// A request for memory was refused.
    #[error("out of memory")]
    OutOfMemory = 1,
    /// The text isn't a TOML document.
    #[error("the text isn't TOML")]
    Toml = 2,
    /// A table lacks a key that it must have.
    #[error("a key is missing")]
    MissingKey = 3,
    /// A table has a key that isn't listed for it.
    #[error("a key is unknown")]
    UnknownKey = 4,
    /// A value has the wrong kind or lies outside its range.
    #[error("a value has the wrong kind or range")]
    KeyValue = 5,
    /// The version is a whole number other than 1 and 2.
    #[error("the version is unknown")]
    Version = 6,
    /// A cue is refused by the list of those before it.
    #[error("a cue is refused")]
    Cue = 7,
    /// An entry of the patch is refused by those before it, or names a universe that the show doesn't have.
    #[error("an entry of the patch is refused")]
    Patch = 8,
}

impl ShowFault {
    ghost use Rattle.sacn_console.specs.ConsoleFaults.{show_fault_number};

    /// The fault's number, from 1 to 8.
    pub fn number(self) -> u8
        ensures { result ≡ show_fault_number self }
    {
        self as u8
    }
}

impl From<FileFault> for ShowFault {
    ghost use Rattle.sacn_console.specs.ShowReading.{show_fault_of};

    ghost from_gives = { λ fault show_fault. show_fault ≡ show_fault_of fault };

    fn from(fault: FileFault) -> ShowFault {
        match fault {
            FileFault::OutOfMemory => ShowFault::OutOfMemory,
            FileFault::Toml => ShowFault::Toml,
            FileFault::MissingKey => ShowFault::MissingKey,
            FileFault::UnknownKey => ShowFault::UnknownKey,
            FileFault::KeyValue => ShowFault::KeyValue,
            FileFault::Version => ShowFault::Version,
        }
    }
}

impl From<CueFault> for ShowFault {
    ghost use Rattle.sacn_console.specs.ShowReading.{show_fault_of_cue};

    ghost from_gives = { λ fault show_fault. show_fault ≡ show_fault_of_cue fault };

    fn from(fault: CueFault) -> ShowFault {
        match fault {
            CueFault::OutOfMemory => ShowFault::OutOfMemory,
            _ => ShowFault::Cue,
        }
    }
}

impl From<PatchFault> for ShowFault {
    ghost use Rattle.sacn_console.specs.ShowReading.{show_fault_of_patch};

    ghost from_gives = { λ fault show_fault. show_fault ≡ show_fault_of_patch fault };

    fn from(fault: PatchFault) -> ShowFault {
        match fault {
            PatchFault::OutOfMemory => ShowFault::OutOfMemory,
            _ => ShowFault::Patch,
        }
    }
}

impl From<AllocError> for ShowFault {
    ghost from_gives = { λ _ fault. fault ≡ OutOfMemory };

    fn from(_refused: AllocError) -> ShowFault {
        ShowFault::OutOfMemory
    }
}

impl<T: Drop> From<AllocFailed<T>> for ShowFault {
    ghost from_gives = { λ _ fault. fault ≡ OutOfMemory };

    fn from(_refused: AllocFailed<T>) -> ShowFault {
        ShowFault::OutOfMemory
    }
}
