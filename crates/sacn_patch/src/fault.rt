//! Why a patch takes no slot.
ghost use Rattle.std.specs.Prelude.{◌≡◌};
ghost use Rattle.sacn_patch.specs.declared.fault.PatchFault.TheVariants.{OutOfMemory};

use std::alloc::{AllocError, AllocFailed};
use thiserror::Error;

/// Why `Patch::add` or `Patch::try_copy` is refused. The patch is then as it was.
///
/// `add` makes its checks in the order `ChannelRange`, `SlotRange`, `SlotTaken`, and only then asks
/// for memory. Each fault has a number of its own, which `number` gives.
#[derive(Clone, Copy, Debug, PartialEq, Eq, Error)]
pub enum PatchFault {
    /// A request for memory was refused.
    #[error("out of memory")]
    OutOfMemory = 1,
    /// The channel isn't 1 to `MAX_CHANNELS`.
    #[error("the channel is out of range")]
    ChannelRange = 2,
    /// The universe isn't 1 to `MAX_UNIVERSE`, the slot isn't 1 to `SLOTS`, or the channel is wide
    /// and the slot is the last one.
    #[error("the universe or the slot is out of range")]
    SlotRange = 3,
    /// The slot, or the next one where the channel is wide, shows a channel already.
    #[error("the slot is taken")]
    SlotTaken = 4,
}

impl PatchFault {
    ghost use Rattle.sacn_patch.specs.PatchFaults.{fault_number};

    /// The fault's number, from 1 to 4.
    pub fn number(self) -> u8
        ensures { result ≡ fault_number self }
    {
        self as u8
    }
}

impl From<AllocError> for PatchFault {
    ghost from_gives = { λ _ fault. fault ≡ OutOfMemory };

    fn from(_refused: AllocError) -> PatchFault {
        PatchFault::OutOfMemory
    }
}

impl<T: Drop> From<AllocFailed<T>> for PatchFault {
    ghost from_gives = { λ _ fault. fault ≡ OutOfMemory };

    fn from(_refused: AllocFailed<T>) -> PatchFault {
        PatchFault::OutOfMemory
    }
}
