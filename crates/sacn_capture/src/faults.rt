//! Why a recording is refused.

ghost use Rattle.std.specs.Prelude.{◌≡◌};
ghost use Rattle.sacn_capture.specs.declared.faults.FaultKind.TheVariants.{Device, OutOfMemory};

use std::alloc::{AllocError, AllocFailed};
use std::io;
use thiserror::Error;

/// What is wrong with a recording.
#[derive(Clone, Copy, Debug, Error)]
pub enum FaultKind {
    /// A growth was refused.
    #[error("there isn't enough memory")]
    OutOfMemory,
    /// The file's first octets are neither those of pcap nor those of pcapng, or a section's byte order can't be told.
    #[error("this is no pcap or pcapng file")]
    NotACapture,
    /// The format's version isn't 2 (pcap) or 1 (pcapng).
    #[error("the format's version is unknown")]
    Version,
    /// The recording's link type is none that is read here.
    #[error("the link type isn't one that is read here")]
    LinkType,
    /// A length lies, or is beyond what a reader takes.
    #[error("a length is wrong")]
    Length,
    /// An interface's ticks are finer than 64 bits count.
    #[error("the time resolution is too fine")]
    Resolution,
    /// A frame names an interface that its section hasn't described, or a section describes too many.
    #[error("an interface is unknown, or there are too many")]
    Interface,
    /// The file ends inside a header, a block or a frame.
    #[error("the file ends too early")]
    CutShort,
    /// The device that gives the file failed.
    #[error("the file can't be read")]
    Device,
}

impl From<AllocError> for FaultKind {
    ghost from_gives = { λ _ kind. kind ≡ OutOfMemory };

    fn from(_refused: AllocError) -> Self {
        FaultKind::OutOfMemory
    }
}

impl<T: Drop> From<AllocFailed<T>> for FaultKind {
    ghost from_gives = { λ _ kind. kind ≡ OutOfMemory };

    fn from(_refused: AllocFailed<T>) -> Self {
        FaultKind::OutOfMemory
    }
}

impl From<io::Error> for FaultKind {
    ghost from_gives = { λ _ kind. kind ≡ Device };

    fn from(_failed: io::Error) -> Self {
        FaultKind::Device
    }
}

/// What is wrong with a recording, and where.
#[derive(Clone, Copy, Debug, Error)]
#[error("at octet {at}: {kind}")]
pub struct CaptureFault {
    /// Where the header, the block or the frame begins that is wrong, in octets from the file's first.
    pub at: u64,
    pub kind: FaultKind,
}
