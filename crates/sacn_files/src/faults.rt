//! Why files and texts are refused.
ghost use Rattle.std.specs.Prelude.{◌≡◌};
ghost use Rattle.sacn_files.specs.declared.faults.TextFault.TheVariants.{OutOfMemory};

use std::alloc::{AllocError, AllocFailed};
use thiserror::Error;

/// Why a file is refused, of the causes that every kind of file has (profile).
///
/// The numbers are those of the same faults of setups, shows and worlds.
#[derive(Clone, Copy, Debug, PartialEq, Eq, Error)]
pub enum FileFault {
    /// A growth was refused; nothing was made.
    #[error("there isn't enough memory")]
    OutOfMemory = 1,
    /// The text isn't a TOML document.
    #[error("the text isn't TOML")]
    Toml = 2,
    /// A table lacks a key that it must have.
    #[error("a key is missing")]
    MissingKey = 3,
    /// A table has a key that isn't listed for it.
    #[error("a key is unknown")]
    UnknownKey = 4,
    /// A value has the wrong kind or lies outside its range.
    #[error("a value has the wrong kind or range")]
    KeyValue = 5,
    /// The version is a whole number that no reader knows.
    #[error("the version is unknown")]
    Version = 6,
}

impl FileFault {
    ghost use Rattle.sacn_files.specs.FileFaults.{file_fault_number};

    /// The fault's number, from 1 to 6.
    pub fn number(self) -> u8
        ensures { result ≡ file_fault_number self }
    {
        self as u8
    }
}

/// Why a script or a schedule is refused, with the faulty line, counted from 1 (profile).
#[derive(Clone, Copy, Debug, PartialEq, Eq, Error)]
pub enum TextFault {
    /// A growth was refused; nothing was made.
    #[error("there isn't enough memory")]
    OutOfMemory,
    /// The word that says what the line does isn't known.
    #[error("line {0}: a word is unknown")]
    UnknownWord(usize),
    /// The line has too few or too many words.
    #[error("line {0}: the count of words is wrong")]
    WordCount(usize),
    /// A word isn't a decimal number, or its number is too great for its field.
    #[error("line {0}: a number is wrong")]
    Number(usize),
    /// A word isn't octets in hexadecimal digits.
    #[error("line {0}: hexadecimal digits are wrong")]
    Hex(usize),
}

impl TextFault {
    ghost use Rattle.sacn_files.specs.FileFaults.{text_fault_number};

    /// The fault's number, from 1 to 5.
    pub fn number(self) -> u8
        ensures { result ≡ text_fault_number self }
    {
        match self {
            TextFault::OutOfMemory => 1,
            TextFault::UnknownWord(_) => 2,
            TextFault::WordCount(_) => 3,
            TextFault::Number(_) => 4,
            TextFault::Hex(_) => 5,
        }
    }
}

impl From<AllocError> for TextFault {
    ghost from_gives = { λ _ fault. fault ≡ OutOfMemory };

    fn from(_refused: AllocError) -> TextFault {
        TextFault::OutOfMemory
    }
}

impl<T: Drop> From<AllocFailed<T>> for TextFault {
    ghost from_gives = { λ _ fault. fault ≡ OutOfMemory };

    fn from(_refused: AllocFailed<T>) -> TextFault {
        TextFault::OutOfMemory
    }
}
