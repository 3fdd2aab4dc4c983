//! Why something is refused.

use thiserror::Error;

/// Why a speed or a mapping of universes is refused.
#[derive(Clone, Copy, Debug, PartialEq, Eq, Error)]
pub enum ReplayFault {
    /// A speed of 0, or above 1000.
    #[error("a speed is 0.001 to 1000")]
    SpeedRange,
    /// A word that is no number of at most four digits and three decimals.
    #[error("a speed is 0.001 to 1000, as 2, 0.5 or 1.25")]
    SpeedWord,
    /// A universe that carries no data (E1.31, 6.2.7).
    #[error("a universe is 1 to 63999")]
    Universe,
    /// A universe that the list sends somewhere already.
    #[error("this universe is mapped already")]
    MappedTwice,
    /// A universe that the list sends another one to already.
    #[error("another universe is mapped to this number")]
    SameTarget,
    /// The list has 64 pairs.
    #[error("at most 64 universes are mapped")]
    TooMany,
}
