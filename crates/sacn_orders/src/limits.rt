//! The numbers that bound an order.

/// The most parts of a selection (profile).
pub const MAX_PARTS: usize = 64;

/// A full level in hundredths of a percent.
pub const FULL_HUNDREDTHS: u16 = 10_000;
