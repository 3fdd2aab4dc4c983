//! The numbers of incidents.

/// Deeds of one source and one kind are one incident where they come within so many milliseconds of its first. A source sends
/// levels that stay the same each 800 to 1000 ms (E1.31, 6.6.2): where it falls silent at one moment, it is lost on each of its
/// universes within a second.
pub const SPAN: u64 = 1000;

/// The most incidents that are gathered at once. Where one more begins, the oldest is told as it is.
pub const MAX_OPEN: usize = 256;
