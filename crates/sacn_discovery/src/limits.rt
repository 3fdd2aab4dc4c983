//! The numbers of the collector.

/// A source whose latest page came so many milliseconds ago, or more, is forgotten. The profile's: two
/// and a half of the standard's intervals of 10 seconds, so that one lost cycle forgets nobody.
pub const FORGOTTEN_AFTER: u64 = 25_000;
