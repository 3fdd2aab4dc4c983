//! The numbers that bound a console, and its times.
//!
//! Times are milliseconds.

/// The most universes of a console (profile). Their list fills two discovery pages.
pub const CONSOLE_UNIVERSES: usize = 1024;

/// The least time between two data packets on a universe: a change waits for it. The profile's: E1.31,
/// 6.6.1, bounds the rate by that of the DMX512-A line, some 44 frames a second, and 25 ms stay below it.
pub const MIN_GAP: u64 = 25;

/// The longest time without a data packet on a running universe (E1.31, 6.6.2: a source repeats
/// unchanged data every 800 to 1000 ms).
pub const KEEP_ALIVE: u64 = 900;

/// How many packets repeat a new one before only keep-alive packets follow (E1.31, 6.6.2).
pub const REPEATS: u8 = 3;

/// How many packets with Stream_Terminated end a universe (E1.31, 6.2.6).
pub const TERMINATIONS: u8 = 3;

/// From the first page of a discovery cycle to that of the next (E1.31, appendix A,
/// E131_UNIVERSE_DISCOVERY_INTERVAL: 10 seconds).
pub const DISCOVERY_INTERVAL: u64 = 10_000;

/// The most UDP ports to which a show is sent (profile).
pub const MAX_DESTINATIONS: usize = 8;

/// The priority of a show that names none (E1.31, 6.2.3).
pub const DEFAULT_PRIORITY: u8 = 100;

/// The octets of the longest datagram, a discovery page of 512 universes (E1.31, 8).
pub const MAX_DATAGRAM: usize = 1144;

/// The newest version of show files.
pub const NEWEST_SHOW: u8 = 2;
