//! Numbers that the files of consoles and nodes share.

/// The UDP port of streaming ACN, where a file names no other. (E1.31, table of defined parameters:
/// ACN_SDT_MULTICAST_PORT.)
pub const DEFAULT_UDP_PORT: u16 = 5568;

/// The least UDP port that a file may name (profile).
pub const MIN_UDP_PORT: u16 = 1;

/// The greatest UDP port.
pub const MAX_UDP_PORT: u16 = 65535;
