//! The limits of a node (profile).

/// The most ports of a node.
pub const MAX_PORTS: usize = 16;

/// The most different universes that the ranges of a node name.
pub const MAX_UNIVERSES: usize = 16;

/// The most ranges of a port.
pub const MAX_RANGES: usize = 8;

/// The least number of a port.
pub const MIN_PORT: u8 = 1;

/// The greatest number of a port.
pub const MAX_PORT: u8 = 255;

/// The newest version of a setup's file: 1 has a whole universe for each port, 2 has ranges.
pub const NEWEST_SETUP: u8 = 2;
