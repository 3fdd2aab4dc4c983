//! The numbers that bound cues and players.

/// The most cues of a list (profile).
pub const MAX_CUES: usize = 1000;

/// The longest fade in milliseconds, an hour (profile).
pub const MAX_FADE: u32 = 3_600_000;

/// The greatest level of a channel, and of the grand master (profile).
pub const FULL: u16 = 65535;
