//! The numbers that bound a patch.

/// The greatest channel. Channels count from 1 (profile).
pub const MAX_CHANNELS: u16 = 2048;
