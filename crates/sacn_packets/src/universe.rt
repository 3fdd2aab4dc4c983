//! A universe as the standards number it: its numbers, its slots, its frame, and the priorities of those who send it.
//!
//! All other crates take these numbers from here, code as well as definitions.

pub mod laws;

/// The least universe that carries data (E1.31, 6.2.7).
pub const MIN_UNIVERSE: u16 = 1;

/// The greatest universe that carries data (E1.31, 6.2.7). Those above are for other uses.
pub const MAX_UNIVERSE: u16 = 63999;

/// The greatest priority of a source; the least is 0 (E1.31, 6.2.3).
pub const MAX_PRIORITY: u8 = 200;

/// How many slots a universe has, each of eight bits. They count from 1 (E1.11, the longest DMX512 packet).
pub const SLOTS: usize = 512;

/// How many octets a frame has: the start code, and then the slots (E1.11).
pub const FRAME_OCTETS: usize = 513;

/// The start code of a frame of levels (E1.11, the null start code).
pub const NULL_START_CODE: u8 = 0;
