//! A block of slots, kept in the processor's registers while the layers go by.
ghost use Rattle.std.specs.Prelude.{◌+◌, ◌*◌, ◌≡◌, ◌<◌, ◌≤◌, ℕ, slice_index, max};

use sacn_packets::SLOTS;
use std::simd::prelude::*;

/// Slots in lanes, one lane for each: as many as a vector of octets may have.
pub(crate) type Lanes = u8x64;

/// How many lanes a vector has.
pub(crate) const LANES: usize = 64;

/// How many slots a block has. Its two vectors are eight registers of 16 octets, half of those that the processor has;
/// the levels that are read take the other half.
pub(crate) const BLOCK: usize = 2 * LANES;

/// How many blocks a universe has.
pub(crate) const BLOCKS: usize = SLOTS / BLOCK;

const _: () = prove!(BLOCKS * BLOCK == SLOTS);

/// A block of slots.
#[derive(Clone, Copy)]
pub(crate) struct Block {
    pub low: Lanes,
    pub high: Lanes,
}

impl Block {
    /// Each slot of the block, raised to the level that stands there; the first one's is at `at`.
    pub(crate) fn raised(self, levels: &[u8; SLOTS], at: usize) -> Self
        requires { at + BLOCK ≤ SLOTS }
        ensures low { (i : ℕ) → i < LANES → slice_index result.low i
            ≡ max (slice_index self.low i) (slice_index levels.now (at + i)) }
        ensures high { (i : ℕ) → i < LANES → slice_index result.high i
            ≡ max (slice_index self.high i) (slice_index levels.now (at + LANES + i)) }
    {
        Block {
            low: raised_to(self.low, levels, at),
            high: raised_to(self.high, levels, at + LANES),
        }
    }

    /// Writes the block over the slots from `at` on.
    pub(crate) fn put(self, slots: &mut [u8; SLOTS], at: usize)
        requires { at + BLOCK ≤ SLOTS }
        ensures below { (k : ℕ) → k < at → slice_index slots.new k ≡ slice_index slots.old k }
        ensures low { (i : ℕ) → i < LANES →
            slice_index slots.new (at + i) ≡ slice_index self.low i }
        ensures high { (i : ℕ) → i < LANES →
            slice_index slots.new (at + LANES + i) ≡ slice_index self.high i }
    {
        put_lanes(self.low, slots, at);
        put_lanes(self.high, slots, at + LANES);
    }
}

// The lanes, each raised to the level of its slot; the first one's is at `at`.
fn raised_to(lanes: Lanes, levels: &[u8; SLOTS], at: usize) -> Lanes
    requires { at + LANES ≤ SLOTS }
    ensures { (i : ℕ) → i < LANES →
        slice_index result i ≡ max (slice_index lanes i) (slice_index levels.now (at + i)) }
{
    lanes.simd_max(Lanes::from_slice(&levels[at..]))
}

// Writes the lanes over the slots from `at` on.
fn put_lanes(lanes: Lanes, slots: &mut [u8; SLOTS], at: usize)
    requires { at + LANES ≤ SLOTS }
    ensures below { (k : ℕ) → k < at → slice_index slots.new k ≡ slice_index slots.old k }
    ensures put { (i : ℕ) → i < LANES → slice_index slots.new (at + i) ≡ slice_index lanes i }
{
    lanes.copy_to_slice(&mut slots[at..]);
}
