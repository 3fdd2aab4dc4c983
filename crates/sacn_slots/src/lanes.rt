//! Slots in the processor's lanes: what some sources come to there, priority and level.
ghost use Rattle.std.specs.Prelude.{◌+◌, ◌*◌, ◌≡◌, ◌<◌, ◌≤◌, ◌==◌, ℕ, slice_index, max, if◌then◌else◌};
ghost use Rattle.sacn_slots.specs.Following.{counted, level_counted, level_followed};

use sacn_packets::{MAX_PRIORITY, SLOTS};
use std::simd::prelude::*;

/// Slots in lanes, one lane for each: as many as a vector of octets may have.
pub(crate) type Lanes = u8x64;

/// How many lanes a vector has.
pub(crate) const LANES: usize = 64;

/// How many vectors the slots of a universe are.
pub(crate) const VECTORS: usize = SLOTS / LANES;

const _: () = prove!(VECTORS * LANES == SLOTS);

/// The priorities and the levels of 64 slots.
#[derive(Clone, Copy)]
pub(crate) struct SlotLanes {
    pub priorities: Lanes,
    pub levels: Lanes,
}

impl SlotLanes {
    /// Those of the slots from `at` on.
    pub(crate) fn load(priorities: &[u8; SLOTS], levels: &[u8; SLOTS], at: usize) -> Self
        requires { at + LANES ≤ SLOTS }
        ensures priorities { (i : ℕ) → i < LANES →
            slice_index result.priorities i ≡ slice_index priorities.now (at + i) }
        ensures levels { (i : ℕ) → i < LANES → slice_index result.levels i ≡ slice_index levels.now (at + i) }
    {
        SlotLanes {
            priorities: loaded(priorities, at),
            levels: loaded(levels, at),
        }
    }

    /// These and other ones joined: in each slot the greater priority is followed, and of equals the higher level.
    pub(crate) fn joined(self, other: Self) -> Self
        ensures priorities { (i : ℕ) → i < LANES → slice_index result.priorities i
            ≡ max (slice_index self.priorities i) (slice_index other.priorities i) }
        ensures levels { (i : ℕ) → i < LANES → slice_index result.levels i
            ≡ level_followed (slice_index self.priorities i) (slice_index self.levels i)
            (slice_index other.priorities i) (slice_index other.levels i) }
    {
        SlotLanes {
            priorities: greater(self.priorities, other.priorities),
            levels: followed(self.priorities, self.levels, other.priorities, other.levels),
        }
    }

    /// These as they count: where the priority is 0, or above the greatest of a source, both are 0.
    pub(crate) fn counted(self) -> Self
        ensures priorities { (i : ℕ) → i < LANES →
            slice_index result.priorities i ≡ counted (slice_index self.priorities i) }
        ensures levels { (i : ℕ) → i < LANES → slice_index result.levels i
            ≡ level_counted (slice_index self.priorities i) (slice_index self.levels i) }
    {
        let priorities = counted(self.priorities);
        SlotLanes {
            priorities,
            levels: levels_above_none(priorities, self.levels),
        }
    }

    /// Writes these over the slots from `at` on.
    pub(crate) fn store(self, priorities: &mut [u8; SLOTS], levels: &mut [u8; SLOTS], at: usize)
        requires { at + LANES ≤ SLOTS }
        ensures priorities { (i : ℕ) → i < LANES →
            slice_index priorities.new (at + i) ≡ slice_index self.priorities i }
        ensures levels { (i : ℕ) → i < LANES → slice_index levels.new (at + i) ≡ slice_index self.levels i }
        ensures priorities_below { (k : ℕ) → k < at → slice_index priorities.new k ≡ slice_index priorities.old k }
        ensures levels_below { (k : ℕ) → k < at → slice_index levels.new k ≡ slice_index levels.old k }
        ensures priorities_above { (k : ℕ) → at + LANES ≤ k →
            slice_index priorities.new k ≡ slice_index priorities.old k }
        ensures levels_above { (k : ℕ) → at + LANES ≤ k → slice_index levels.new k ≡ slice_index levels.old k }
    {
        store_lanes(self.priorities, priorities, at);
        store_lanes(self.levels, levels, at);
    }
}

// The greater of each two lanes.
fn greater(lanes: Lanes, other: Lanes) -> Lanes
    ensures { (i : ℕ) → i < LANES → slice_index result i ≡ max (slice_index lanes i) (slice_index other i) }
{
    lanes.simd_max(other)
}

// The levels that are followed: those of the greater priority, and of equals the higher.
fn followed(priorities: Lanes, levels: Lanes, other_priorities: Lanes, other_levels: Lanes) -> Lanes
    ensures { (i : ℕ) → i < LANES → slice_index result i
        ≡ level_followed (slice_index priorities i) (slice_index levels i)
        (slice_index other_priorities i) (slice_index other_levels i) }
{
    let is_less = priorities.simd_lt(other_priorities);
    let is_more = other_priorities.simd_lt(priorities);
    is_less.select(
        other_levels,
        is_more.select(levels, levels.simd_max(other_levels)),
    )
}

// The priorities as they count.
fn counted(priorities: Lanes) -> Lanes
    ensures { (i : ℕ) → i < LANES → slice_index result i ≡ counted (slice_index priorities i) }
{
    let is_above = Lanes::splat(MAX_PRIORITY).simd_lt(priorities);
    is_above.select(Lanes::splat(0), priorities)
}

// The levels where the priority is above 0, and 0 elsewhere.
fn levels_above_none(priorities: Lanes, levels: Lanes) -> Lanes
    ensures { (i : ℕ) → i < LANES → slice_index result i
        ≡ if slice_index priorities i == 0 then 0 else slice_index levels i }
{
    let is_none = priorities.simd_eq(Lanes::splat(0));
    is_none.select(Lanes::splat(0), levels)
}

// The lanes of the slots from `at` on.
fn loaded(slots: &[u8; SLOTS], at: usize) -> Lanes
    requires { at + LANES ≤ SLOTS }
    ensures { (i : ℕ) → i < LANES → slice_index result i ≡ slice_index slots.now (at + i) }
{
    Lanes::from_slice(&slots[at..])
}

// Writes the lanes over the slots from `at` on.
fn store_lanes(lanes: Lanes, slots: &mut [u8; SLOTS], at: usize)
    requires { at + LANES ≤ SLOTS }
    ensures at { (i : ℕ) → i < LANES → slice_index slots.new (at + i) ≡ slice_index lanes i }
    ensures below { (k : ℕ) → k < at → slice_index slots.new k ≡ slice_index slots.old k }
    ensures above { (k : ℕ) → at + LANES ≤ k → slice_index slots.new k ≡ slice_index slots.old k }
{
    lanes.copy_to_slice(&mut slots[at..]);
}
