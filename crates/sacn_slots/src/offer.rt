//! What one source offers each slot.
ghost use Rattle.std.specs.Prelude.{◌≡◌, ◌<◌, ℕ, slice_index};
ghost use Rattle.sacn_sources.specs.HeldViews.{priority_shown};
ghost use Rattle.sacn_slots.specs.SlotMerge.{shown_at};
ghost use Rattle.sacn_slots.specs.SlotLayers.{member_of};
ghost use Rattle.sacn_slots.specs.Following.{counted, level_counted, level_shown};

use crate::lanes::{LANES, SlotLanes, VECTORS};
use crate::layer::SlotLayer;
use sacn_packets::SLOTS;
use sacn_sources::slots::laws::merge_of_one;
use sacn_sources::{Layer, Levels, merge_into};

/// Writes the priority and the level of each slot that a layer shows, both 0 where it takes no part.
pub(crate) fn offer(layer: &SlotLayer<'_>, priorities: &mut [u8; SLOTS], levels: &mut [u8; SLOTS])
    ensures priorities { (k : ℕ) → k < SLOTS →
        slice_index priorities.new k ≡ priority_shown (shown_at k (member_of layer.now)) }
    ensures levels { (k : ℕ) → k < SLOTS →
        slice_index levels.new k ≡ level_shown k (shown_at k (member_of layer.now)) }
{
    write_levels(layer.shown.levels, levels);
    match layer.slot_priorities {
        Some(given) => {
            write_levels(given, priorities);
            keep_counted(priorities, levels);
        }
        None => priorities.fill(layer.shown.priority),
    }
}

// Writes the levels over all slots. `Levels` lends no slice of them; the merge of one layer is what it shows, in lanes.
fn write_levels(levels: &Levels, slots: &mut [u8; SLOTS])
    ensures { (k : ℕ) → k < SLOTS → slice_index slots.new k ≡ slice_index levels.now k }
{
    merge_of_one();
    merge_into(
        &[Layer {
            priority: 0,
            levels,
        }],
        slots,
    );
}

// Makes both 0 where the priority doesn't count.
fn keep_counted(priorities: &mut [u8; SLOTS], levels: &mut [u8; SLOTS])
    ensures priorities { (k : ℕ) → k < SLOTS →
        slice_index priorities.new k ≡ counted (slice_index priorities.old k) }
    ensures levels { (k : ℕ) → k < SLOTS →
        slice_index levels.new k ≡ level_counted (slice_index priorities.old k) (slice_index levels.old k) }
{
    for vector in 0..VECTORS {
        let at = LANES * vector;
        SlotLanes::load(priorities, levels, at)
            .counted()
            .store(priorities, levels, at);
    }
}
