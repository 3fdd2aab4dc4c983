//! The merge by slot as a plain loop over slots and layers: the program that computes the definition word by word.
//!
//! Its `merge_by_slot` has the clause of the public one, which works in lanes, and is proved under it too.
ghost use Rattle.std.specs.Prelude.{◌≡◌, ◌<◌, map};
ghost use Rattle.sacn_sources.specs.Merge.{highest_at};
ghost use Rattle.sacn_slots.specs.SlotMerge.{merge_by_slot, taking_part};
ghost use Rattle.sacn_slots.specs.SlotLayers.{member_of};

use crate::layer::SlotLayer;
use crate::priority::priority_of_slot;
use sacn_packets::SLOTS;

/// Writes the merge of the layers over all 512 slots, slot by slot.
pub fn merge_by_slot(layers: &[SlotLayer<'_>], slots: &mut [u8; SLOTS])
    ensures { slots.new ≡ merge_by_slot (map member_of layers.now) }
{
    for (slot, merged) in slots.iter_mut().enumerate() {
        let priority = priority_of_slot(layers, slot);
        *merged = highest(layers, priority, slot);
    }
}

// The highest level of a slot in the layers that take part there at a priority.
fn highest(layers: &[SlotLayer<'_>], priority: u8, slot: usize) -> u8
    requires { slot < SLOTS }
    ensures { result ≡ highest_at priority (taking_part slot (map member_of layers.now)) slot }
{
    let mut high = 0;
    for layer in layers {
        if layer.priority_at(slot) == Some(priority) {
            high = high.max(layer.shown.levels.at(slot));
        }
    }
    high
}
