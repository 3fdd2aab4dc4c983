//! The merge as a plain loop over slots and layers: the program that computes the definition word by word.
//!
//! Its `merge_into` has the clauses of the public one, which works in lanes, and is proved under them too. It runs in
//! tests alone, beside the other.
ghost use Rattle.std.specs.Prelude.{◌≡◌, ◌<◌, ◌≤◌, map, EachIndex, slice_index};
ghost use Rattle.sacn_sources.specs.Merge.{merge, highest_at, IsMergedLevel};
ghost use Rattle.sacn_sources.specs.Layers.{shown_of};

use crate::slots::merge::{Layer, top_priority};
use sacn_packets::SLOTS;

/// Writes the merge of the layers over all 512 slots, slot by slot.
pub fn merge_into(layers: &[Layer<'_>], slots: &mut [u8; SLOTS])
    ensures merged { slots.new ≡ merge (map shown_of layers.now) }
    ensures highest { EachIndex slots.new
        (λ slot. IsMergedLevel (map shown_of layers.now) slot (slice_index slots.new slot)) }
{
    let top = top_priority(layers);
    for (slot, merged) in slots.iter_mut().enumerate() {
        *merged = highest(layers, top, slot);
    }
}

// The highest level of a slot in the layers of a priority.
fn highest(layers: &[Layer<'_>], priority: u8, slot: usize) -> u8
    requires { slot < SLOTS }
    ensures { result ≡ highest_at priority (map shown_of layers.now) slot }
{
    let mut high = 0;
    for layer in layers {
        if layer.priority == priority {
            high = high.max(layer.levels.at(slot));
        }
    }
    high
}
