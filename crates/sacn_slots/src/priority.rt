//! The priority that a slot follows.
ghost use Rattle.std.specs.Prelude.{◌≡◌, ◌<◌, map};
ghost use Rattle.sacn_slots.specs.SlotMerge.{priority_of_slot};
ghost use Rattle.sacn_slots.specs.SlotLayers.{member_of};

use crate::layer::SlotLayer;
use sacn_packets::SLOTS;

/// The priority that is followed in a slot, counted from 0 and below 512: the greatest at which a layer takes part there, and 0
/// where none does.
pub fn priority_of_slot(layers: &[SlotLayer<'_>], slot: usize) -> u8
    requires { slot < SLOTS }
    ensures { result ≡ priority_of_slot (map member_of layers.now) slot }
{
    let mut top = 0;
    for layer in layers {
        if let Some(priority) = layer.priority_at(slot) {
            top = top.max(priority);
        }
    }
    top
}
