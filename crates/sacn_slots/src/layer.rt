//! What one source shows, and the priorities that it gave for single slots.
ghost use Rattle.std.specs.Prelude.{◌≡◌, ◌<◌};
ghost use Rattle.sacn_slots.specs.SlotMerge.{priority_at};
ghost use Rattle.sacn_slots.specs.SlotLayers.{member_of};

use sacn_packets::{MAX_PRIORITY, SLOTS};
use sacn_sources::{Layer, Levels};

/// What one source shows, and the priorities that it gave for single slots: a member of the set that is merged.
#[derive(Clone, Copy)]
pub struct SlotLayer<'a> {
    /// What the source shows, and the priority of its packets.
    pub shown: Layer<'a>,
    /// The priorities that the source gave for its slots, one octet a slot, kept as levels are; `None` where it gave none. Those
    /// from 1 to 200 count, and past those that it gave they are 0.
    pub slot_priorities: Option<&'a Levels>,
}

impl<'a> SlotLayer<'a> {
    /// The priority at which the source takes part in a slot, counted from 0 and below 512, and `None` where it takes no part.
    ///
    /// It is the priority of its packets where the source gave none for slots, else that of the slot, if that is from 1 to 200.
    pub fn priority_at(&self, slot: usize) -> Option<u8>
        requires { slot < SLOTS }
        ensures { result ≡ priority_at slot self.now.shown.priority (member_of self.now).slot_priorities }
    {
        let Some(given) = self.slot_priorities else {
            return Some(self.shown.priority);
        };
        let priority = given.at(slot);
        if priority == 0 || priority > MAX_PRIORITY {
            None
        } else {
            Some(priority)
        }
    }
}
