//! Which channels an order sets.
ghost use Rattle.std.specs.Prelude.{◌≡◌, ◌++◌, ◌<◌, ◌≤◌, [], ◌∷◌, length, max, nat_lt};
ghost use Rattle.sacn_orders.specs.declared.limits.TheConstants.{MAX_PARTS};
ghost use Rattle.sacn_orders.specs.Orders.{is_chosen, next_chosen};

use crate::limits::MAX_PARTS;
use crate::part::Part;
use sacn_patch::MAX_CHANNELS;
use std::marker::Model;

/// Channels that are added and taken away part by part, `MAX_PARTS` at most. It takes no memory.
///
/// Its value is the list of its parts; a channel is chosen if the last part that holds it was added.
#[derive(Drop)]
pub struct Selection {
    parts: [Part; MAX_PARTS],
    count: usize,
}

impl Model for Selection {
    ghost use Rattle.std.specs.Prelude.{◌≤◌, List, take};
    ghost use Rattle.sacn_orders.specs.declared.part.Part.{Part};
    ghost use Rattle.sacn_orders.specs.declared.limits.TheConstants.{MAX_PARTS};

    ghost Value = { List Part };

    ghost view = { λ s. take s.count s.parts };

    ghost invariant = { λ s. s.count ≤ MAX_PARTS };
}

/// A channel's number, or that of the first.
fn at_least_one(channel: u16) -> u16
    ensures { result ≡ max 1 channel }
{
    if channel == 0 { 1 } else { channel }
}

impl Selection {
    /// No parts.
    pub(crate) fn new() -> Self
        ensures { result ≡ [] }
    {
        Selection {
            parts: [Part {
                first: 0,
                last: 0,
                is_added: false,
            }; MAX_PARTS],
            count: 0,
        }
    }

    /// Whether there is room for a part more.
    pub(crate) fn has_room(&self) -> bool
        ensures { result ≡ nat_lt (length self.now) MAX_PARTS }
    {
        self.parts().len() < MAX_PARTS
    }

    /// Adds a part behind the others.
    pub(crate) fn push(&mut self, part: Part)
        requires { length self.old < MAX_PARTS }
        ensures { self.new ≡ self.old ++ part ∷ [] }
    {
        self.parts[self.count] = part;
        self.count += 1;
    }

    /// The parts, in the order in which they were said; at most `MAX_PARTS`.
    pub fn parts(&self) -> &[Part]
        ensures { result.now ≡ self.now }
    {
        &self.parts[..self.count]
    }

    /// Whether a channel is chosen: the last part that holds it was added.
    pub fn holds(&self, channel: u16) -> bool
        ensures { result ≡ is_chosen self.now channel }
    {
        let parts = self.parts();
        let mut is_held = false;
        for part in parts {
            if part.holds(channel) {
                is_held = part.is_added;
            }
        }
        is_held
    }

    /// The lowest chosen channel that isn't below this one, 1 to `MAX_CHANNELS`, or none.
    ///
    /// The chosen channels in turn are what `next_from(1)` gives, and then each `next_from(channel + 1)` behind the one
    /// before, until none comes (`laws::channels_in_turn`).
    pub fn next_from(&self, channel: u16) -> Option<u16>
        ensures { result ≡ next_chosen self.now channel }
    {
        for next in at_least_one(channel)..MAX_CHANNELS + 1 {
            if self.holds(next) {
                return Some(next);
            }
        }
        None
    }
}
