//! The slots of the latest packet.

ghost use Rattle.std.specs.Prelude.{◌≡◌, ◌≤◌, length};
ghost use Rattle.std.specs.Str.{bytes_eq};

use sacn_packets::SLOTS;
use std::marker::Model;

/// The slots of the latest packet, at most 512 octets. A contract sees the list of them.
#[derive(Drop)]
pub struct Content {
    octets: [u8; SLOTS],
    length: usize,
}

impl Model for Content {
    ghost use Rattle.std.specs.Prelude.{ℕ, List, ◌≤◌, take};
    ghost use Rattle.sacn_packets.specs.declared.universe.TheConstants.{SLOTS};

    ghost Value = { List ℕ };

    ghost view = { λ c. take c.length c.octets };

    ghost invariant = { λ c. c.length ≤ SLOTS };
}

impl Content {
    /// These slots.
    pub(crate) fn of(slots: &[u8]) -> Self
        requires { length slots.now ≤ SLOTS }
        ensures { result ≡ slots.now }
    {
        let mut octets = [0; SLOTS];
        octets[..slots.len()].copy_from_slice(slots);
        Content {
            octets,
            length: slots.len(),
        }
    }

    /// Whether these are the same slots, to the octet.
    pub(crate) fn is_same(&self, slots: &[u8]) -> bool
        ensures { result ≡ bytes_eq self.now slots.now }
    {
        let held = &self.octets[..self.length];
        held == slots
    }

    /// These slots in place of those.
    pub(crate) fn set(&mut self, slots: &[u8])
        requires { length slots.now ≤ SLOTS }
        ensures { self.new ≡ slots.now }
    {
        self.octets[..slots.len()].copy_from_slice(slots);
        self.length = slots.len();
    }
}
