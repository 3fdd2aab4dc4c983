//! Which slots changed.

ghost use Rattle.std.specs.Prelude.{◌≡◌, Bool, true, false};

use sacn_packets::SLOTS;

/// The slots that had another level since a moment, also where they have the same again.
#[derive(Drop)]
pub struct Marks {
    is_on: bool,
    /// The levels at that moment.
    before: [u8; SLOTS],
    has_changed: [bool; SLOTS],
}

impl Marks {
    /// No slot is marked.
    pub fn new() -> Self
        ensures { result.is_on ≡ false }
    {
        Marks {
            is_on: false,
            before: [0; SLOTS],
            has_changed: [false; SLOTS],
        }
    }

    /// Whether slots are marked.
    pub fn are_on(&self) -> bool
        ensures { result ≡ self.now.is_on }
    {
        self.is_on
    }

    /// From now on slots are marked that have other levels than these.
    pub fn start(&mut self, levels: &[u8; SLOTS])
        ensures on { self.new.is_on ≡ true }
        ensures before { self.new.before ≡ levels.now }
    {
        self.is_on = true;
        self.before = *levels;
        self.has_changed = [false; SLOTS];
    }

    /// No slot is marked any more.
    pub fn stop(&mut self)
        ensures { self.new.is_on ≡ false }
    {
        self.is_on = false;
    }

    /// Looks at the levels as they are now.
    pub fn note(&mut self, levels: &[u8; SLOTS]) {
        if !self.is_on {
            return;
        }
        for slot in 0..SLOTS {
            if levels[slot] != self.before[slot] {
                self.has_changed[slot] = true;
            }
        }
    }

    /// Whether a slot is marked. Slots are counted from 0, below 512.
    pub fn has(&self, slot: usize) -> bool {
        self.is_on && slot < SLOTS && self.has_changed[slot]
    }
}
