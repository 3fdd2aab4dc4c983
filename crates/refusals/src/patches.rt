//! The patch.
use crate::Outcome;
use sacn_packets::SLOTS;
use sacn_patch::{LevelOf, Patch, PatchFault};
use std::alloc::Global;

/// Every channel at one level, 0x1234: a wide channel shows 0x12 and 0x34.
struct Even;

impl LevelOf for Even {
    ghost level = { λ _ _. 4660 };

    fn level_of(&self, _channel: u16) -> u16 {
        4660
    }
}

/// The level of a slot, counted from 0, where the first so many pairs of slots are patched.
fn level_at(place: usize, pairs: usize) -> u8 {
    if place / 2 >= pairs {
        0
    } else if place % 2 == 0 {
        18
    } else {
        52
    }
}

fn are_pairs(slots: &[u8; SLOTS], pairs: usize) -> bool {
    for place in 0..SLOTS {
        if slots[place] != level_at(place, pairs) {
            return false;
        }
    }
    true
}

/// Whether universe 1 has wide channels on the first so many pairs of slots, and universe 2 none.
fn has_pairs(patch: &Patch, pairs: usize) -> bool {
    let mut first = [7; SLOTS];
    patch.fill(1, &Even, &mut first);
    let mut second = [7; SLOTS];
    patch.fill(2, &Even, &mut second);
    are_pairs(&first, pairs) && are_pairs(&second, 0)
}

// Adds a wide channel on a pair of slots, again where memory was refused.
fn added(patch: &mut Patch, pair: u16) -> Outcome {
    let slot = pair.saturating_mul(2).saturating_add(1);
    let before = pair as usize;
    match patch.add(1, 1, slot, true) {
        Ok(()) => Outcome::Done,
        Err(PatchFault::OutOfMemory) if !has_pairs(patch, before) => Outcome::Wrong(
            "a refused add changed the patch",
        ),
        Err(PatchFault::OutOfMemory) if patch.add(1, 1, slot, true).is_ok() => Outcome::Refused,
        Err(_) => Outcome::Wrong("a refused add can't be made again"),
    }
}

fn copied(patch: &Patch) -> Outcome {
    match patch.try_copy() {
        Ok(copy) if has_pairs(&copy, 30) => Outcome::Done,
        Err(PatchFault::OutOfMemory) => match patch.try_copy() {
            Ok(copy) if has_pairs(&copy, 30) => Outcome::Refused,
            _ => Outcome::Wrong("a patch that can't be copied again"),
        },
        _ => Outcome::Wrong("a copy of the patch"),
    }
}

/// `Patch::add` and `Patch::try_copy`.
pub fn calls_made(alloc: Global) -> Outcome {
    let mut patch = Patch::new(alloc);
    let mut outcome = Outcome::Done;
    for pair in 0..30u16 {
        outcome = outcome.then(added(&mut patch, pair));
    }
    outcome = outcome.then(copied(&patch));
    if has_pairs(&patch, 30) {
        outcome
    } else {
        outcome.then(Outcome::Wrong("the slots of the patch"))
    }
}
