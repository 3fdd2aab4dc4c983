//! Levels as a source gave them.
ghost use Rattle.std.specs.Prelude.{◌+◌, ◌≡◌, ◌<◌, ◌≤◌, ℕ, List, length, slice_index, max};

use crate::slots::block::{BLOCK, Block, LANES};
use sacn_packets::SLOTS;
use std::alloc::AllocError;
use std::marker::Model;

/// The levels that a source gave for the first slots of a universe, at most 512 of them.
///
/// A contract sees the list of the levels given. Every slot past its end is at 0, also where a longer list stood before
/// (profile: a slot that a source doesn't send is at 0).
#[derive(Drop)]
pub struct Levels {
    slots: [u8; SLOTS],
    given: usize,
}

impl Model for Levels {
    ghost use Rattle.std.specs.Prelude.{ℕ, List, take};
    ghost use Rattle.sacn_sources.specs.LevelStorage.{IsPadded};

    ghost Value = { List ℕ };

    ghost view = { λ l. take l.given l.slots };

    ghost invariant = { λ l. IsPadded l.slots l.given };
}

impl Clone for Levels {
    ghost is_clone = { λ levels copy. copy ≡ levels };

    fn clone(&self) -> Result<Levels, AllocError> {
        Ok(Levels {
            slots: self.slots,
            given: self.given,
        })
    }
}

impl Levels {
    /// The levels given, of slot 0 and the slots after it: at most 512, each from 0 to 255.
    ///
    /// Where none is given every slot is at 0.
    pub fn of(given: &[u8]) -> Self
        requires { length given.now ≤ SLOTS }
        ensures { result ≡ given.now }
    {
        let mut slots = [0; SLOTS];
        slots[..given.len()].copy_from_slice(given);
        Levels {
            slots,
            given: given.len(),
        }
    }

    /// Takes the levels given in place of these: at most 512, each from 0 to 255.
    ///
    /// Nothing stays of what was there, also where fewer levels are given than before.
    pub fn set(&mut self, given: &[u8])
        requires { length given.now ≤ SLOTS }
        ensures { self.new ≡ given.now }
    {
        self.slots[..given.len()].copy_from_slice(given);
        self.slots[given.len()..].fill(0);
        self.given = given.len();
    }

    /// The level of a slot, counted from 0 and below 512. It is 0 past the levels given.
    pub fn at(&self, slot: usize) -> u8
        requires { slot < SLOTS }
        ensures { result ≡ slice_index self.now slot }
    {
        self.slots[slot]
    }

    /// How many levels were given, from 0 to 512.
    pub fn given(&self) -> usize
        ensures { result ≡ length self.now }
    {
        self.given
    }

    // The slots of a block, each raised to its level here; the first one's is that of the slot `at`.
    pub(crate) fn raised(&self, block: Block, at: usize) -> Block
        requires { at + BLOCK ≤ SLOTS }
        ensures low { (i : ℕ) → i < LANES → slice_index result.low i
            ≡ max (slice_index block.low i) (slice_index self.now (at + i)) }
        ensures high { (i : ℕ) → i < LANES → slice_index result.high i
            ≡ max (slice_index block.high i) (slice_index self.now (at + LANES + i)) }
    {
        block.raised(&self.slots, at)
    }
}
