//! A set of universes.

ghost use Rattle.std.specs.Prelude.{◌≡◌, ◌*◌, ◌+◌, ◌<◌, IfOk, OnOk};
ghost use Rattle.sacn_network.specs.declared.universe_set.TheConstants.{BITS, WORDS};
ghost use Rattle.sacn_network.specs.Sets.{has_bit, is_otherwise, marked, no_universes, turned, universes_below, universes_in};

use std::alloc::{AllocError, Global};
use std::marker::Model;

/// So many words have a bit for each number of 16 bits.
const WORDS: usize = 1024;

/// So many universes have their bits in one word.
const BITS: usize = 64;

/// A set of universe numbers, 0 to 65535, a bit each. Its room is taken once.
///
/// Its value is the list of its words; `has_bit` says of each number whether it is in the set.
#[derive(Drop)]
pub(crate) struct UniverseSet {
    words: Vec<u64>,
}

impl Model for UniverseSet {
    ghost use Rattle.std.specs.Prelude.{◌≡◌, ℕ, List, length};
    ghost use Rattle.sacn_network.specs.declared.universe_set.TheConstants.{WORDS};

    ghost Value = { List ℕ };

    ghost view = { λ s. s.words.items };

    ghost invariant = { λ s. length s.words.items ≡ WORDS };
}

impl Clone for UniverseSet {
    ghost is_clone = { λ set copy. copy ≡ set };

    fn clone(&self) -> Result<UniverseSet, AllocError> {
        Ok(UniverseSet {
            words: self.words.clone()?,
        })
    }
}

impl UniverseSet {
    /// A set of none.
    ///
    /// Errors: the request for its room was refused.
    pub(crate) fn new(alloc: Global) -> Result<Self, AllocError>
        ensures { IfOk result (λ s. s ≡ no_universes) }
    {
        Ok(UniverseSet {
            words: vec![in alloc; 0; WORDS]?,
        })
    }

    /// Whether a universe is in it.
    pub(crate) fn has(&self, universe: u16) -> bool
        ensures { result ≡ has_bit self.now universe }
    {
        let number = usize::from(universe);
        (self.words[number / 64] >> (number % 64)) & 1 == 1
    }

    /// Puts a universe into it, or takes it out. Returns whether that changed it.
    #[tactic(auto, unfolding(crate::specs::Sets::marked))]
    pub(crate) fn mark(&mut self, universe: u16, is_in: bool) -> bool
        ensures answer { result ≡ is_otherwise is_in (has_bit self.old universe) }
        ensures set { self.new ≡ marked universe is_in self.old }
    {
        let was_in = self.has(universe);
        let is_otherwise = if is_in { !was_in } else { was_in };
        if is_otherwise {
            self.turn(universe);
        }
        is_otherwise
    }

    /// Its universes, ascending. A word of none is passed by at once.
    ///
    /// Errors: a growth was refused.
    pub(crate) fn universes(&self, alloc: Global) -> Result<Vec<u16>, AllocError>
        ensures { IfOk result (λ universes. universes.items ≡ universes_in self.now) }
    {
        let mut universes = Vec::new(alloc);
        for place in 0..WORDS {
            self.add_word(place, &mut universes)?;
        }
        Ok(universes)
    }

    // Adds those of the word at a place to those below them.
    fn add_word(&self, place: usize, universes: &mut Vec<u16>) -> Result<(), AllocError>
        requires { place < WORDS }
        ensures { universes.old.items ≡ universes_below (place * BITS) self.now → OnOk result
            (universes.new.items ≡ universes_below ((place + 1) * BITS) self.now) }
    {
        if self.words[place] == 0 {
            return Ok(());
        }
        let first = place * BITS;
        for number in first..first + BITS {
            self.add_own(number as u16, universes)?;
        }
        Ok(())
    }

    // Adds a universe to those below it, where it is in it.
    fn add_own(&self, universe: u16, universes: &mut Vec<u16>) -> Result<(), AllocError>
        ensures { universes.old.items ≡ universes_below universe self.now → OnOk result
            (universes.new.items ≡ universes_below (universe + 1) self.now) }
    {
        if self.has(universe) {
            universes.push(universe)?;
        }
        Ok(())
    }

    // Puts a universe into it that isn't there, or takes one out that is.
    fn turn(&mut self, universe: u16)
        ensures { self.new ≡ turned universe self.old }
    {
        let number = usize::from(universe);
        self.words[number / 64] ^= 1 << (number % 64);
    }
}
