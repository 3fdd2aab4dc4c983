//! Guesses at the places of streams and sources.

use crate::limits::HINTS;
use std::alloc::{AllocError, Global};

/// By what a CID and a universe count in a key: an odd number with many ones.
const KEY_FACTOR: u64 = 0x587f_d280_3bab_6c39;

/// For each of many keys the place at which it was found the latest time. Several streams may share a key, so what is read is a
/// guess: the caller looks at what stands there, and looks at all where it was wrong.
#[derive(Drop)]
pub(crate) struct Hints {
    places: Vec<u16>,
}

impl Hints {
    /// Guesses at the first place. Takes its room in one request.
    ///
    /// Errors: the request was refused.
    pub(crate) fn new(alloc: Global) -> Result<Self, AllocError> {
        Ok(Hints {
            places: vec![in alloc; 0; HINTS]?,
        })
    }

    /// Where what has this key may stand.
    pub(crate) fn guess(&self, key: usize) -> usize {
        match self.places.get(key) {
            Some(place) => usize::from(*place),
            None => 0,
        }
    }

    /// What has this key stands here.
    pub(crate) fn keep(&mut self, key: usize, place: usize) {
        if let Ok(place) = u16::try_from(place)
            && key < self.places.len()
        {
            self.places[key] = place;
        }
    }
}

/// The key of a source on a universe, or with 0 of a source: below `HINTS`, and mostly another one for another source or universe.
pub(crate) fn key_of(universe: u16, cid: &[u8; 16]) -> usize {
    let number = u128::from_be_bytes(*cid);
    let halves = ((number >> 64) as u64) ^ ((number % (1 << 64)) as u64).rotate_left(29);
    let mixed = halves
        .wrapping_add(u64::from(universe))
        .wrapping_mul(KEY_FACTOR);
    (mixed >> 48) as usize
}
