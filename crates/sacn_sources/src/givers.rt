//! Who gives each slot its level.

ghost use Rattle.std.specs.Prelude.{◌≡◌, ◌<◌, ◌≤◌, None, length, map, replicate, slice_get, slice_index_or};
ghost use Rattle.sacn_sources.specs.Givers.{giver_in};

use crate::limits::MAX_SOURCES;
use arrayvec::ArrayVec;
use std::alloc::AllocError;
use std::marker::Model;

/// For each of the 512 slots the CID of the source that gives it its level, and none where no one gives any.
#[derive(Drop)]
pub struct Givers {
    pub(crate) cids: ArrayVec<[u8; 16], MAX_SOURCES>,
    pub(crate) places: [Option<u8>; 512],
}

impl Model for Givers {
    ghost use Rattle.std.specs.Prelude.{ℕ, List, Option, map};
    ghost use Rattle.sacn_sources.specs.Givers.{giver_in};

    ghost Value = { List (Option (List ℕ)) };

    ghost view = { λ g. map (giver_in g.cids.items) g.places };
}

impl Clone for Givers {
    ghost is_clone = { λ givers copy. copy ≡ givers };

    fn clone(&self) -> Result<Givers, AllocError> {
        Ok(Givers {
            cids: same_cids(self.cids.as_slice()),
            places: self.places,
        })
    }
}

impl Givers {
    /// No one gives any slot.
    pub fn new() -> Self
        ensures { result ≡ replicate 512 None }
    {
        Givers {
            cids: ArrayVec::new(),
            places: [None; 512],
        }
    }

    /// The CID of the source that gives a slot its level. Slots are counted from 0, below 512.
    pub fn of(&self, slot: usize) -> Option<[u8; 16]>
        requires { slot < 512 }
        ensures { result ≡ slice_index_or self.now slot None }
    {
        let Some(place) = self.places[slot] else {
            return None;
        };
        cid_at(self.cids.as_slice(), place)
    }

    /// The CIDs of at most `MAX_SOURCES` sources, and for each slot the place of its giver among them.
    pub fn parts(&self) -> (&[[u8; 16]], &[Option<u8>; 512])
        ensures few { length result.0.now ≤ MAX_SOURCES }
        ensures givers { map (giver_in result.0.now) result.1.now ≡ self.now }
    {
        (self.cids.as_slice(), &self.places)
    }
}

// These CIDs again.
fn same_cids(cids: &[[u8; 16]]) -> ArrayVec<[u8; 16], MAX_SOURCES>
    requires { length cids.now ≤ MAX_SOURCES }
    ensures { result.items ≡ cids.now }
{
    let mut same = ArrayVec::new();
    for cid in cids {
        same.push(*cid);
    }
    same
}

// The CID at a place, if there is one.
fn cid_at(cids: &[[u8; 16]], place: u8) -> Option<[u8; 16]>
    ensures { result ≡ slice_get cids.now place }
{
    let Some(cid) = cids.get(usize::from(place)) else {
        return None;
    };
    Some(*cid)
}
