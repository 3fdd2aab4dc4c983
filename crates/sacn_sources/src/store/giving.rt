//! Who gives each slot its level, by the entries.

ghost use Rattle.std.specs.Prelude.{◌≡◌, ◌==◌, ◌≤◌, false, None, fold, length, map, max, option_map, unwrap_or, slice_index, slice_index_or, EachIndex};
ghost use Rattle.sacn_sources.specs.Givers.{given_to, givers_of};
ghost use Rattle.sacn_sources.specs.Rows.{slots_of};
ghost use Rattle.sacn_sources.specs.Storage.{rows_in, AreStored};

use crate::entry::Entry;
use crate::givers::Givers;
use crate::limits::MAX_SOURCES;
use crate::slots::Levels;
use crate::store::Store;
use arrayvec::ArrayVec;
use slab::Slab;

impl Store {
    /// Who gives each slot its level, where these are the levels of the merge.
    pub(crate) fn givers(&self, slots: &[u8; 512]) -> Givers
        requires { slots.now ≡ slots_of self.now.rows }
        ensures { result ≡ givers_of self.now.rows }
    {
        givers_in(self.entries.as_slice(), &self.frames, slots)
    }
}

// Who gives each slot its level. Each source takes the slots that it gives, the last by CID first, so that in the end the first
// has them: a pass over the slots for each source costs less than a search of the sources for each slot.
fn givers_in(entries: &[Entry], frames: &Slab<Levels>, slots: &[u8; 512]) -> Givers
    requires stored { AreStored entries.now frames.now }
    requires merged { slots.now ≡ slots_of (rows_in frames.now entries.now) }
    ensures { result ≡ givers_of (rows_in frames.now entries.now) }
{
    let top = top_priority(entries);
    let mut places = [None; 512];
    for at in (0..entries.len()).rev() {
        if shows_at(&entries[at], top) {
            give(&mut places, at as u8, &frames[entries[at].key], slots);
        }
    }
    Givers {
        cids: cids_of(entries),
        places,
    }
}

// Whether what an entry shows is of this priority.
fn shows_at(entry: &Entry, priority: u8) -> bool
    ensures { result ≡ unwrap_or (option_map (λ p. p == priority) entry.now.priority) false }
{
    match entry.priority {
        Some(shown) => shown == priority,
        None => false,
    }
}

// Gives a place the slots whose merged level is the one of its source, and above 0.
fn give(places: &mut [Option<u8>; 512], place: u8, levels: &Levels, slots: &[u8; 512])
    ensures { EachIndex places.new (λ slot. slice_index_or places.new slot None
        ≡ given_to place (slice_index slots.now slot) (slice_index levels.now slot)
        (slice_index_or places.old slot None)) }
{
    for slot in 0..512 {
        let level = slots[slot];
        if (level != 0) & (levels.at(slot) == level) {
            places[slot] = Some(place);
        }
    }
}

// The greatest priority of what is shown, 0 where nothing is.
fn top_priority(entries: &[Entry]) -> u8
    ensures { result ≡ fold (λ top e. max top (unwrap_or e.priority 0)) 0 entries.now }
{
    entries
        .iter()
        .fold(0, |top: u8, entry| top.max(entry.priority.unwrap_or(0)))
}

// The CIDs of these entries.
fn cids_of(entries: &[Entry]) -> ArrayVec<[u8; 16], MAX_SOURCES>
    requires { length entries.now ≤ MAX_SOURCES }
    ensures { result.items ≡ map (λ e. e.cid) entries.now }
{
    let mut cids = ArrayVec::new();
    for entry in entries {
        cids.push(entry.cid);
    }
    cids
}
