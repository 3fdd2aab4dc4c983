//! Where the streams of those stand who give the levels of a universe.

ghost use Rattle.std.specs.Prelude.{◌≡◌, ◌≤◌, None, ℕ, length, map, option_and_then, slice_get, slice_index_or};
ghost use Rattle.sacn_monitor.specs.Books.{place_of};
ghost use Rattle.sacn_network.specs.LitUniverses.{giver_places};

use sacn_monitor::Monitor;
use sacn_packets::SLOTS;
use sacn_sources::{Givers, MAX_SOURCES};

/// For each slot the place of the stream, on this universe, of the source that gives it its level: none where no one does, or no
/// packet of the source was heard there. Each source is looked up once.
pub(crate) fn giver_places(
    givers: &Givers,
    universe: u16,
    monitor: &Monitor,
) -> [Option<usize>; SLOTS]
    ensures { result ≡ giver_places universe monitor.now.streams givers.now }
{
    let (cids, of_slots) = givers.parts();
    places_by(&stream_places(cids, universe, monitor), of_slots)
}

// The places of the streams of these sources on a universe.
fn stream_places(
    cids: &[[u8; 16]],
    universe: u16,
    monitor: &Monitor,
) -> [Option<usize>; MAX_SOURCES]
    requires { length cids.now ≤ MAX_SOURCES }
    ensures { (k : ℕ) → slice_index_or result k None
        ≡ option_and_then (λ cid. place_of universe cid monitor.now.streams) (slice_get cids.now k) }
{
    let mut places = [None; MAX_SOURCES];
    for at in 0..cids.len() {
        places[at] = monitor.place_of(universe, &cids[at]);
    }
    places
}

// The place that stands for the giver of each slot.
fn places_by(
    places: &[Option<usize>; MAX_SOURCES],
    of_slots: &[Option<u8>; SLOTS],
) -> [Option<usize>; SLOTS]
    ensures { result ≡ map (option_and_then (λ at. slice_index_or places.now at None)) of_slots.now }
{
    let mut by_slot = [None; SLOTS];
    for slot in 0..SLOTS {
        by_slot[slot] = place_at(places, of_slots[slot]);
    }
    by_slot
}

// The place that stands for a giver, if there is one.
fn place_at(places: &[Option<usize>; MAX_SOURCES], giver: Option<u8>) -> Option<usize>
    ensures { result ≡ option_and_then (λ at. slice_index_or places.now at None) giver }
{
    let Some(place) = places.get(usize::from(giver?)) else {
        return None;
    };
    *place
}
