//! How viewers are given events.

use super::{Audience, MAX_CONNECTIONS};
use crate::feed::{Feed, Occasion, Owed};
use crate::scene::Scene;
use crate::viewer::{Connection, Phase, Viewer};
use std::alloc::AllocError;

/// The octets of events after which a turn ends. One that makes an event ends there.
const MAX_TURN_OCTETS: usize = 1 << 20;

/// The most universes that have a feed, of those that are named.
const MAX_FEEDS: usize = 32;

/// A viewer that took all that it was given, as a feed sees it.
#[derive(Clone, Copy)]
struct Eater {
    /// The universe that it names, if any.
    named: Option<u16>,
    /// The number of the event that it was given last.
    seen: u64,
}

// A viewer that takes events, where it took all before.
fn eater_of<C: Connection>(viewer: &Viewer<C>) -> Option<Eater> {
    match viewer.phase() {
        Phase::Watching(named) if viewer.is_idle() => Some(Eater {
            named,
            seen: viewer.seen(),
        }),
        _ => None,
    }
}

// Whether a viewer that was given this event last wants the document as a whole, which the feed hasn't.
fn lacks_whole(feed: &Feed, seen: u64) -> bool {
    (feed.owed(seen) == Owed::Whole) & feed.text(Owed::Whole).is_empty()
}

impl<C: Connection + Drop, S: Scene + Drop> Audience<C, S> {
    // Gives viewers, one after another, what they are owed. Returns whether some may be left: one turn makes one event, or gives
    // so many octets.
    pub(super) fn feed_viewers(&mut self, now: u64) -> bool {
        let mut left = MAX_TURN_OCTETS;
        for _ in 0..MAX_CONNECTIONS {
            let key = self.first;
            self.first = if key < MAX_CONNECTIONS - 1 {
                key + 1
            } else {
                0
            };
            let Some(cost) = self.feed(key, now) else {
                let _ = self.viewers.try_remove(key);
                continue;
            };
            if cost >= left {
                return true;
            }
            left -= cost;
        }
        false
    }

    // Gives the viewer of a key what it is owed. Returns what that cost in octets, or None where the viewer goes.
    fn feed(&mut self, key: usize, now: u64) -> Option<usize> {
        let Some(viewer) = self.viewers.get(key) else {
            return Some(0);
        };
        let Some(eater) = eater_of(viewer) else {
            return Some(0);
        };
        let place = self.place_of_feed(eater.named).ok()?;
        // (What was made goes first: so each event comes to all before the next one is made, also where turns are long.)
        let given = self.give(key, place, now)?;
        if (given > 0) | !self.is_due(place, eater.seen, now) {
            return Some(given);
        }
        if self.make_event(place, eater.named, now).is_err() {
            self.feeds.clear();
            return None;
        }
        let _ = self.give(key, place, now)?;
        Some(MAX_TURN_OCTETS)
    }

    // Gives the viewer of a key what it is owed of a feed's event. Returns the octets, or None where the viewer goes.
    fn give(&mut self, key: usize, place: usize, now: u64) -> Option<usize> {
        let viewer = self.viewers.get_mut(key)?;
        let feed = self.feeds.get(place)?;
        let count = viewer.give_event(feed, now).ok()?;
        if viewer.phase() == Phase::Gone {
            return None;
        }
        Some(count)
    }

    // The place of the feed of those who name this universe, or none.
    fn place_of_feed(&mut self, named: Option<u16>) -> Result<usize, AllocError> {
        if let Some(place) = self.feeds.iter().position(|feed| feed.named() == named) {
            return Ok(place);
        }
        if self.feeds.len() >= MAX_FEEDS {
            self.feeds.clear();
        }
        let place = self.feeds.len();
        self.feeds.push(Feed::new(self.alloc, named))?;
        Ok(place)
    }

    // Whether a feed's next event is to be made, for the sake of a viewer that was given this one last.
    fn is_due(&self, place: usize, seen: u64, now: u64) -> bool {
        match self.feeds.get(place) {
            Some(feed) => feed.next_event(self.changes, lacks_whole(feed, seen)) <= now,
            None => false,
        }
    }

    // Makes the next event of a feed, of what is known at a moment.
    fn make_event(&mut self, place: usize, named: Option<u16>, now: u64) -> Result<(), AllocError> {
        let is_whole_wanted = self.is_whole_wanted(place, named);
        let watched = self.universes_watched()?;
        if let Some(universe) = self.scene.board().chosen_universe(named) {
            let _ = self.scene.open(universe, watched.as_slice())?;
            self.scene.refresh(now, &[universe]);
        }
        self.events = self.events.saturating_add(1);
        let occasion = Occasion {
            now,
            changes: self.changes,
            is_whole_wanted,
        };
        let Some(feed) = self.feeds.get_mut(place) else {
            return Ok(());
        };
        feed.make(self.alloc, self.scene.board(), self.events, occasion)
    }

    // Whether a viewer that names this universe, or none, wants the document as a whole once a further event was made.
    fn is_whole_wanted(&self, place: usize, named: Option<u16>) -> bool {
        let Some(feed) = self.feeds.get(place) else {
            return false;
        };
        for key in 0..MAX_CONNECTIONS {
            if let Some(viewer) = self.viewers.get(key) {
                if let Some(eater) = eater_of(viewer) {
                    if (eater.named == named) & feed.misses(eater.seen) {
                        return true;
                    }
                }
            }
        }
        false
    }

    // The moment at which a viewer is given something, where nothing comes; `u64::MAX` where it never is.
    pub(super) fn next_event(&self, viewer: &Viewer<C>) -> u64 {
        let Some(eater) = eater_of(viewer) else {
            return u64::MAX;
        };
        for feed in self.feeds.as_slice() {
            if feed.named() == eater.named {
                return feed.next_event(self.changes, lacks_whole(feed, eater.seen));
            }
        }
        0
    }
}
