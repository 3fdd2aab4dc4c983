//! Deeds of one source at one moment.

ghost use Rattle.std.specs.Prelude.{◌≡◌};
ghost use Rattle.sacn_incidents.specs.Gathering.{begun, has_passed, joined, takes, with_place};

use crate::deed::{Act, Deed};
use crate::limits::SPAN;
use sacn_monitor::MAX_STREAMS;

/// What one source did, of one kind, on its universes within a second. Moments are in milliseconds.
#[derive(Clone, Copy, PartialEq, Eq)]
pub struct Incident {
    /// The source's CID, a UUID (E1.31, 5.6).
    pub source: [u8; 16],
    pub act: Act,
    /// For each place among the monitor's `streams` whether the source did so there.
    pub places: [bool; MAX_STREAMS],
    /// The moment of its first deed.
    pub first: u64,
    /// The moment of its latest deed.
    pub latest: u64,
    /// How many deeds it has; the count stops at 2^64 - 1.
    pub times: u64,
}

impl Incident {
    /// One that a deed begins.
    #[tactic(auto, unfolding(crate::specs::Gathering::begun))]
    pub(crate) fn begin(deed: &Deed) -> Self
        ensures { result ≡ begun deed.now }
    {
        Incident {
            source: deed.source,
            act: deed.act,
            places: with_place([false; MAX_STREAMS], deed.place),
            first: deed.at,
            latest: deed.at,
            times: 1,
        }
    }

    /// Whether a deed is a part of it: of the same source and kind, within `SPAN` of its first.
    pub(crate) fn takes(&self, deed: &Deed) -> bool
        ensures { result ≡ takes deed.now self.now }
    {
        (self.first <= deed.at)
            & (deed.at.saturating_sub(self.first) <= SPAN)
            & (self.source == deed.source)
            & self.act.is_same(&deed.act)
    }

    /// Whether no deed at a moment is a part of it any more.
    pub(crate) fn has_passed(&self, now: u64) -> bool
        ensures { result ≡ has_passed now self.now }
    {
        now.saturating_sub(self.first) > SPAN
    }

    /// A deed more.
    #[tactic(auto, unfolding(crate::specs::Gathering::joined))]
    pub(crate) fn add(&mut self, deed: &Deed)
        ensures { self.new ≡ joined deed.now self.old }
    {
        self.places = with_place(self.places, deed.place);
        self.latest = self.latest.max(deed.at);
        self.times = self.times.saturating_add(1);
    }
}

// These places and one more.
fn with_place(places: [bool; MAX_STREAMS], place: usize) -> [bool; MAX_STREAMS]
    ensures { result ≡ with_place place places }
{
    let mut places = places;
    if place < MAX_STREAMS {
        places[place] = true;
    }
    places
}
