//! What a source does on a universe.

ghost use Rattle.std.specs.Prelude.{◌≡◌};
ghost use Rattle.sacn_incidents.specs.Deeds.{deed_at, deed_of, presence_of, same_act, same_rival};

use crate::rivals::meeting;
use sacn_monitor::{Monitor, Stream, StreamEvent};
use sacn_network::{Occurrence, What};

/// Whom a source meets on a universe.
#[derive(Clone, Copy, Debug, PartialEq, Eq)]
pub struct Rival {
    /// The CID of the other source, a UUID (E1.31, 5.6).
    pub cid: [u8; 16],
    /// The priority at which both send, 0 to 200 (E1.31, 6.2.3).
    pub priority: u8,
    /// How many sources send there at that priority, two or more.
    pub sources: usize,
}

/// What a source does.
#[derive(Clone, Copy, Debug, PartialEq, Eq)]
pub enum Act {
    /// It wasn't heard there before.
    Appears,
    /// It had ended, or was lost, and sends again.
    IsBack,
    /// It ends its stream (E1.31, 6.2.6).
    Ends,
    /// No packet of it came for 2500 ms (E1.31, 6.7.1).
    IsLost,
    /// It and another light a universe at the same priority, the greatest there: their levels are merged.
    Meets(Rival),
}

/// What a source does on a universe, at a moment.
#[derive(Clone, Copy, Debug, PartialEq, Eq)]
pub struct Deed {
    /// The source's CID.
    pub source: [u8; 16],
    pub act: Act,
    /// The place of its stream on that universe among the monitor's `streams`, where it stays.
    pub place: usize,
    /// Milliseconds.
    pub at: u64,
}

impl Act {
    /// Whether it is the same act, with the same rival.
    pub(crate) fn is_same(&self, other: &Act) -> bool
        ensures { result ≡ same_act self.now other.now }
    {
        match (self, other) {
            (Act::Appears, Act::Appears)
            | (Act::IsBack, Act::IsBack)
            | (Act::Ends, Act::Ends)
            | (Act::IsLost, Act::IsLost) => true,
            (Act::Meets(rival), Act::Meets(named)) => rival.is_same(named),
            _ => false,
        }
    }
}

impl Rival {
    fn is_same(&self, other: &Rival) -> bool
        ensures { result ≡ same_rival self.now other.now }
    {
        (self.cid == other.cid)
            & (self.priority == other.priority)
            & (self.sources == other.sources)
    }
}

/// The deed that an occurrence tells, where it is one: `monitor` has the accounts as they were then.
pub fn deed_of(occurrence: &Occurrence, monitor: &Monitor) -> Option<Deed>
    ensures { result ≡ deed_of occurrence.now.at occurrence.now.what monitor.now }
{
    let at = occurrence.at;
    match &occurrence.what {
        What::Lost(place) => deed_at(at, Act::IsLost, *place, monitor.streams()),
        What::Heard(place, news) => {
            deed_at(at, presence_of(news.event)?, *place, monitor.streams())
        }
        What::Contest(contest) => meeting(at, contest, monitor),
        What::Refused(_, _) | What::Untracked(_) => None,
    }
}

// The act that an event is, where it changes whether a source is there.
fn presence_of(event: StreamEvent) -> Option<Act>
    ensures { result ≡ presence_of event }
{
    match event {
        StreamEvent::Appeared => Some(Act::Appears),
        StreamEvent::CameBack => Some(Act::IsBack),
        StreamEvent::Ended => Some(Act::Ends),
        _ => None,
    }
}

/// An act of the source at a place.
pub(crate) fn deed_at(at: u64, act: Act, place: usize, streams: &[Stream]) -> Option<Deed>
    ensures { result ≡ deed_at at act place streams.now }
{
    match streams.get(place) {
        Some(stream) => Some(Deed {
            source: stream.cid,
            act,
            place,
            at,
        }),
        None => None,
    }
}
