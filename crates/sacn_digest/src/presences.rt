//! From where, and at which priority, sources sent when they did something.

use sacn_incidents::{Act, Deed, Incident};
use sacn_monitor::{Endpoint, MAX_STREAMS, Stream};
use std::alloc::{AllocError, Global};

/// From where a source sends on a universe, and at which priority; or on several, at which from the lowest to the highest.
#[derive(Clone, Copy)]
pub(crate) struct Presence {
    pub(crate) sender: Endpoint,
    pub(crate) lowest: u8,
    pub(crate) highest: u8,
}

/// That of a stream which did nothing.
const NOWHERE: Presence = Presence {
    sender: Endpoint {
        address: [0, 0, 0, 0],
        port: 0,
    },
    lowest: 0,
    highest: 0,
};

/// What streams sent when they did something, by place: an incident is told when it has passed, and its source may send otherwise by then.
#[derive(Drop)]
pub struct Presences {
    appeared: Vec<Presence>,
    came_back: Vec<Presence>,
    ended: Vec<Presence>,
    lost: Vec<Presence>,
}

impl Presences {
    /// No stream has done anything, and all room is taken.
    ///
    /// Errors: a request for it was refused.
    pub fn new(alloc: Global) -> Result<Self, AllocError> {
        Ok(Presences {
            appeared: nowhere(alloc)?,
            came_back: nowhere(alloc)?,
            ended: nowhere(alloc)?,
            lost: nowhere(alloc)?,
        })
    }

    /// Notes what a stream sends, or sent last, at a deed of its source.
    pub fn note(&mut self, deed: &Deed, stream: &Stream) {
        let presence = presence_of(stream);
        match deed.act {
            Act::Appears => put(&mut self.appeared, deed.place, presence),
            Act::IsBack => put(&mut self.came_back, deed.place, presence),
            Act::Ends => put(&mut self.ended, deed.place, presence),
            Act::IsLost => put(&mut self.lost, deed.place, presence),
            Act::Meets(_) => {}
        }
    }

    /// What the streams of an incident sent at its deeds: from where that at its first place sent, and at which priorities all. Of rivals it isn't known.
    pub(crate) fn of(&self, first: usize, incident: &Incident) -> Presence {
        let presences = match incident.act {
            Act::Appears | Act::Meets(_) => self.appeared.as_slice(),
            Act::IsBack => self.came_back.as_slice(),
            Act::Ends => self.ended.as_slice(),
            Act::IsLost => self.lost.as_slice(),
        };
        let mut presence = presence_at(presences, first);
        for (place, is_there) in incident.places.iter().enumerate() {
            if *is_there {
                let other = presence_at(presences, place);
                presence.lowest = presence.lowest.min(other.lowest);
                presence.highest = presence.highest.max(other.highest);
            }
        }
        presence
    }
}

fn nowhere(alloc: Global) -> Result<Vec<Presence>, AllocError> {
    let mut presences = Vec::with_capacity(alloc, MAX_STREAMS)?;
    for _ in 0..MAX_STREAMS {
        presences.push(NOWHERE)?;
    }
    Ok(presences)
}

fn presence_of(stream: &Stream) -> Presence {
    Presence {
        sender: stream.account.sender,
        lowest: stream.account.priority,
        highest: stream.account.priority,
    }
}

fn put(presences: &mut Vec<Presence>, place: usize, presence: Presence) {
    if place < presences.len() {
        presences[place] = presence;
    }
}

fn presence_at(presences: &[Presence], place: usize) -> Presence {
    match presences.get(place) {
        Some(presence) => *presence,
        None => NOWHERE,
    }
}
