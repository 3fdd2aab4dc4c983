//! What a gateway says of the sources that its node holds.
use crate::recent_deeds::{RecentDeeds, Speaker};
use crate::timed::LateWrite;
use sacn_gateway::{Diagnosis, Notes, PassedOver};
use sacn_incidents::{Act, Deed, deed_of};
use sacn_machine::limits::SAID_EACH;
use sacn_machine::{DeviceFault, Octets4};
use sacn_monitor::{Endpoint, MAX_STREAMS, Monitor, Noted, Stream, StreamState};
use sacn_network::{Network, Observer, Occurrence};
use sacn_node::NodeTaken;
use sacn_packets::Reading;
use sacn_sources::{NETWORK_DATA_LOSS, Taken};
use std::alloc::{AllocError, Global};
use std::io::Write;
use std::net::SocketAddrV4;

/// Looks on at a gateway, for its standard error: what it hears of sources, and what else there is to say.
#[derive(Drop)]
pub struct Spoken<E, L> {
    diagnosis: Diagnosis<E>,
    sources: SourceLines<L>,
}

impl<E: Write + Drop, L: LateWrite + Drop> Spoken<E, L> {
    /// What is said of sources goes to this output.
    ///
    /// Errors: OutOfMemory.
    pub fn new(alloc: Global, diagnosis: Diagnosis<E>, late: L) -> Result<Self, AllocError> {
        Ok(Spoken {
            diagnosis,
            sources: SourceLines::new(alloc, late)?,
        })
    }

    /// The gateway ends: what sources did in its last second is said.
    pub fn end(&mut self) {
        self.sources.end();
    }
}

impl<E: Write + Drop, L: LateWrite + Drop> Notes for Spoken<E, L> {
    fn note_taken(
        &mut self,
        now: u64,
        sender: SocketAddrV4,
        reading: &Reading<'_>,
        taken: NodeTaken,
    ) {
        self.diagnosis.note_taken(now, sender, reading, taken);
        if is_held(&taken) {
            self.sources.take(now, endpoint_of(sender), reading);
        }
    }

    fn note_passed_over(&mut self, now: u64, sender: Octets4, why: PassedOver) {
        self.diagnosis.note_passed_over(now, sender, why);
    }

    fn note_failure(&mut self, now: u64) {
        self.diagnosis.note_failure(now);
    }

    fn note_interface(&mut self, port: u8, name: &str, fault: Option<DeviceFault>) {
        self.diagnosis.note_interface(port, name, fault);
    }

    fn note_turn(&mut self, now: u64) {
        self.diagnosis.note_turn(now);
        self.sources.check(now);
    }

    fn wakes(&self) -> u64 {
        self.diagnosis.wakes().min(self.sources.wakes())
    }
}

// Whether the node holds the packet's levels from now on, or no levels of its source any more.
fn is_held(taken: &NodeTaken) -> bool {
    match taken {
        NodeTaken::FromTable(Taken::Held) => true,
        NodeTaken::FromTable(Taken::EndedNow) => true,
        _ => false,
    }
}

/// A sender, as an account of a network knows it.
pub fn endpoint_of(sender: SocketAddrV4) -> Endpoint {
    Endpoint {
        address: sender.ip().octets(),
        port: sender.port(),
    }
}

/// Says on an output which sources come, end and are lost, each once for all its universes: an account of a network that is handed
/// what the node holds.
///
/// An account keeps each source for ever, and has room for so many. Where that is full of others than those that send, it makes way for a
/// new one, beside which it stays until each of its sources has sent again or is lost.
#[derive(Drop)]
struct SourceLines<L> {
    alloc: Global,
    sources: Sources,
    former: Option<Former>,
    /// It isn't looked for room before this moment.
    next_look: u64,
    /// It was said that there are more sources than an account has room for.
    is_over: bool,
    speaker: Speaker<L>,
    /// The moment of the latest turn.
    now: u64,
}

/// An account, and what its sources did within the last second.
#[derive(Drop)]
struct Sources {
    network: Network,
    deeds: RecentDeeds,
}

/// An account that was full, and the moment at which each of its sources has sent again or is lost.
#[derive(Drop)]
struct Former {
    sources: Sources,
    until: u64,
}

impl Sources {
    /// None is there.
    ///
    /// Errors: OutOfMemory.
    fn new(alloc: Global) -> Result<Self, AllocError> {
        Ok(Sources {
            network: Network::new(alloc)?,
            deeds: RecentDeeds::new(alloc)?,
        })
    }
}

impl<L: LateWrite + Drop> SourceLines<L> {
    /// None is there.
    ///
    /// Errors: OutOfMemory.
    fn new(alloc: Global, late: L) -> Result<Self, AllocError> {
        Ok(SourceLines {
            alloc,
            sources: Sources::new(alloc)?,
            former: None,
            next_look: 0,
            is_over: false,
            speaker: Speaker::new(alloc, late),
            now: 0,
        })
    }

    /// A packet with levels, or an end, that the node took.
    fn take(&mut self, now: u64, sender: Endpoint, reading: &Reading<'_>) {
        // (who is lost there before this packet comes here is told first)
        self.check_former(now);
        if let Noted::Untracked = self.hand(now, sender, reading) {
            if self.has_made_room(now) {
                let _ = self.hand(now, sender, reading);
            }
        }
    }

    // Whether a new account stands in place of the full one. Where all of its sources send, it stays, and that is said once.
    fn has_made_room(&mut self, now: u64) -> bool {
        if now < self.next_look || self.former.is_some() {
            return false;
        }
        self.next_look = now.saturating_add(SAID_EACH);
        let streams = self.sources.network.monitor().streams();
        if streams
            .iter()
            .any(|it| it.state(now) != StreamState::Sending)
        {
            return self.renew(now).is_ok();
        }
        if !self.is_over {
            self.is_over = true;
            let _ = writeln!(
                self.speaker.late,
                "more than {MAX_STREAMS} sources on universes: which others come and go isn't told"
            );
        }
        false
    }

    fn hand(&mut self, now: u64, sender: Endpoint, reading: &Reading<'_>) -> Noted {
        let other = match &self.former {
            Some(former) => Some(former.sources.network.monitor()),
            None => None,
        };
        let mut teller = Teller {
            speaker: &mut self.speaker,
            deeds: &mut self.sources.deeds,
            other,
            is_former: false,
        };
        let noted = self.sources.network.take(now, sender, reading, &mut teller);
        teller.tell_other_end(now, noted, self.sources.network.monitor());
        noted
    }

    // A new account stands in place of this one.
    fn renew(&mut self, now: u64) -> Result<(), AllocError> {
        let sources = std::mem::replace(&mut self.sources, Sources::new(self.alloc)?);
        self.former = Some(Former {
            sources,
            until: now.saturating_add(NETWORK_DATA_LOSS),
        });
        Ok(())
    }

    /// Says which sources are lost at a moment, what they did more than a second ago, and how many lines weren't written.
    fn check(&mut self, now: u64) {
        self.now = now;
        self.speaker.say_rest(now);
        self.check_former(now);
        let other = match &self.former {
            Some(former) => Some(former.sources.network.monitor()),
            None => None,
        };
        let mut teller = Teller {
            speaker: &mut self.speaker,
            deeds: &mut self.sources.deeds,
            other,
            is_former: false,
        };
        self.sources.network.tick(now, &mut teller);
        let streams = self.sources.network.monitor().streams();
        self.sources.deeds.pass(now, streams, &mut self.speaker);
    }

    fn check_former(&mut self, now: u64) {
        let Some(former) = &mut self.former else {
            return;
        };
        let mut teller = Teller {
            speaker: &mut self.speaker,
            deeds: &mut former.sources.deeds,
            other: Some(self.sources.network.monitor()),
            is_former: true,
        };
        former.sources.network.tick(now, &mut teller);
        let streams = former.sources.network.monitor().streams();
        former.sources.deeds.pass(now, streams, &mut self.speaker);
        if now >= former.until {
            former.sources.deeds.finish(now, streams, &mut self.speaker);
            self.former = None;
        }
    }

    /// The moment at which there is something to say of what sources did, where nothing comes; `u64::MAX` where there isn't.
    fn wakes(&self) -> u64 {
        let next = self.sources.deeds.next_pass();
        match &self.former {
            Some(former) => next.min(former.sources.deeds.next_pass()).min(former.until),
            None => next,
        }
    }

    /// Says all that is still to be said.
    fn end(&mut self) {
        if let Some(former) = &mut self.former {
            let streams = former.sources.network.monitor().streams();
            former
                .sources
                .deeds
                .finish(self.now, streams, &mut self.speaker);
        }
        let streams = self.sources.network.monitor().streams();
        self.sources
            .deeds
            .finish(self.now, streams, &mut self.speaker);
        self.speaker.say_rest(u64::MAX);
    }
}

/// Gathers what an account tells, unless another one knows better.
#[derive(Drop)]
struct Teller<'s, 'g, 'o, L> {
    speaker: &'s mut Speaker<L>,
    deeds: &'g mut RecentDeeds,
    /// The other account, where there is one.
    other: Option<&'o Monitor>,
    /// The other one stands in place of this one, which was full.
    is_former: bool,
}

impl<'s, 'g, 'o, L: LateWrite> Teller<'s, 'g, 'o, L> {
    // What is to be said of what a source did on a universe: that it came, also back, that it ended, or that it is lost.
    fn act_of(&self, deed: &Deed, stream: &Stream) -> Option<Act> {
        match deed.act {
            Act::Appears if self.came_there(deed.at, stream) => None,
            Act::Appears | Act::IsBack => Some(Act::Appears),
            Act::Ends => Some(Act::Ends),
            Act::IsLost if self.goes_on(stream) => None,
            Act::IsLost => Some(Act::IsLost),
            Act::Meets(_) => None,
        }
    }

    // Whether it was said of a source that appears here that it came: behind an end that was heard here it wasn't.
    fn came_there(&self, at: u64, stream: &Stream) -> bool {
        let has_ended = stream.account.kinds.terminations > 0;
        !has_ended && self.sends_there(at, stream)
    }

    // The end of a source that sent where another account stands in place of this one: here it is the end of none.
    fn tell_other_end(&mut self, at: u64, noted: Noted, monitor: &Monitor) {
        let Noted::Heard(place, _) = noted else {
            return;
        };
        let Some(stream) = monitor.streams().get(place) else {
            return;
        };
        let is_first = stream.account.ended & (stream.account.kinds.total() == 1);
        if is_first && self.sends_there(at, stream) {
            let deed = Deed {
                source: stream.cid,
                act: Act::Ends,
                place,
                at,
            };
            self.deeds.take(&deed, monitor.streams(), self.speaker);
        }
    }

    // Whether a source sends, as the other account has it.
    fn sends_there(&self, at: u64, stream: &Stream) -> bool {
        match self.other_of(stream) {
            Some(other) => other.state(at) == StreamState::Sending,
            None => false,
        }
    }

    // Whether a source sent again where another account stands in place of this one.
    fn goes_on(&self, stream: &Stream) -> bool {
        self.is_former && self.other_of(stream).is_some()
    }

    fn other_of(&self, stream: &Stream) -> Option<&Stream> {
        match self.other {
            Some(monitor) => find(monitor, stream),
            None => None,
        }
    }
}

// The same source on the same universe in another account.
fn find<'m>(monitor: &'m Monitor, stream: &Stream) -> Option<&'m Stream> {
    monitor.streams().iter().find(|other| other.universe == stream.universe
        && other.cid == stream.cid)
}

impl<'s, 'g, 'o, L: LateWrite> Observer for Teller<'s, 'g, 'o, L> {
    fn observe(&mut self, occurrence: &Occurrence, monitor: &Monitor) {
        let streams = monitor.streams();
        self.deeds.pass(occurrence.at, streams, self.speaker);
        let Some(deed) = deed_of(occurrence, monitor) else {
            return;
        };
        let Some(stream) = streams.get(deed.place) else {
            return;
        };
        if let Some(act) = self.act_of(&deed, stream) {
            self.deeds
                .take(&Deed { act, ..deed }, streams, self.speaker);
        }
    }
}
