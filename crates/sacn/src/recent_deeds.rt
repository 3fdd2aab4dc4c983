//! What sources did within the last second, gathered, and said once it is over.
use crate::timed::LateWrite;
use sacn_digest::{Presences, push_source_line};
use sacn_gateway::Allowance;
use sacn_incidents::{Deed, Incident, Incidents, MAX_OPEN};
use sacn_monitor::{MAX_STREAMS, Stream};
use std::alloc::{AllocError, Global};
use std::io::Write;

/// What the sources of an account did within the last second, gathered by source and deed, and what they sent then.
#[derive(Drop)]
pub struct RecentDeeds {
    incidents: Incidents,
    presences: Presences,
    /// For each place whether a deed there is still to be said.
    unsaid: [bool; MAX_STREAMS],
}

impl RecentDeeds {
    /// Nothing was done.
    ///
    /// Errors: OutOfMemory.
    pub fn new(alloc: Global) -> Result<Self, AllocError> {
        Ok(RecentDeeds {
            incidents: Incidents::new(alloc)?,
            presences: Presences::new(alloc)?,
            unsaid: [false; MAX_STREAMS],
        })
    }

    /// The first moment at which there is something to say, where nothing more is done; `u64::MAX` where there isn't.
    pub fn next_pass(&self) -> u64 {
        self.incidents.next_pass()
    }

    /// A deed of a stream's source. What it did there before is said first, so that of each stream the latest line says what is so.
    pub fn take<L: LateWrite>(
        &mut self,
        deed: &Deed,
        streams: &[Stream],
        speaker: &mut Speaker<L>,
    ) {
        self.say_before(deed, streams, speaker);
        if let Some(stream) = streams.get(deed.place) {
            self.presences.note(deed, stream);
        }
        if let Some(oldest) = self.incidents.take(deed) {
            self.say(deed.at, &oldest, streams, speaker);
        }
        if deed.place < MAX_STREAMS {
            self.unsaid[deed.place] = true;
        }
    }

    /// Says what began more than a second ago.
    pub fn pass<L: LateWrite>(&mut self, now: u64, streams: &[Stream], speaker: &mut Speaker<L>) {
        for _ in 0..MAX_OPEN {
            match self.incidents.pass(now) {
                Some(incident) => self.say(now, &incident, streams, speaker),
                None => return,
            }
        }
    }

    /// Says all.
    pub fn finish<L: LateWrite>(&mut self, now: u64, streams: &[Stream], speaker: &mut Speaker<L>) {
        for _ in 0..MAX_OPEN {
            match self.incidents.finish() {
                Some(incident) => self.say(now, &incident, streams, speaker),
                None => return,
            }
        }
    }

    // Says all up to an earlier deed at the place of this one.
    fn say_before<L: LateWrite>(
        &mut self,
        deed: &Deed,
        streams: &[Stream],
        speaker: &mut Speaker<L>,
    ) {
        for _ in 0..MAX_OPEN {
            if deed.place >= MAX_STREAMS || !self.unsaid[deed.place] {
                return;
            }
            match self.incidents.finish() {
                Some(incident) => self.say(deed.at, &incident, streams, speaker),
                None => return,
            }
        }
    }

    fn say<L: LateWrite>(
        &mut self,
        now: u64,
        incident: &Incident,
        streams: &[Stream],
        speaker: &mut Speaker<L>,
    ) {
        for place in 0..MAX_STREAMS {
            if incident.places[place] {
                self.unsaid[place] = false;
            }
        }
        speaker.say(now, incident, &self.presences, streams);
    }
}

/// Writes lines, and no more in a second than is allowed.
#[derive(Drop)]
pub struct Speaker<L> {
    alloc: Global,
    pub late: L,
    allowance: Allowance,
}

impl<L: LateWrite> Speaker<L> {
    /// Nothing was said on this output.
    pub fn new(alloc: Global, late: L) -> Self {
        Speaker {
            alloc,
            late,
            allowance: Allowance::new(),
        }
    }

    /// Says how many lines weren't written, once the second is over in which they would have been.
    pub fn say_rest(&mut self, now: u64) {
        self.allowance.say(now, &mut self.late);
    }

    // Says what a source did, at the moment of its first deed.
    fn say(&mut self, now: u64, incident: &Incident, presences: &Presences, streams: &[Stream]) {
        self.allowance.say(now, &mut self.late);
        if !self.allowance.admits(now) {
            return;
        }
        let mut line = String::new(self.alloc);
        if push_source_line(&mut line, self.alloc, incident, presences, streams).is_ok() {
            self.late.set_age(now.saturating_sub(incident.first));
            let _ = writeln!(self.late, "{line}");
            self.late.set_age(0);
        }
    }
}
