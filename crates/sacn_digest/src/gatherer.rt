//! Incidents as they are gathered and written.

use crate::objects::push_object;
use crate::presences::{Presence, Presences};
use crate::sentences::push_line;
use crate::universes::{first_place, universes_of};
use sacn_incidents::{Deed, Incident, Incidents, MAX_OPEN, deed_of};
use sacn_monitor::{Monitor, Stream};
use sacn_network::{Observer, Occurrence};
use sacn_packets::{Packet, Reading};
use sacn_tell::{Form, LineWriter, Listings, Options, Report, TellFault};
use std::alloc::{AllocError, Global};
use std::io::Write;

/// Gathers what a network tells into incidents, and writes each once it has passed. Where universes are asked for, what happens on
/// others is no part of any. A failure is kept, and nothing is written behind it.
#[derive(Drop)]
pub(crate) struct Gatherer<'a, O> {
    alloc: Global,
    incidents: Incidents,
    presences: Presences,
    writer: LineWriter<'a, O>,
    failure: Option<TellFault>,
    /// Whether an incident was written.
    has_told: bool,
    /// Whether each thing that happens is written too, at once.
    has_each: bool,
}

impl<'a, O: Write> Gatherer<'a, O> {
    /// One that was told nothing.
    ///
    /// Errors: a request for memory was refused.
    pub(crate) fn new(
        alloc: Global,
        options: Options<'a>,
        out: &'a mut O,
    ) -> Result<Self, AllocError> {
        let incidents = Incidents::new(alloc)?;
        let presences = Presences::new(alloc)?;
        Ok(Gatherer {
            alloc,
            incidents,
            presences,
            writer: LineWriter::new(alloc, options, out),
            failure: None,
            has_told: false,
            has_each: false,
        })
    }

    /// From now on each thing that happens is written too.
    pub(crate) fn tell_each(&mut self) {
        self.has_each = true;
    }

    /// Hands out the failure that is kept. From then on it writes again.
    pub(crate) fn settle(&mut self) -> Result<(), TellFault> {
        match self.failure {
            Some(fault) => {
                self.failure = None;
                Err(fault)
            }
            None => Ok(()),
        }
    }

    /// Writes the incidents that have passed at a moment: nothing that happens from then on is a part of them.
    pub(crate) fn pass(&mut self, now: u64, streams: &[Stream]) -> Result<(), TellFault> {
        for _ in 0..MAX_OPEN {
            match self.incidents.pass(now) {
                Some(incident) => self.tell(&incident, streams)?,
                None => return Ok(()),
            }
        }
        Ok(())
    }

    /// The first moment at which an incident has passed; `u64::MAX` where none is open.
    pub(crate) fn next_pass(&self) -> u64 {
        self.incidents.next_pass()
    }

    /// Writes the incidents that are still open.
    pub(crate) fn finish(&mut self, streams: &[Stream]) -> Result<(), TellFault> {
        for _ in 0..MAX_OPEN {
            match self.incidents.finish() {
                Some(incident) => self.tell(&incident, streams)?,
                None => return Ok(()),
            }
        }
        Ok(())
    }

    /// Tells a stop of this program, of so many milliseconds.
    pub(crate) fn tell_stop(&mut self, now: u64, millis: u64) -> Result<(), TellFault> {
        self.writer.teller.tell_stop(now, millis)
    }

    /// Writes the empty line that parts incidents from what follows, where there were some and they are lines for people.
    pub(crate) fn part(&mut self) -> Result<(), TellFault> {
        match self.writer.teller.form {
            Form::Text if self.has_told => self.writer.teller.write(),
            _ => Ok(()),
        }
    }

    /// Writes the tables of sources, universes and lists, and these counts.
    pub(crate) fn tell_tables(
        &mut self,
        monitor: &Monitor,
        listings: &Listings,
        report: &Report,
    ) -> Result<(), TellFault> {
        self.writer.tell_tables(monitor, listings, report)
    }

    /// Takes a page of a source's list into the lists. Where each thing is written, so is a list that is another one than before.
    pub(crate) fn take_page(
        &mut self,
        now: u64,
        reading: &Reading<'_>,
        listings: &mut Listings,
    ) -> Result<(), TellFault> {
        if self.has_each {
            return self.writer.tell_page(now, reading, listings);
        }
        if let Ok(Packet::PagePacket(page)) = reading {
            listings.take(now, page)?;
        }
        Ok(())
    }

    // What happened is a part of an incident, where it is a deed of a source.
    fn take(&mut self, occurrence: &Occurrence, monitor: &Monitor) -> Result<(), TellFault> {
        let streams = monitor.streams();
        self.pass(occurrence.at, streams)?;
        if self.has_each {
            self.writer.observe(occurrence, monitor);
            self.writer.settle()?;
        }
        match deed_of(occurrence, monitor) {
            Some(deed) => self.take_deed(&deed, streams),
            None => Ok(()),
        }
    }

    // A deed, on a universe that is asked for or not.
    fn take_deed(&mut self, deed: &Deed, streams: &[Stream]) -> Result<(), TellFault> {
        let Some(stream) = streams.get(deed.place) else {
            return Ok(());
        };
        if !self.is_wanted(stream.universe) {
            return Ok(());
        }
        self.presences.note(deed, stream);
        match self.incidents.take(deed) {
            Some(oldest) => self.tell(&oldest, streams),
            None => Ok(()),
        }
    }

    // Whether a universe is asked for.
    fn is_wanted(&self, universe: u16) -> bool {
        self.writer.options.is_wanted(universe)
    }

    // An incident.
    fn tell(&mut self, incident: &Incident, streams: &[Stream]) -> Result<(), TellFault> {
        match first_place(incident) {
            Some(place) => self.tell_at(place, incident, streams),
            None => Ok(()),
        }
    }

    // An incident whose first place this is.
    fn tell_at(
        &mut self,
        place: usize,
        incident: &Incident,
        streams: &[Stream],
    ) -> Result<(), TellFault> {
        let Some(stream) = streams.get(place) else {
            return Ok(());
        };
        let universes = universes_of(self.alloc, incident, streams)?;
        let presence = self.presences.of(place, incident);
        self.push(incident, universes.as_slice(), stream, presence, streams)?;
        self.has_told = true;
        self.writer.teller.write()
    }

    fn push(
        &mut self,
        incident: &Incident,
        universes: &[u16],
        stream: &Stream,
        presence: Presence,
        streams: &[Stream],
    ) -> Result<(), AllocError> {
        let form = self.writer.teller.form;
        let text = &mut self.writer.teller.line;
        match form {
            Form::Text => push_line(text, incident, universes, stream, presence, streams),
            Form::Json => push_object(text, incident, universes, stream, streams),
        }
    }
}

impl<'a, O: Write> Observer for Gatherer<'a, O> {
    fn observe(&mut self, occurrence: &Occurrence, monitor: &Monitor) {
        if self.failure.is_some() {
            return;
        }
        if let Err(fault) = self.take(occurrence, monitor) {
            self.failure = Some(fault);
        }
    }
}
