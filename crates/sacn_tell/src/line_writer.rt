//! Lines of what happens on a network.

ghost use Rattle.std.specs.Prelude.{◌≡◌, [], None, OnOk, slice_get, string_bytes};
ghost use Rattle.sacn_tell.specs.Choice.{is_wanted};
ghost use Rattle.sacn_tell.specs.KeptLists.{after_reading, listed_in};
ghost use Rattle.sacn_tell.specs.LineWriting.{heard_text, lost_text, what_text, where_wanted};
ghost use Rattle.sacn_tell.specs.Lines.{rivals_line};
ghost use Rattle.sacn_tell.specs.ListBooks.{list_book, page_told};
ghost use Rattle.sacn_tell.specs.Tables.{tables_told};
ghost use Rattle.sacn_tell.specs.Tellings.{Tells, with_line_end};

use crate::fault::TellFault;
use crate::listings::{Listings, PageNews};
use crate::options::Options;
use crate::report::Report;
use crate::tables;
use crate::teller::Teller;
use sacn_monitor::{Monitor, News, Stream};
use sacn_network::{Contest, Observer, Occurrence, What};
use sacn_packets::{Packet, Reading};
use std::alloc::Global;
use std::io::Write;

/// Writes what happens on a network, where its universe is asked for. A failure is kept, and nothing is written behind it.
#[derive(Drop)]
pub struct LineWriter<'a, O> {
    pub teller: Teller<'a, O>,
    pub options: Options<'a>,
    failure: Option<TellFault>,
}

impl<'a, O: Write> LineWriter<'a, O> {
    /// One that has written nothing.
    pub fn new(alloc: Global, options: Options<'a>, out: &'a mut O) -> Self
        ensures options { result.options ≡ options.entry }
        ensures form { result.teller.form ≡ options.entry.form }
        ensures line { string_bytes result.teller.line ≡ [] }
        ensures out { result.teller.out.ghost_name ≡ out.entry.ghost_name }
        ensures nothing { result.teller.out.now ≡ out.old }
    {
        LineWriter {
            teller: Teller::new(alloc, options.form, out),
            options,
            failure: None,
        }
    }

    /// Hands out the failure that is kept. From then on it writes again.
    pub fn settle(&mut self) -> Result<(), TellFault>
        ensures none { OnOk result (self.old.failure ≡ None) }
        ensures options { self.new.options ≡ self.old.options }
        ensures teller { self.new.teller ≡ self.old.teller }
    {
        match self.failure {
            Some(fault) => {
                self.failure = None;
                Err(fault)
            }
            None => Ok(()),
        }
    }

    /// Tells the tables of sources, universes and lists, and these counts.
    pub fn tell_tables(
        &mut self,
        monitor: &Monitor,
        listings: &Listings,
        report: &Report,
    ) -> Result<(), TellFault>
        ensures { OnOk result
            (Tells O.contents self.old.teller self.new.teller (tables_told self.old.teller.form
            self.old.options.universes.now monitor.now.streams listings.now.known.items report.now)) }
    {
        tables::tell(&mut self.teller, &self.options, monitor, listings, report)
    }

    /// Takes a page of a source's list into the lists, and tells that list where the page makes it another one than before.
    pub fn tell_page(
        &mut self,
        now: u64,
        reading: &Reading<'_>,
        listings: &mut Listings,
    ) -> Result<(), TellFault>
        ensures told { OnOk result (Tells O.contents self.old.teller self.new.teller
            (page_told self.old.teller.form now reading.now (list_book listings.old))) }
        ensures listed { OnOk result
            (listed_in listings.new ≡ after_reading reading.now (listed_in listings.old)) }
        ensures options { self.new.options ≡ self.old.options }
    {
        let Ok(Packet::PagePacket(page)) = reading else {
            return Ok(());
        };
        let event = match listings.take(now, page)? {
            PageNews::Nothing => return Ok(()),
            PageNews::Appears => "lists",
            PageNews::Changes => "relists",
        };
        match listings.of(&page.cid()) {
            Some(listing) => self.teller.tell_listing(now, event, listing),
            None => Ok(()),
        }
    }

    // Whether a universe is asked for.
    fn is_wanted(&self, universe: u16) -> bool
        ensures { result ≡ is_wanted self.now.options.universes.now universe }
    {
        self.options.is_wanted(universe)
    }

    // What happened at a moment.
    fn tell(&mut self, at: u64, what: &What, monitor: &Monitor) -> Result<(), TellFault>
        ensures told { OnOk result (Tells O.contents self.old.teller self.new.teller (what_text
            self.old.teller.form self.old.options.universes.now at monitor.now what.now)) }
        ensures options { self.new.options ≡ self.old.options }
        ensures failure { self.new.failure ≡ self.old.failure }
    {
        match what {
            What::Lost(place) => self.tell_loss(at, monitor.streams(), *place),
            What::Heard(place, news) => self.tell_heard(at, monitor.streams(), *place, news),
            What::Refused(sender, fault) => self.teller.tell_refusal(at, sender, *fault),
            What::Untracked(sender) => self.teller.tell_untracked(at, sender),
            What::Contest(contest) => self.tell_contest(at, contest),
        }
    }

    // A stream that is lost.
    fn tell_loss(&mut self, at: u64, streams: &[Stream], place: usize) -> Result<(), TellFault>
        ensures told { OnOk result (Tells O.contents self.old.teller self.new.teller (lost_text
            self.old.teller.form self.old.options.universes.now at (slice_get streams.now place))) }
        ensures options { self.new.options ≡ self.old.options }
        ensures failure { self.new.failure ≡ self.old.failure }
    {
        let Some(stream) = streams.get(place) else {
            return Ok(());
        };
        if !self.is_wanted(stream.universe) {
            return Ok(());
        }
        self.teller.tell_loss(at, stream)
    }

    // What a packet told of its stream.
    fn tell_heard(
        &mut self,
        at: u64,
        streams: &[Stream],
        place: usize,
        news: &News,
    ) -> Result<(), TellFault>
        ensures told { OnOk result
            (Tells O.contents self.old.teller self.new.teller (heard_text self.old.teller.form
            self.old.options.universes.now at news.now (slice_get streams.now place))) }
        ensures options { self.new.options ≡ self.old.options }
        ensures failure { self.new.failure ≡ self.old.failure }
    {
        let Some(stream) = streams.get(place) else {
            return Ok(());
        };
        if !self.is_wanted(stream.universe) {
            return Ok(());
        }
        self.teller.tell_news(at, stream, news)
    }

    // How many sources light a universe at its top priority.
    fn tell_contest(&mut self, at: u64, contest: &Contest) -> Result<(), TellFault>
        ensures told { OnOk result (Tells O.contents self.old.teller self.new.teller
            (where_wanted self.old.options.universes.now contest.now.universe
            (with_line_end (rivals_line self.old.teller.form at contest.now.universe
            contest.now.sources contest.now.priority)))) }
        ensures options { self.new.options ≡ self.old.options }
        ensures failure { self.new.failure ≡ self.old.failure }
    {
        if !self.is_wanted(contest.universe) {
            return Ok(());
        }
        self.teller
            .tell_rivals(at, contest.universe, contest.sources, contest.priority)
    }
}

impl<'a, O: Write> Observer for LineWriter<'a, O> {
    ghost use Rattle.sacn_tell.specs.LineWriting.{Writes};

    ghost Notes = { λ old told new. Writes O.contents old told new };

    fn observe(&mut self, occurrence: &Occurrence, monitor: &Monitor) {
        if self.failure.is_some() {
            return;
        }
        if let Err(fault) = self.tell(occurrence.at, &occurrence.what, monitor) {
            self.failure = Some(fault);
        }
    }
}
