//! What happens, told as it happens.

ghost use Rattle.std.specs.Prelude.{◌≡◌, ◌≤◌, ℕ, List, IfErr, IfNone, IfOk, IfSome, OnErr, OnOk, is_some, max, true};
ghost use Rattle.sacn_packets.specs.PacketReading.{reading_packet};
ghost use Rattle.sacn_network.specs.LightEnds.{first_end};
ghost use Rattle.sacn_network.specs.Networks.{new_network};
ghost use Rattle.sacn_tell.specs.Causes.{cause_among};
ghost use Rattle.sacn_tell.specs.Datagrams.{TellsTurn};
ghost use Rattle.sacn_tell.specs.Faults.{IsOfTelling};
ghost use Rattle.sacn_tell.specs.Following.{IsTicked, IsTaken};
ghost use Rattle.sacn_tell.specs.KeptLists.{after_reading, listed_in, none_listed};
ghost use Rattle.sacn_tell.specs.Lines.{stop_line};
ghost use Rattle.sacn_tell.specs.ListBooks.{list_book, page_told};
ghost use Rattle.sacn_tell.specs.Shows.{after_loss, after_turn, loss_shown, staged, turn_shown};
ghost use Rattle.sacn_tell.specs.Silences.{IsLit, IsNextDark, IsQuiet, TellsDark, TellsSilence, after_dark, dark_reason, dark_told, scene_of};
ghost use Rattle.sacn_tell.specs.Tables.{tables_told};
ghost use Rattle.sacn_tell.specs.Tellings.{Tells, with_line_end};

use crate::cause::{cause_of, loss_of};
use crate::fault::{ExplainFault, TellFault};
use crate::line_writer::LineWriter;
use crate::listings::Listings;
use crate::options::Options;
use crate::report::Report;
use crate::stage::Stage;
use sacn_monitor::{Endpoint, Noted, Stream, Tally};
use sacn_network::{Network, Unobserved};
use sacn_node::NodeSetup;
use sacn_packets::{Reading, read_packet};
use std::alloc::Global;
use std::io::Write;

/// Tells what happens on a network, datagram by datagram: a line for each thing that happens, in order. With a node's setup it
/// tells the frames of that node too, each with its cause.
///
/// Moments are in milliseconds. Each call uses the greatest moment that was handed in so far. Its memory doesn't grow with the
/// number of datagrams: it follows up to `sacn_monitor::MAX_STREAMS` sources on universes, and the lists of up to
/// `MAX_LISTINGS` sources.
#[derive(Drop)]
pub struct Follower<'a, O> {
    network: Network,
    listings: Listings,
    stage: Option<Stage>,
    writer: LineWriter<'a, O>,
}

impl<'a, O: Write> Follower<'a, O> {
    /// A follower that has heard nothing. The frames of a node are told at once.
    ///
    /// Errors: OutOfMemory; Device where a line can't be written.
    pub fn new(
        alloc: Global,
        options: Options<'a>,
        setup: Option<&NodeSetup>,
        out: &'a mut O,
    ) -> Result<Self, ExplainFault>
        ensures nothing { IfOk result (λ f. f.network ≡ new_network) }
        ensures listed { IfOk result (λ f. listed_in f.listings ≡ none_listed) }
        ensures options { IfOk result (λ f. f.writer.options ≡ options.entry) }
        ensures stage { IfOk result (λ f. is_some f.stage ≡ is_some setup.entry) }
        ensures fault { IfErr result IsOfTelling }
    {
        let network = Network::new(alloc)?;
        let mut writer = LineWriter::new(alloc, options, out);
        let stage = match setup {
            Some(setup) => Some(Stage::start(alloc, setup, &mut writer.teller)?),
            None => None,
        };
        Ok(Follower {
            network,
            listings: Listings::new(alloc),
            stage,
            writer,
        })
    }

    /// Takes a datagram that came at a moment from a sender, and tells what it changed, after what had ended by silence: the
    /// accounts are then those that the monitor has after this datagram, once.
    ///
    /// Errors: OutOfMemory; Device where a line can't be written.
    pub fn take(&mut self, now: u64, sender: Endpoint, octets: &[u8]) -> Result<(), ExplainFault>
        ensures moment { self.new.network.monitor.moment ≡ max self.old.network.monitor.moment now }
        ensures told { OnOk result (TellsTurn O.contents (max self.old.network.monitor.moment now)
            sender (reading_packet octets.now) self.old self.new) }
        ensures taken { OnOk result (IsTaken (max self.old.network.monitor.moment now)
            sender octets.now self.old.network.monitor self.new.network.monitor) }
        ensures listed { OnOk result (listed_in self.new.listings
            ≡ after_reading (reading_packet octets.now) (listed_in self.old.listings)) }
        ensures fault { IfErr result IsOfTelling }
    {
        self.take_reading(now, sender, &read_packet(octets))
    }

    /// The same of a datagram that was read.
    ///
    /// Errors: OutOfMemory; Device where a line can't be written.
    pub fn take_reading(
        &mut self,
        now: u64,
        sender: Endpoint,
        reading: &Reading<'_>,
    ) -> Result<(), ExplainFault>
        ensures moment { self.new.network.monitor.moment ≡ max self.old.network.monitor.moment now }
        ensures told { OnOk result (TellsTurn O.contents (max self.old.network.monitor.moment now)
            sender reading.now self.old self.new) }
        ensures taken { (octets : List ℕ) → reading.now ≡ reading_packet octets → OnOk result
            (IsTaken (max self.old.network.monitor.moment now)
            sender octets self.old.network.monitor self.new.network.monitor) }
        ensures listed { OnOk result (listed_in self.new.listings
            ≡ after_reading reading.now (listed_in self.old.listings)) }
        ensures fault { IfErr result IsOfTelling }
    {
        let until = self.tell_dark(now)?;
        let noted = self.network.take(until, sender, reading, &mut self.writer);
        self.writer.settle()?;
        self.tell_page(until, reading)?;
        self.show_turn(until, reading, noted)?;
        Ok(())
    }

    /// Tells what has ended by silence up to a moment, each thing at its own moment.
    ///
    /// Errors: OutOfMemory; Device where a line can't be written.
    pub fn tick(&mut self, now: u64) -> Result<(), ExplainFault>
        ensures moment { self.new.network.monitor.moment ≡ max self.old.network.monitor.moment now }
        ensures told { OnOk result (TellsSilence O.contents
            (max self.old.network.monitor.moment now) self.old self.new) }
        ensures quiet { OnOk result
            (IsQuiet (max self.old.network.monitor.moment now) self.new) }
        ensures ticked { OnOk result (IsTicked (max self.old.network.monitor.moment now)
            self.old.network.monitor self.new.network.monitor) }
        ensures options { self.new.writer.options ≡ self.old.writer.options }
        ensures listings { self.new.listings ≡ self.old.listings }
        ensures fault { IfErr result IsOfTelling }
    {
        let until = self.tell_dark(now)?;
        self.network.tick(until, &mut self.writer);
        self.writer.settle()?;
        Ok(())
    }

    /// Tells that this program was stopped for so many milliseconds, in which it heard nothing. No account changes, and nothing
    /// ends.
    ///
    /// Errors: OutOfMemory; Device where a line can't be written.
    pub fn tell_stop(&mut self, now: u64, millis: u64) -> Result<(), ExplainFault>
        ensures told { OnOk result (Tells O.contents self.old.writer.teller self.new.writer.teller
            (with_line_end (stop_line self.old.writer.teller.form now millis))) }
        ensures network { self.new.network ≡ self.old.network }
        ensures listings { self.new.listings ≡ self.old.listings }
        ensures fault { IfErr result IsOfTelling }
    {
        self.writer.teller.tell_stop(now, millis)?;
        Ok(())
    }

    /// Tells the tables of sources, universes and lists, and these counts.
    ///
    /// Errors: OutOfMemory; Device where a line can't be written.
    pub fn finish(&mut self, report: &Report) -> Result<(), ExplainFault>
        ensures told { OnOk result (Tells O.contents self.old.writer.teller self.new.writer.teller
            (tables_told self.old.writer.teller.form self.old.writer.options.universes.now
            self.old.network.monitor.streams self.old.listings.known.items report.now)) }
        ensures network { self.new.network ≡ self.old.network }
        ensures listings { self.new.listings ≡ self.old.listings }
        ensures fault { IfErr result IsOfTelling }
    {
        self.writer
            .tell_tables(self.network.monitor(), &self.listings, report)?;
        Ok(())
    }

    /// The first moment at which something ends by itself that wasn't told, where no datagram comes: a source is lost, or its
    /// light goes out. `u64::MAX` where nothing does.
    pub fn next_end(&self) -> u64
        ensures { result ≡ first_end self.now.network.monitor }
    {
        self.network.next_end()
    }

    /// The datagrams so far, by what they were.
    pub fn tally(&self) -> &Tally
        ensures { result.now ≡ self.now.network.monitor.tally }
    {
        self.network.monitor().tally()
    }

    /// The sources on universes so far, in the order in which they appeared.
    pub fn streams(&self) -> &[Stream]
        ensures { result.now ≡ self.now.network.monitor.streams }
    {
        self.network.monitor().streams()
    }

    /// Pages of sources for whose lists there was no room.
    pub fn pages_passed(&self) -> u64
        ensures { result ≡ (listed_in self.now.listings).passed }
    {
        self.listings.pages_passed()
    }

    // Tells what the node loses up to now, each time behind the losses of the network up to then. Returns the moment in use. The
    // network's clock comes there where something can't be told, too.
    fn tell_dark(&mut self, now: u64) -> Result<u64, TellFault>
        ensures moment { IfOk result (λ t. t ≡ max self.old.network.monitor.moment now) }
        ensures by { self.new.network.monitor.moment
            ≤ max self.old.network.monitor.moment now }
        ensures clock { OnErr result
            (self.new.network.monitor.moment ≡ max self.old.network.monitor.moment now) }
        ensures told { IfOk result (λ t. TellsDark O.contents t self.old self.new) }
        ensures lit { IfOk result (λ t. IsLit t (staged self.new.stage)) }
        ensures options { self.new.writer.options ≡ self.old.writer.options }
        ensures listings { self.new.listings ≡ self.old.listings }
    {
        let until = self.network.monitor().moment().max(now);
        if self.stays_lit(until) {
            return Ok(until);
        }
        self.look_for_dark(now)
    }

    // Whether the node loses nothing up to a moment, as far as is known without a look at it.
    fn stays_lit(&self, until: u64) -> bool
        ensures { result ≡ true → IsLit until (staged self.now.stage) }
    {
        match &self.stage {
            Some(stage) => stage.sleeps_past(until),
            None => true,
        }
    }

    // The same as `tell_dark`, by a look at the node. (Out of line: most calls have nothing to look for.)
    #[inline(never)]
    fn look_for_dark(&mut self, now: u64) -> Result<u64, TellFault>
        ensures moment { IfOk result (λ t. t ≡ max self.old.network.monitor.moment now) }
        ensures by { self.new.network.monitor.moment
            ≤ max self.old.network.monitor.moment now }
        ensures clock { OnErr result
            (self.new.network.monitor.moment ≡ max self.old.network.monitor.moment now) }
        ensures told { IfOk result (λ t. TellsDark O.contents t self.old self.new) }
        ensures lit { IfOk result (λ t. IsLit t (staged self.new.stage)) }
        ensures options { self.new.writer.options ≡ self.old.writer.options }
        ensures listings { self.new.listings ≡ self.old.listings }
    {
        let until = self.network.monitor().moment().max(now);
        if let Err(fault) = self.tell_each_dark(until) {
            self.network.tick(until, &mut Unobserved);
            return Err(fault);
        }
        Ok(until)
    }

    // Tells what the node loses up to a moment that is no earlier than the clock.
    fn tell_each_dark(&mut self, until: u64) -> Result<(), TellFault>
        ensures by { self.new.network.monitor.moment
            ≤ max self.old.network.monitor.moment until }
        ensures told { OnOk result (TellsDark O.contents until self.old self.new) }
        ensures lit { OnOk result (IsLit until (staged self.new.stage)) }
        ensures options { self.new.writer.options ≡ self.old.writer.options }
        ensures listings { self.new.listings ≡ self.old.listings }
    {
        for _ in 0..u64::MAX {
            let Some(at) = self.next_dark(until) else {
                return Ok(());
            };
            self.tell_dark_at(at)?;
        }
        // No node holds so many sources.
        Err(TellFault::Device)
    }

    // The moment at which the node loses a source next, where that comes by this one.
    fn next_dark(&mut self, until: u64) -> Option<u64>
        ensures past { IfSome result (λ at. at ≤ until) }
        ensures next { IfSome result (λ at. IsNextDark at (staged self.old.stage)) }
        ensures none { IfNone result (IsLit until (staged self.old.stage)) }
        ensures scene { scene_of self.new ≡ scene_of self.old }
        ensures writer { self.new.writer ≡ self.old.writer }
        ensures listings { self.new.listings ≡ self.old.listings }
    {
        match &mut self.stage {
            Some(stage) => stage.loss_by(until),
            None => None,
        }
    }

    // The losses of the network up to a moment, and then the frames of the node, which loses a source then.
    fn tell_dark_at(&mut self, at: u64) -> Result<(), TellFault>
        ensures clock { self.new.network.monitor.moment ≡ max self.old.network.monitor.moment at }
        ensures told { OnOk result (Tells O.contents self.old.writer.teller self.new.writer.teller
            (dark_told at (scene_of self.old) self.old.writer.teller.form
            self.old.writer.options.universes.now)) }
        ensures scene { OnOk result (scene_of self.new ≡ after_dark at (scene_of self.old)) }
        ensures options { self.new.writer.options ≡ self.old.writer.options }
        ensures listings { self.new.listings ≡ self.old.listings }
    {
        self.network.tick(at, &mut self.writer);
        self.writer.settle()?;
        self.show_dark(at)
    }

    // The frames of the node, where it loses a source at a moment.
    fn show_dark(&mut self, at: u64) -> Result<(), TellFault>
        ensures told { OnOk result (Tells O.contents self.old.writer.teller self.new.writer.teller
            (loss_shown self.old.writer.teller.form at
            (dark_reason at self.old.network (staged self.old.stage)) (staged self.old.stage))) }
        ensures stage { OnOk result
            (staged self.new.stage ≡ after_loss at (staged self.old.stage)) }
        ensures network { self.new.network ≡ self.old.network }
        ensures options { self.new.writer.options ≡ self.old.writer.options }
        ensures listings { self.new.listings ≡ self.old.listings }
    {
        let Some(stage) = &mut self.stage else {
            return Ok(());
        };
        let cause = loss_of(self.network.monitor().streams(), stage.node(), at);
        stage.tick(at);
        stage.show(at, &cause, &mut self.writer.teller)
    }

    // The list of a source, where a page makes it another one than before.
    fn tell_page(&mut self, now: u64, reading: &Reading<'_>) -> Result<(), TellFault>
        ensures told { OnOk result (Tells O.contents self.old.writer.teller self.new.writer.teller
            (page_told self.old.writer.teller.form now reading.now (list_book self.old.listings))) }
        ensures listed { OnOk result (listed_in self.new.listings
            ≡ after_reading reading.now (listed_in self.old.listings)) }
        ensures network { self.new.network ≡ self.old.network }
        ensures stage { self.new.stage ≡ self.old.stage }
        ensures options { self.new.writer.options ≡ self.old.writer.options }
    {
        self.writer.tell_page(now, reading, &mut self.listings)
    }

    // The frames of the node after a datagram.
    fn show_turn(&mut self, now: u64, reading: &Reading<'_>, noted: Noted) -> Result<(), TellFault>
        ensures told { OnOk result (Tells O.contents self.old.writer.teller self.new.writer.teller
            (turn_shown self.old.writer.teller.form now reading.now
            (cause_among self.old.network.monitor.streams noted) (staged self.old.stage))) }
        ensures stage { OnOk result
            (staged self.new.stage ≡ after_turn now reading.now (staged self.old.stage)) }
        ensures network { self.new.network ≡ self.old.network }
        ensures listings { self.new.listings ≡ self.old.listings }
    {
        let Some(stage) = &mut self.stage else {
            return Ok(());
        };
        if !stage.take(now, reading) {
            return Ok(());
        }
        let cause = cause_of(self.network.monitor().streams(), noted);
        stage.show(now, &cause, &mut self.writer.teller)
    }
}
