//! What a screen shows.

ghost use Rattle.std.specs.Prelude.{◌≡◌, ◌&&◌, ℕ, List, IfOk, OnOk, OnErr, None, is_some, max, true, false};
ghost use Rattle.sacn_packets.specs.PacketReading.{reading_packet};
ghost use Rattle.sacn_monitor.specs.Books.{new_book, silent_place};
ghost use Rattle.sacn_sources.specs.LatestMerge.{new_kept, kept_after_merged};
ghost use Rattle.sacn_sources.specs.Rows.{after_expire, slots_of};
ghost use Rattle.sacn_sources.specs.Givers.{givers_of};
ghost use Rattle.sacn_tell.specs.Following.{IsTaken, IsTicked};
ghost use Rattle.sacn_watch.specs.Views.{after_choice, after_look, after_look_where, after_packet, after_reading, chosen, is_shown, places_shown, shown_of, shown_with, IsSteered};

use crate::fault::WatchFault;
use crate::keys::Key;
use crate::steering::{Steering, universe_after, universe_before};
use sacn_monitor::{Endpoint, Monitor};
use sacn_network::{LitUniverse, Network, Unobserved};
use sacn_packets::{DataView, Packet, Reading, SLOTS};
use std::alloc::Global;

/// What is known of a network, and the levels of one of its universes.
#[derive(Drop)]
pub struct View {
    network: Network,
    /// The universe whose levels are shown, once it is known which.
    lit: LitUniverse,
    /// It is known: it was asked for, or a packet came.
    is_chosen: bool,
    /// A data packet of it came since.
    is_heard: bool,
    /// What the crew chose to see.
    pub steering: Steering,
    /// The milliseconds for which this program was stopped, in all.
    pub stopped: u64,
}

impl View {
    /// Nothing heard yet.
    ///
    /// Errors: OutOfMemory.
    pub fn new(alloc: Global, universe: Option<u16>) -> Result<Self, WatchFault>
        ensures nothing { IfOk result (λ v. v.network.monitor ≡ new_book) }
        ensures universe { IfOk result (λ v. chosen v ≡ universe) }
        ensures sources { IfOk result (λ v. v.lit.sources ≡ new_kept) }
        ensures unheard { IfOk result (λ v. v.is_heard ≡ false) }
    {
        Ok(View {
            network: Network::new(alloc)?,
            lit: LitUniverse::new(alloc, universe.unwrap_or(0))?,
            is_chosen: universe.is_some(),
            is_heard: false,
            steering: Steering::new(),
            stopped: 0,
        })
    }

    /// Takes what a datagram was read as that came at a moment from a sender: once, after the losses up to then. A data packet of
    /// the universe whose levels are shown goes to its table of sources; where none was shown yet it is the packet's from now on.
    pub fn take(&mut self, now: u64, sender: Endpoint, reading: &Reading<'_>)
        ensures taken { (octets : List ℕ) → reading.now ≡ reading_packet octets →
            IsTaken now sender octets self.old.network.monitor self.new.network.monitor }
        ensures shown { shown_of self.new ≡ after_reading now reading.now (shown_of self.old) }
    {
        let _ = self.network.take(now, sender, reading, &mut Unobserved);
        match reading {
            Ok(Packet::DataPacket(packet)) => self.take_levels(now, packet),
            Ok(Packet::PagePacket(_)) => {}
            Ok(Packet::SyncPacket) => {}
            Err(_) => {}
        }
    }

    /// Moves the clock. Returns whether a source was lost.
    pub fn tick(&mut self, now: u64) -> bool
        ensures lost { result ≡ is_some (silent_place
            (max self.old.network.monitor.moment now) self.old.network.monitor.streams) }
        ensures ticked { IsTicked now self.old.network.monitor self.new.network.monitor }
        ensures clock { self.new.network.monitor.moment
            ≡ max self.old.network.monitor.moment now }
        ensures universe { chosen self.new ≡ chosen self.old }
        ensures lit { self.new.lit ≡ self.old.lit }
        ensures shown { shown_of self.new ≡ shown_of self.old }
    {
        self.network.tick(now, &mut Unobserved)
    }

    /// The accounts of the sources on universes.
    pub fn monitor(&self) -> &Monitor
        ensures { result.now ≡ self.now.network.monitor }
    {
        self.network.monitor()
    }

    /// The universe whose levels are shown: the one chosen last, else the one asked for, else the first heard.
    pub fn universe(&self) -> Option<u16>
        ensures { result ≡ chosen self.now }
    {
        if self.is_chosen {
            Some(self.lit.universe())
        } else {
            None
        }
    }

    /// Whether a data packet of it came since it was chosen.
    pub fn is_heard(&self) -> bool
        ensures { result ≡ self.now.is_heard }
    {
        self.is_heard
    }

    // Whether the levels of this universe are shown.
    fn shows(&self, universe: u16) -> bool
        ensures { result ≡ is_shown universe (chosen self.now) }
    {
        match self.universe() {
            Some(shown) => shown == universe,
            None => false,
        }
    }

    /// Shows the levels of this universe from now on, by the packets that come from now on. Where it is shown already nothing
    /// changes, nor where memory is refused.
    ///
    /// Errors: OutOfMemory.
    pub fn choose_universe(&mut self, alloc: Global, universe: u16) -> Result<(), WatchFault>
        ensures network { self.new.network ≡ self.old.network }
        ensures shown { OnOk result
            (shown_of self.new ≡ after_choice universe (shown_of self.old)) }
        ensures kept { OnErr result (shown_of self.new ≡ shown_of self.old) }
    {
        if self.shows(universe) {
            return Ok(());
        }
        self.lit = LitUniverse::new(alloc, universe)?;
        self.is_chosen = true;
        self.is_heard = false;
        self.steering.marks.stop();
        Ok(())
    }

    /// A key is pressed: it goes to another universe, or changes how what is heard is shown.
    ///
    /// Errors: OutOfMemory.
    pub fn press(&mut self, alloc: Global, key: Key) -> Result<(), WatchFault>
        ensures network { self.new.network ≡ self.old.network }
        ensures steered { IsSteered (shown_of self.old) (shown_of self.new) }
    {
        match self.steer(key) {
            Some(universe) => self.choose_universe(alloc, universe),
            None => Ok(()),
        }
    }

    // What a key does, but for the choice of a universe, which is returned.
    fn steer(&mut self, key: Key) -> Option<u16>
        ensures network { self.new.network ≡ self.old.network }
        ensures shown { shown_of self.new ≡ shown_of self.old }
    {
        let asked = self.steering.press(key);
        match key {
            Key::Left => self.neighbour(false),
            Key::Right => self.neighbour(true),
            Key::Letter(b'f') => self.mark(),
            Key::Letter(b'F') => self.mark(),
            _ => asked,
        }
    }

    // The universe that was heard beside the one that is shown.
    fn neighbour(&self, is_above: bool) -> Option<u16> {
        let streams = self.network.monitor().streams();
        let universe = self.universe().unwrap_or(0);
        if is_above {
            universe_after(streams, universe)
        } else {
            universe_before(streams, universe)
        }
    }

    // Marks the slots that change from now on, or none any more.
    fn mark(&mut self) -> Option<u16>
        ensures network { self.new.network ≡ self.old.network }
        ensures shown { shown_of self.new ≡ shown_of self.old }
        ensures none { result ≡ None }
    {
        if self.steering.marks.are_on() {
            self.steering.marks.stop();
        } else if self.is_heard {
            self.steering.marks.start(self.lit.levels());
        }
        None
    }

    /// Whether a datagram may have changed the levels that are shown.
    pub fn is_concerned(&self, reading: &Reading<'_>) -> bool {
        match reading {
            Ok(Packet::DataPacket(packet)) => self.shows(packet.universe()),
            Ok(Packet::PagePacket(_)) => false,
            Ok(Packet::SyncPacket) => false,
            Err(_) => false,
        }
    }

    /// Looks at the levels where they may have changed, and slots that change are marked.
    pub fn note_changes(&mut self, now: u64, is_concerned: bool)
        ensures network { self.new.network ≡ self.old.network }
        ensures looked { shown_of self.new ≡ after_look_where
            (is_concerned && self.old.steering.marks.is_on) now (shown_of self.old) }
    {
        if is_concerned && self.steering.marks.are_on() {
            self.refresh(now);
        }
    }

    /// The levels of its slots at the latest call of `refresh`: those of the highest priority merged, the highest level of each slot
    /// (E1.31, 6.2.3).
    pub fn levels(&self) -> &[u8; SLOTS]
        ensures { result.now ≡ self.now.lit.shown }
    {
        self.lit.levels()
    }

    /// For each slot the place of the stream of the source that gives it its level, where that isn't 0: of the live sources of the
    /// highest priority the first by CID that has this level. Each source is looked up once.
    #[tactic(auto, unfolding(crate::specs::Views::places_shown))]
    pub fn places(&self) -> [Option<usize>; SLOTS]
        ensures { result
            ≡ places_shown (chosen self.now) self.now.network.monitor.streams self.now.lit.givers }
    {
        match self.universe() {
            Some(_) => self.lit.places(self.monitor()),
            None => [None; SLOTS],
        }
    }

    /// Merges the levels anew, and notes who gives them.
    pub fn refresh(&mut self, now: u64)
        ensures levels { self.new.lit.shown
            ≡ slots_of (after_expire now self.old.lit.sources.table).rows }
        ensures givers { self.new.lit.givers
            ≡ givers_of (after_expire now self.old.lit.sources.table).rows }
        ensures sources { self.new.lit.sources ≡ kept_after_merged now self.old.lit.sources }
        ensures network { self.new.network ≡ self.old.network }
        ensures universe { chosen self.new ≡ chosen self.old }
        ensures shown { shown_of self.new ≡ after_look now (shown_of self.old) }
    {
        self.lit.refresh(now);
        self.steering.marks.note(self.lit.levels());
    }

    // A data packet.
    fn take_levels(&mut self, now: u64, packet: &DataView<'_>)
        ensures network { self.new.network ≡ self.old.network }
        ensures shown { shown_of self.new ≡ after_packet now packet.now (shown_of self.old) }
    {
        self.choose(packet.universe());
        if self.lit.universe() == packet.universe() {
            self.lit.take(now, packet);
            self.is_heard = true;
        }
    }

    // Shows this universe from now on, where none was shown yet.
    fn choose(&mut self, universe: u16)
        ensures network { self.new.network ≡ self.old.network }
        ensures universe { self.new.lit.universe ≡ shown_with universe (chosen self.old) }
        ensures chosen { self.new.is_chosen ≡ true }
        ensures sources { self.new.lit.sources ≡ self.old.lit.sources }
        ensures heard { self.new.is_heard ≡ self.old.is_heard }
    {
        if !self.is_chosen {
            self.is_chosen = true;
            self.lit.rename(universe);
        }
    }
}
