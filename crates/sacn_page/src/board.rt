//! What is known of a network, for all viewers.

ghost use Rattle.std.specs.Prelude.{◌≡◌, ◌≤◌, ◌==◌, ℕ, List, IfOk, OnOk, find, is_some, max, option_copied};
ghost use Rattle.sacn_packets.specs.PacketReading.{reading_packet};
ghost use Rattle.sacn_monitor.specs.Books.{new_book, silent_place};
ghost use Rattle.sacn_monitor.specs.Histories.{Call, moment_of};
ghost use Rattle.sacn_tell.specs.Following.{IsTicked, IsTaken};
ghost use Rattle.sacn_network.specs.LightEnds.{first_end};
ghost use Rattle.sacn_network.specs.Networks.{take_told, taken, tick_told, ticked};
ghost use Rattle.sacn_network.specs.Sets.{universes_in};
ghost use Rattle.sacn_page.specs.declared.alarms.Trouble.TheVariants.{Stopped};
ghost use Rattle.sacn_page.specs.Alarms.{alarms_told, no_alarms, with_alarm};
ghost use Rattle.sacn_page.specs.Boards.{has_room, serves};
ghost use Rattle.sacn_page.specs.Replays.{after_call, known_to};
ghost use Rattle.sacn_page.specs.WholeDocuments.{first_heard, universe_shown};

use crate::alarms::{Alarms, Trouble};
use sacn_monitor::{Endpoint, Monitor, Stream};
use sacn_network::{LitUniverse, Network};
use sacn_packets::{Packet, Reading};
use std::alloc::{AllocError, Global};

/// The most universes that are merged at once.
pub const MAX_LIT: usize = 16;

/// What is known of a network. Moments are milliseconds.
///
/// Up to `MAX_LIT` universes are merged: the first ones heard, and those that are looked at, which take the room of others.
#[derive(Drop)]
pub struct Board {
    alloc: Global,
    network: Network,
    alarms: Alarms,
    /// The universe of a viewer that names none, where that isn't the first heard.
    preferred: Option<u16>,
    lit: Vec<LitUniverse>,
}

/// The same board again, with room of its own.
///
/// Errors: OutOfMemory.
impl Clone for Board {
    ghost use Rattle.sacn_page.specs.Boards.{IsSameBoard};

    ghost is_clone = { IsSameBoard };

    fn clone(&self) -> Result<Board, AllocError> {
        Ok(Board {
            alloc: self.alloc,
            network: self.network.clone()?,
            alarms: self.alarms.clone()?,
            preferred: self.preferred,
            lit: self.lit.clone()?,
        })
    }
}

impl Board {
    /// Nothing heard. A viewer that names no universe is shown this one, else the first heard. The latest so many alarms are kept.
    ///
    /// Errors: OutOfMemory.
    pub fn new(alloc: Global, preferred: Option<u16>, alarms: usize) -> Result<Self, AllocError>
        ensures nothing { IfOk result (λ b. b.network.monitor ≡ new_book) }
        ensures alarms { IfOk result (λ b. b.alarms ≡ no_alarms alarms) }
    {
        Ok(Board {
            alloc,
            network: Network::new(alloc)?,
            alarms: Alarms::new(alloc, alarms)?,
            preferred,
            lit: Vec::new(alloc),
        })
    }

    /// Takes what a datagram was read as, after what had ended by silence: the accounts are then those that the monitor has after
    /// this datagram, once.
    ///
    /// Errors: OutOfMemory.
    pub fn take(
        &mut self,
        now: u64,
        sender: Endpoint,
        reading: &Reading<'_>,
    ) -> Result<(), AllocError>
        ensures taken { (octets : List ℕ) → reading.now ≡ reading_packet octets → OnOk result
            (IsTaken now sender octets self.old.network.monitor self.new.network.monitor) }
        ensures network { self.new.network ≡ taken now sender reading.now self.old.network }
        ensures alarms { self.new.alarms
            ≡ alarms_told (take_told now sender reading.now self.old.network) self.old.alarms }
    {
        self.network.take(now, sender, reading, &mut self.alarms);
        self.light(now, reading)
    }

    /// Moves the clock, and returns whether a source was lost. Each call at a later moment leaves what it would without this one.
    pub fn tick(&mut self, now: u64) -> bool
        ensures lost { result ≡ is_some (silent_place
            (max self.old.network.monitor.moment now) self.old.network.monitor.streams) }
        ensures ticked { IsTicked now self.old.network.monitor self.new.network.monitor }
        ensures network { self.new.network ≡ ticked now self.old.network }
        ensures alarms { self.new.alarms
            ≡ alarms_told (tick_told now self.old.network) self.old.alarms }
        ensures later { (call : Call) → now ≤ moment_of call
            → after_call call (known_to self.new) ≡ after_call call (known_to self.old) }
    {
        self.network.tick(now, &mut self.alarms)
    }

    /// Notes that this program was stopped for so many milliseconds, in which it heard nothing. No account changes.
    pub fn note_stop(&mut self, now: u64, millis: u64)
        ensures network { self.new.network ≡ self.old.network }
        ensures alarms { self.new.alarms ≡ with_alarm now (Stopped millis) self.old.alarms }
    {
        self.alarms.add(now, Trouble::Stopped(millis));
    }

    /// The first moment at which something ends by itself, where no packet comes; `u64::MAX` where nothing does.
    pub fn next_end(&self) -> u64
        ensures { result ≡ first_end self.now.network.monitor }
    {
        self.network.next_end()
    }

    /// The accounts of all sources.
    pub fn monitor(&self) -> &Monitor
        ensures { result.now ≡ self.now.network.monitor }
    {
        self.network.monitor()
    }

    /// The latest alarms.
    pub fn alarms(&self) -> &Alarms
        ensures { result.now ≡ self.now.alarms }
    {
        &self.alarms
    }

    /// The universes heard, ascending.
    ///
    /// Errors: a growth was refused.
    pub fn universes_heard(&self) -> Result<Vec<u16>, AllocError>
        ensures { IfOk result (λ heard. heard.items ≡ universes_in self.now.network.heard) }
    {
        self.network.universes_heard(self.alloc)
    }

    /// The universe that is shown to a viewer that names this one, or none.
    pub fn chosen_universe(&self, named: Option<u16>) -> Option<u16>
        ensures { result
            ≡ universe_shown named self.now.preferred self.now.network.monitor.streams }
    {
        named
            .or(self.preferred)
            .or(first_heard(self.monitor().streams()))
    }

    /// A universe as it is merged, where it is.
    pub fn find_lit(&self, universe: u16) -> Option<&LitUniverse>
        ensures { option_copied result
            ≡ find (λ lit. lit.universe == universe) self.now.lit.items }
    {
        self.lit.iter().find(|lit| lit.universe() == universe)
    }

    /// Whether the universe that is shown to a viewer that names this one, or none, is merged from its first packet on: it is merged, or
    /// there is room for it, since while there is room all that are heard are merged.
    pub fn serves(&self, named: Option<u16>) -> bool
        ensures { result ≡ serves named self.now }
    {
        match self.chosen_universe(named) {
            Some(universe) => self.has_room() | self.find_lit(universe).is_some(),
            None => self.has_room(),
        }
    }

    // Whether one universe more can be merged.
    fn has_room(&self) -> bool
        ensures { result ≡ has_room self.now }
    {
        self.lit.len() < MAX_LIT
    }

    /// Sees to it that a universe is merged from now on, in place of one that isn't among those that are looked at. Returns
    /// whether there is room for it.
    ///
    /// Errors: OutOfMemory.
    pub fn open(&mut self, universe: u16, watched: &[u16]) -> Result<bool, AllocError>
        ensures network { self.new.network ≡ self.old.network }
        ensures alarms { self.new.alarms ≡ self.old.alarms }
    {
        if self.find_lit(universe).is_some() {
            return Ok(true);
        }
        if self.has_room() {
            self.add_universe(universe)?;
            return Ok(true);
        }
        for lit in self.lit.iter_mut() {
            if !watched.contains(&lit.universe()) {
                *lit = unlit_universe(self.alloc, universe)?;
                return Ok(true);
            }
        }
        Ok(false)
    }

    /// Merges anew the universes that are looked at.
    pub fn refresh(&mut self, now: u64, watched: &[u16])
        ensures network { self.new.network ≡ self.old.network }
        ensures alarms { self.new.alarms ≡ self.old.alarms }
    {
        for lit in self.lit.iter_mut() {
            if watched.contains(&lit.universe()) {
                lit.refresh(now);
            }
        }
    }

    // Gives a data packet to its universe, where that is merged or there is room for it.
    fn light(&mut self, now: u64, reading: &Reading<'_>) -> Result<(), AllocError>
        ensures network { self.new.network ≡ self.old.network }
        ensures alarms { self.new.alarms ≡ self.old.alarms }
    {
        let Ok(Packet::DataPacket(packet)) = reading else {
            return Ok(());
        };
        let universe = packet.universe();
        if self.find_lit(universe).is_none() && self.has_room() {
            self.add_universe(universe)?;
        }
        for lit in self.lit.iter_mut() {
            if lit.universe() == universe {
                lit.take(now, packet);
            }
        }
        Ok(())
    }

    // Merges one universe more, of which nothing was heard. Out of line, so that its arrays are cleared here and not with each datagram.
    #[inline(never)]
    fn add_universe(&mut self, universe: u16) -> Result<(), AllocError>
        ensures network { self.new.network ≡ self.old.network }
        ensures alarms { self.new.alarms ≡ self.old.alarms }
    {
        self.lit.push(unlit_universe(self.alloc, universe)?)?;
        Ok(())
    }
}

// The universe of the first source that was heard.
fn first_heard(streams: &[Stream]) -> Option<u16>
    ensures { result ≡ first_heard streams.now }
{
    match streams.first() {
        Some(stream) => Some(stream.universe),
        None => None,
    }
}

// A universe of which nothing was heard.
fn unlit_universe(alloc: Global, universe: u16) -> Result<LitUniverse, AllocError> {
    match LitUniverse::new(alloc, universe) {
        Ok(lit) => Ok(lit),
        Err(_) => Err(AllocError),
    }
}
