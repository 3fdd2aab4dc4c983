//! A universe whose levels are shown.

ghost use Rattle.std.specs.Prelude.{◌≡◌, ◌<◌, None, slice_index_or};
ghost use Rattle.sacn_sources.specs.Givers.{givers_of};
ghost use Rattle.sacn_sources.specs.Packets.{packet_of};
ghost use Rattle.sacn_sources.specs.Rows.{after_expire, slots_of};
ghost use Rattle.sacn_sources.specs.LatestMerge.{kept_after_take, kept_after_merged};

use crate::places::giver_places;
use sacn_monitor::Monitor;
use sacn_packets::{DataView, SLOTS};
use sacn_sources::{Givers, SourceTable, TableFault};
use std::alloc::{AllocError, Global};
use std::marker::Model;

/// A universe with the sources that light it, merged as a node merges them, and who gives each slot its level.
#[derive(Drop)]
pub struct LitUniverse {
    universe: u16,
    table: SourceTable,
    levels: [u8; SLOTS],
    givers: Givers,
}

impl Model for LitUniverse {
    ghost use Rattle.sacn_network.specs.LitUniverses.{Lit};

    ghost Value = { Lit };

    ghost view = { λ u. record {
      universe = u.universe;
      sources = u.table;
      shown = u.levels;
      givers = u.givers;
    } };
}

/// The same universe again, with room of its own.
///
/// Errors: a request for memory was refused.
impl Clone for LitUniverse {
    ghost is_clone = { λ lit copy. copy ≡ lit };

    fn clone(&self) -> Result<LitUniverse, AllocError> {
        Ok(LitUniverse {
            universe: self.universe,
            table: self.table.clone()?,
            levels: self.levels,
            givers: self.givers.clone()?,
        })
    }
}

impl LitUniverse {
    ghost use Rattle.sacn_network.specs.LitUniverses.{giver_places, nothing_lit};
    ghost use Rattle.std.specs.Prelude.{IfOk};

    /// This universe, of which nothing was heard.
    ///
    /// Errors: OutOfMemory.
    pub fn new(alloc: Global, universe: u16) -> Result<Self, TableFault>
        ensures { IfOk result (λ u. u ≡ nothing_lit universe) }
    {
        Ok(LitUniverse {
            universe,
            table: SourceTable::new(alloc)?,
            levels: [0; SLOTS],
            givers: Givers::new(),
        })
    }

    /// Which universe, 1 to 63999 (E1.31, 6.2.7).
    pub fn universe(&self) -> u16
        ensures { result ≡ self.now.universe }
    {
        self.universe
    }

    /// Becomes this universe. What it holds of sources stays.
    pub fn rename(&mut self, universe: u16)
        ensures { self.new ≡ record self.old { universe = universe } }
    {
        self.universe = universe;
    }

    /// The levels of its slots at the latest call of `refresh`.
    pub fn levels(&self) -> &[u8; SLOTS]
        ensures { result.now ≡ self.now.shown }
    {
        &self.levels
    }

    /// The CID of the source that gives a slot its level, at the latest call of `refresh`. Slots are counted from 0, below 512.
    pub fn giver(&self, slot: usize) -> Option<[u8; 16]>
        requires { slot < SLOTS }
        ensures { result ≡ slice_index_or self.now.givers slot None }
    {
        self.givers.of(slot)
    }

    /// For each slot the place of its giver's stream, of those that a monitor has. Each giver is looked up once.
    pub fn places(&self, monitor: &Monitor) -> [Option<usize>; SLOTS]
        ensures { result ≡ giver_places self.now.universe monitor.now.streams self.now.givers }
    {
        giver_places(&self.givers, self.universe, monitor)
    }

    /// Takes a packet of this universe.
    pub fn take(&mut self, now: u64, packet: &DataView<'_>)
        ensures { self.new ≡ record self.old {
          sources = kept_after_take now (packet_of packet.now) self.old.sources;
        } }
    {
        let _ = self.table.take(now, packet);
    }

    /// Merges the levels anew: slot by slot the highest level of the live sources of the highest priority (E1.31, 6.2.3), and 0
    /// where none is live. The giver of a slot is the first of these, by CID, that has this level, and there is none where it is 0.
    pub fn refresh(&mut self, now: u64)
        ensures levels { self.new.shown ≡ slots_of (after_expire now self.old.sources.table).rows }
        ensures givers { self.new.givers
            ≡ givers_of (after_expire now self.old.sources.table).rows }
        ensures sources { self.new.sources ≡ kept_after_merged now self.old.sources }
        ensures universe { self.new.universe ≡ self.old.universe }
    {
        self.givers = self.table.merged_with_givers(now, &mut self.levels);
    }
}
