//! The tables of a node, one for each of its universes.
ghost use Rattle.std.specs.Prelude.{◌≡◌, ◌+◌, ◌<◌, ◌≤◌, ◌^◌, ℕ, List, [], map, length, take, drop, slice_index_or, slice_set, IfOk, IfErr, IfSome, IfNone, AllPairs};
ghost use Rattle.sacn_sources.specs.Packets.{packet_of};
ghost use Rattle.sacn_packets.specs.declared.universe.TheConstants.{SLOTS};
ghost use Rattle.sacn_sources.specs.Rows.{slots_of};
ghost use Rattle.sacn_packets.specs.Universe.{Rising};
ghost use Rattle.sacn_node.specs.declared.limits.TheConstants.{MAX_UNIVERSES};
ghost use Rattle.sacn_node.specs.Storage.{one_expired, lost_in, new_one};
ghost use Rattle.sacn_sources.specs.Wakes.{oldest_by, oldest_of};

use crate::answer::{NodeChange, NodeTaken, change_by};
use crate::limits::MAX_UNIVERSES;
use sacn_packets::{DataView, SLOTS};
use sacn_sources::{HeldView, NETWORK_DATA_LOSS, SourceTable, TableFault, Taken, merge_into};
use std::alloc::Global;
use std::marker::Model;

#[derive(Drop)]
pub(crate) struct OneUniverse {
    pub(crate) universe: u16,
    pub(crate) table: SourceTable,
}

/// The tables, in ascending order of their universes.
#[derive(Drop)]
pub(crate) struct Tables {
    list: Vec<OneUniverse>,
    moment: u64,
    /// No source of any table was renewed before this moment, and one that was renewed at it isn't lost yet.
    earliest: u64,
}

impl Model for Tables {
    ghost use Rattle.sacn_node.specs.Cores.{Core, core_code};
    ghost use Rattle.sacn_node.specs.Storage.{core_of, AreTables};

    ghost Value = { Core };

    ghost coded = { core_code };

    ghost view = { λ t. core_of t.moment t.list.items };

    ghost invariant = { λ t. AreTables t.moment t.earliest t.list.items };
}

impl Tables {
    ghost use Rattle.sacn_node.specs.Cores.{Table, core_at, core_lost, core_reply, core_after, core_row, core_slots, with_taken, with_kept, new_core};
    ghost use Rattle.sacn_sources.specs.Rows.{taken, rows_kept};
    ghost use Rattle.sacn_node.specs.Changes.{universe_by};

    /// An empty table for each of these universes.
    pub(crate) fn new(alloc: Global, universes: &[u16]) -> Result<Self, TableFault>
        requires rising { Rising universes.now }
        requires few { length universes.now ≤ MAX_UNIVERSES }
        ensures { IfOk result (λ n. n ≡ new_core universes.now) }
    {
        Ok(Tables {
            list: new_tables(alloc, universes)?,
            moment: 0,
            earliest: 0,
        })
    }

    pub(crate) fn moment(&self) -> u64
        ensures { result ≡ self.now.moment }
    {
        self.moment
    }

    /// Moves the clock, and drops the sources that are lost, in all tables. Returns how many those were.
    pub(crate) fn expire(&mut self, now: u64) -> usize
        ensures gone { result ≡ core_lost now self.old }
        ensures core { self.new ≡ core_at now self.old }
    {
        let moment = self.moment.max(now);
        if moment.saturating_sub(self.earliest) < NETWORK_DATA_LOSS {
            self.moment = moment;
            return 0;
        }
        self.sweep(now)
    }

    /// Takes a data packet, and says what it may have changed.
    pub(crate) fn take(&mut self, now: u64, packet: &DataView<'_>) -> NodeChange
        ensures taken { result.taken
            ≡ core_reply packet.now.universe (packet_of packet.now) now self.old }
        ensures lost { result.lost ≡ core_lost now self.old }
        ensures universe { result.universe ≡ universe_by packet.now.universe
            (core_reply packet.now.universe (packet_of packet.now) now self.old) }
        ensures core { self.new
            ≡ core_after packet.now.universe (packet_of packet.now) now self.old }
    {
        let lost = self.expire(now);
        let universe = packet.universe();
        match self.search(universe) {
            Ok(at) => change_by(
                NodeTaken::FromTable(self.take_at(at, packet)),
                lost,
                universe,
            ),
            Err(_) => change_by(NodeTaken::OtherUniverse, lost, universe),
        }
    }

    // Each call with a moment drops what is lost at it, so nothing is lost at the moment in use. This costs nothing.
    pub(crate) fn tell_settled(&self)
        ensures { core_at self.now.moment self.now ≡ self.now }
    {
        let _moment = self.moment;
    }

    /// The first moment at which a source that is held is lost, if no packet comes, and `None` where there is none.
    pub(crate) fn wakes(&self) -> Option<u64>
        ensures never { IfNone result ((t : ℕ) → t < 2 ^ 64 → core_lost t self.now ≡ 0) }
        ensures asleep { IfSome result (λ w. (t : ℕ) → t < w → core_lost t self.now ≡ 0) }
        ensures awake { IfSome result (λ w. 1 ≤ core_lost w self.now) }
    {
        oldest_table(&self.list).checked_add(NETWORK_DATA_LOSS)
    }

    /// The source of this CID on a universe.
    pub(crate) fn held(&self, universe: u16, cid: &[u8; 16]) -> Option<HeldView<'_>>
        ensures { result ≡ core_row universe cid.now self.now }
    {
        match self.search(universe) {
            Ok(at) => self.list[at].table.held(cid),
            Err(_) => None,
        }
    }

    /// Writes slots of a universe, from the index `from` on, where all that is lost is dropped already.
    pub(crate) fn slots(&mut self, universe: u16, from: usize, part: &mut [u8])
        requires expired { core_at self.old.moment self.old ≡ self.old }
        requires within { from + length part.old ≤ SLOTS }
        ensures part { part.new
            ≡ take (length part.old) (drop from (core_slots self.old universe)) }
        ensures core { self.new ≡ self.old }
    {
        match self.search(universe) {
            Ok(at) => self.slots_at(at, from, part),
            Err(_) => no_slots(from, part),
        }
    }

    /// Looks at every source of all tables, and drops those that are lost.
    fn sweep(&mut self, now: u64) -> usize
        ensures gone { result ≡ core_lost now self.old }
        ensures core { self.new ≡ core_at now self.old }
    {
        let moment = self.moment.max(now);
        let gone = expire_all(&mut self.list, moment);
        self.moment = moment;
        self.earliest = oldest_table(&self.list).min(moment);
        gone
    }

    /// Takes a packet into the table at this place.
    fn take_at(&mut self, at: usize, packet: &DataView<'_>) -> Taken
        requires { at < length self.old.tables }
        ensures answer { (d : Table) → result ≡ taken (packet_of packet.now)
            (rows_kept self.old.moment (slice_index_or self.old.tables at d).rows) }
        ensures core { (d : Table)
            → self.new ≡ record self.old {
              tables = slice_set self.old.tables at (with_taken
                  (packet_of packet.now) self.old.moment (slice_index_or self.old.tables at d));
            } }
    {
        let moment = self.moment;
        self.list[at].table.take(moment, packet)
    }

    /// Writes slots of the table at this place, from the index `from` on.
    fn slots_at(&mut self, at: usize, from: usize, part: &mut [u8])
        requires there { at < length self.old.tables }
        requires within { from + length part.old ≤ SLOTS }
        ensures part { (d : Table) → part.new ≡ take (length part.old) (drop from
            (slots_of (rows_kept self.old.moment (slice_index_or self.old.tables at d).rows))) }
        ensures core { (d : Table)
            → self.new ≡ record self.old {
              tables = slice_set self.old.tables at
                  (with_kept self.old.moment (slice_index_or self.old.tables at d));
            } }
    {
        let moment = self.moment;
        self.list[at].table.merged_part(moment, from, part);
    }

    /// Where the table of a universe is, or where it would go.
    fn search(&self, universe: u16) -> Result<usize, usize>
        ensures found { IfOk result (λ at. (at < length self.now.tables)
            × ((d : Table) → (slice_index_or self.now.tables at d).universe ≡ universe) × ((j : ℕ)
            (d : Table) → j < at → (slice_index_or self.now.tables j d).universe < universe)) }
        ensures gap { IfErr result (λ at. at ≤ length self.now.tables) }
        ensures absent { IfErr result (λ at. (j : ℕ) (d : Table) → j < length self.now.tables
            → (j < at → (slice_index_or self.now.tables j d).universe < universe)
            × (at ≤ j → universe < (slice_index_or self.now.tables j d).universe)) }
    {
        self.list.binary_search_by_key(
            &universe,
            |one: &OneUniverse| -> u16
                ensures { result ≡ one.now.universe }
            { one.universe },
        )
    }
}

/// The moment of the source of these tables that was renewed the longest ago, and `u64::MAX` where none is held.
fn oldest_table(tables: &[OneUniverse]) -> u64
    ensures { result ≡ oldest_by (λ o. oldest_of o.table.table.rows) tables.now }
{
    let mut oldest = u64::MAX;
    for one in tables {
        oldest = oldest.min(one.table.oldest());
    }
    oldest
}

/// Writes slots of a universe that no table has, from the index `from` on: those of no source.
fn no_slots(from: usize, part: &mut [u8])
    requires { from + length part.old ≤ SLOTS }
    ensures { part.new ≡ take (length part.old) (drop from (slots_of [])) }
{
    let mut slots = [0; SLOTS];
    merge_into(&[], &mut slots);
    part.copy_from_slice(&slots[from..from + part.len()]);
}

fn expire_all(tables: &mut [OneUniverse], now: u64) -> usize
    requires { length tables.old ≤ MAX_UNIVERSES }
    ensures gone { result ≡ lost_in now tables.old }
    ensures tables { tables.new ≡ map (one_expired now) tables.old }
{
    let mut gone = 0;
    for one in tables.iter_mut() {
        gone += one.table.expire(now);
    }
    gone
}

/// An empty table for each of these universes, in their order.
fn new_tables(alloc: Global, universes: &[u16]) -> Result<Vec<OneUniverse>, TableFault>
    ensures { IfOk result (λ list. list.items ≡ map new_one universes.now) }
{
    let mut list = Vec::with_capacity(alloc, universes.len())?;
    for universe in universes {
        let table = SourceTable::new(alloc)?;
        list.push(OneUniverse {
            universe: *universe,
            table,
        })?;
    }
    Ok(list)
}
