//! The entries of a table, and the levels that are stored for them.

mod copying;
mod giving;
mod lending;

ghost use Rattle.std.specs.Prelude.{◌≡◌, ◌↔◌, ◌<◌, ◌≤◌, IsTrue, false, not, remove, ℕ, [], length, is_some, slice_index_or, slice_set, max, IfOk, IfErr};

use crate::answer::Taken;
use crate::entry::{Entry, entry_at, oldest_entry, place_of, renew, renumber};
use crate::fault::TableFault;
use crate::kind::{Kind, kind_of};
use crate::limits::{MAX_SOURCES, NETWORK_DATA_LOSS};
use crate::sequence::in_sequence;
use crate::slots::{Layer, Levels, merge_into};
use arrayvec::ArrayVec;
use sacn_packets::DataView;
use slab::Slab;
use std::alloc::{Allocator, Global};
use std::marker::Model;

/// The sources, in strictly ascending order of CID, each with stored levels of its own.
#[derive(Drop)]
pub(crate) struct Store {
    entries: ArrayVec<Entry, MAX_SOURCES>,
    frames: Slab<Levels>,
    moment: u64,
}

/// What an expiry dropped.
#[derive(Clone, Copy)]
pub(crate) struct Lost {
    pub(crate) sources: usize,
    /// Whether one of them was live, so that what is shown changed.
    pub(crate) live: bool,
}

impl Model for Store {
    ghost use Rattle.sacn_sources.specs.Rows.{Table, table_code};
    ghost use Rattle.sacn_sources.specs.Storage.{rows_in, AreStored};

    ghost Value = { Table };

    ghost coded = { table_code };

    ghost view = { λ t. record { rows = rows_in t.frames t.entries.items; moment = t.moment } };

    ghost invariant = { λ t. AreStored t.entries.items t.frames };
}

impl Store {
    ghost use Rattle.sacn_sources.specs.Sequence.{is_late};
    ghost use Rattle.sacn_sources.specs.Rows.{Row, new_table, row_renewed, rows_kept, rows_lost, row_of, put_row, row_live, row_ended, row_observed, taken, take_row, after_expire, layers, slots_of};
    ghost use Rattle.sacn_sources.specs.Packets.{packet_of};
    ghost use Rattle.sacn_sources.specs.LatestMerge.{loses_live};
    ghost use Rattle.sacn_sources.specs.Rows.{renews};
    ghost use Rattle.sacn_sources.specs.Places.{IsAt, IsGap};
    ghost use Rattle.sacn_sources.specs.Wakes.{oldest_of};

    /// No sources, with the room for the levels of `MAX_SOURCES` taken in one request.
    pub(crate) fn new(alloc: Global) -> Result<Self, TableFault>
        ensures { IfOk result (λ t. t ≡ new_table) }
    {
        Ok(Store {
            entries: ArrayVec::new(),
            frames: frames_in(alloc)?,
            moment: 0,
        })
    }

    pub(crate) fn moment(&self) -> u64
        ensures { result ≡ self.now.moment }
    {
        self.moment
    }

    /// Moves the clock alone.
    pub(crate) fn advance(&mut self, now: u64)
        ensures { self.new ≡ record self.old { moment = max self.old.moment now } }
    {
        self.moment = self.moment.max(now);
    }

    /// Moves the clock, and drops the sources that are lost.
    pub(crate) fn expire(&mut self, now: u64) -> Lost
        ensures sources { result.sources ≡ rows_lost (max self.old.moment now) self.old.rows }
        ensures few { result.sources ≤ MAX_SOURCES }
        ensures live { result.live ≡ loses_live (max self.old.moment now) self.old.rows }
        ensures table { self.new ≡ after_expire now self.old }
    {
        self.moment = self.moment.max(now);
        let held = self.count();
        let live = self.sweep();
        Lost {
            sources: held - self.count(),
            live,
        }
    }

    /// Takes a packet, at the table's moment. One that renews nothing leaves what is shown.
    pub(crate) fn take(&mut self, packet: &DataView<'_>) -> Taken
        ensures answer { result ≡ taken (packet_of packet.now) self.old.rows }
        ensures table { self.new ≡ record self.old {
          rows = take_row (packet_of packet.now) self.old.moment self.old.rows;
        } }
        ensures quiet { renews result ≡ false → layers self.new.rows ≡ layers self.old.rows }
    {
        match self.search(&packet.cid()) {
            Ok(at) => self.take_known(at, packet),
            Err(at) => self.take_unknown(at, packet),
        }
    }

    /// Writes the merge of the live sources.
    pub(crate) fn merge(&self, slots: &mut [u8; 512])
        ensures { slots.new ≡ slots_of self.now.rows }
    {
        let Some(first) = self.entries.as_slice().first() else {
            merge_into(&[], slots);
            return;
        };
        let room = Layer {
            priority: 0,
            levels: &self.frames[first.key],
        };
        match self.count() {
            0..=1 => self.merge_few(&mut [room], slots),
            2..=4 => self.merge_few(&mut [room; 4], slots),
            _ => self.merge_few(&mut [room; MAX_SOURCES], slots),
        }
    }

    // Writes the merge of the live sources, with room for a layer of each.
    fn merge_few<'a>(&'a self, layers: &mut [Layer<'a>], slots: &mut [u8; 512])
        requires { length self.now.rows ≤ length layers.old }
        ensures { slots.new ≡ slots_of self.now.rows }
    {
        let mut count = 0;
        for entry in self.entries.as_slice() {
            if let Some(priority) = entry.priority {
                layers[count] = Layer {
                    priority,
                    levels: &self.frames[entry.key],
                };
                count += 1;
            }
        }
        merge_into(&layers[..count], slots);
    }

    /// The moment of the source that was renewed the longest ago, and `u64::MAX` where none is held.
    pub(crate) fn oldest(&self) -> u64
        ensures { result ≡ oldest_of self.now.rows }
    {
        oldest_entry(self.entries.as_slice())
    }

    // A packet of the source at this place.
    fn take_known(&mut self, at: usize, packet: &DataView<'_>) -> Taken
        requires { IsAt self.old.rows packet.now.cid at }
        ensures answer { result ≡ taken (packet_of packet.now) self.old.rows }
        ensures table { self.new ≡ record self.old {
          rows = take_row (packet_of packet.now) self.old.moment self.old.rows;
        } }
        ensures quiet { renews result ≡ false → layers self.new.rows ≡ layers self.old.rows }
    {
        if !self.in_sequence_at(at, packet) {
            return Taken::OutOfSequence;
        }
        match kind_of(packet) {
            Kind::Termination => {
                self.end(at, packet);
                Taken::EndedNow
            }
            Kind::Preview => {
                self.observe(at, packet);
                Taken::Observed
            }
            Kind::Live => {
                self.show(at, packet);
                Taken::Held
            }
            Kind::Other => {
                self.observe(at, packet);
                Taken::Observed
            }
        }
    }

    // A packet of a source that is not held, and would stand at this place.
    fn take_unknown(&mut self, at: usize, packet: &DataView<'_>) -> Taken
        requires { IsGap self.old.rows packet.now.cid at }
        ensures answer { result ≡ taken (packet_of packet.now) self.old.rows }
        ensures table { self.new ≡ record self.old {
          rows = take_row (packet_of packet.now) self.old.moment self.old.rows;
        } }
        ensures quiet { renews result ≡ false → layers self.new.rows ≡ layers self.old.rows }
    {
        match kind_of(packet) {
            Kind::Termination => Taken::UnknownIgnored,
            Kind::Preview => Taken::UnknownIgnored,
            Kind::Live => {
                if self.is_full() {
                    return Taken::SourcesExceeded;
                }
                self.admit(at, packet);
                Taken::Held
            }
            Kind::Other => Taken::UnknownIgnored,
        }
    }

    fn count(&self) -> usize
        ensures { result ≡ length self.now.rows }
    {
        self.entries.len()
    }

    // Whether there is no room for a further source. Ended ones count.
    fn is_full(&self) -> bool
        ensures { IsTrue result ↔ (MAX_SOURCES ≤ length self.now.rows) }
    {
        self.count() >= MAX_SOURCES
    }

    // Drops the sources that are lost at the table's moment, in one scan. Returns whether one of them was live.
    fn sweep(&mut self) -> bool
        ensures live { result ≡ loses_live self.old.moment self.old.rows }
        ensures table { self.new
            ≡ record self.old { rows = rows_kept self.old.moment self.old.rows } }
    {
        let mut live = false;
        let mut at = self.count();
        while at > 0 {
            at -= 1;
            if self.is_lost(at) {
                live |= self.drop_at(at);
            }
        }
        live
    }

    // Whether the source at this place is lost.
    fn is_lost(&self, at: usize) -> bool
        requires { at < length self.now.rows }
        ensures { (d : Row)
            → result ≡ not (row_renewed self.now.moment (slice_index_or self.now.rows at d)) }
    {
        let entry = entry_at(&self.entries, at);
        self.moment.saturating_sub(entry.moment) >= NETWORK_DATA_LOSS
    }

    // Drops the source at this place. Returns whether it was live.
    fn drop_at(&mut self, at: usize) -> bool
        requires { at < length self.old.rows }
        ensures live { (d : Row) → result ≡ is_some (slice_index_or self.old.rows at d).shown }
        ensures table { self.new ≡ record self.old { rows = remove self.old.rows at } }
    {
        let entry = self.entries.remove(at);
        let _ = self.frames.remove(entry.key);
        entry.priority.is_some()
    }

    // Where the source is, or where it would go. A source that is held is found by comparing CIDs as a whole.
    fn search(&self, cid: &[u8; 16]) -> Result<usize, usize>
        ensures found { IfOk result (IsAt self.now.rows cid.now) }
        ensures absent { IfErr result (IsGap self.now.rows cid.now) }
    {
        match place_of(self.entries.as_slice(), cid) {
            Some(at) => Ok(at),
            None => self.search_in_order(cid),
        }
    }

    // The same by the order of CIDs.
    fn search_in_order(&self, cid: &[u8; 16]) -> Result<usize, usize>
        ensures found { IfOk result (IsAt self.now.rows cid.now) }
        ensures absent { IfErr result (IsGap self.now.rows cid.now) }
    {
        self.entries.binary_search_by_key(
            cid,
            |entry: &Entry| -> [u8; 16]
                ensures { result ≡ entry.now.cid }
            { entry.cid },
        )
    }

    // Whether the packet is in sequence after the latest accepted one of the source at this place.
    fn in_sequence_at(&self, at: usize, packet: &DataView<'_>) -> bool
        requires { at < length self.now.rows }
        ensures { (d : Row) → result
            ≡ not (is_late (slice_index_or self.now.rows at d).sequence_number packet.now.number) }
    {
        let entry = entry_at(&self.entries, at);
        in_sequence(entry.sequence_number, packet.number())
    }

    // A source that keeps what it shows.
    fn observe(&mut self, at: usize, packet: &DataView<'_>)
        requires { IsAt self.old.rows packet.now.cid at }
        ensures { (d : Row) → self.new ≡ record self.old {
          rows = slice_set self.old.rows at
              (row_observed (packet_of packet.now) (slice_index_or self.old.rows at d));
        } }
    {
        let sequence_number = packet.number();
        renumber(&mut self.entries, at, sequence_number);
    }

    // A source that has ended. It keeps its key, and shows no levels.
    fn end(&mut self, at: usize, packet: &DataView<'_>)
        requires { IsAt self.old.rows packet.now.cid at }
        ensures { self.new ≡ record self.old {
          rows = slice_set self.old.rows at (row_ended (packet_of packet.now) self.old.moment);
        } }
    {
        let sequence_number = packet.number();
        renew(&mut self.entries, at, sequence_number, None, self.moment);
    }

    // A source that shows new levels, in the place of the old ones.
    fn show(&mut self, at: usize, packet: &DataView<'_>)
        requires { IsAt self.old.rows packet.now.cid at }
        ensures { self.new ≡ record self.old {
          rows = slice_set self.old.rows at (row_live (packet_of packet.now) self.old.moment);
        } }
    {
        let sequence_number = packet.number();
        let priority = packet.priority();
        let key = renew(
            &mut self.entries,
            at,
            sequence_number,
            Some(priority),
            self.moment,
        );
        overwrite(&mut self.frames[key], packet.slots());
    }

    // A new source.
    fn admit(&mut self, at: usize, packet: &DataView<'_>)
        requires gap { IsGap self.old.rows packet.now.cid at }
        requires room { length self.old.rows < MAX_SOURCES }
        ensures { self.new ≡ record self.old {
          rows = put_row (row_live (packet_of packet.now) self.old.moment) self.old.rows;
        } }
    {
        let key = self.frames.insert_reserved(Levels::of(packet.slots()));
        self.entries.insert(
            at,
            Entry {
                cid: packet.cid(),
                sequence_number: packet.number(),
                priority: Some(packet.priority()),
                moment: self.moment,
                key,
            },
        );
    }
}

// Writes other levels in the place of these.
fn overwrite(levels: &mut Levels, slots: &[u8])
    requires { length slots.now ≤ 512 }
    ensures { levels.new ≡ slots.now }
{
    levels.set(slots);
}

// No frames, with the room for those of every source: the one request that a table makes.
pub(crate) fn frames_in<A: Allocator>(alloc: A) -> Result<Slab<Levels, A>, TableFault>
    ensures empty { IfOk result (λ frames. frames.slots ≡ []) }
    ensures room { IfOk result (λ frames. MAX_SOURCES ≤ frames.capacity) }
{
    Ok(Slab::with_capacity(alloc, MAX_SOURCES)?)
}
