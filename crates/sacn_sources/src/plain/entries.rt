//! The entries of the plain table.

ghost use Rattle.std.specs.Prelude.{◌≡◌, ◌<◌, ◌≤◌, not, remove, ℕ, length, slice_index_or, slice_set, max, IfOk, IfErr};
ghost use Rattle.arrayvec.specs.ArrayVec.{array_vec_len};
ghost use Rattle.sacn_sources.specs.declared.plain.entries.PlainEntry.{PlainEntry as Stored};
ghost use Rattle.sacn_sources.specs.Rows.{row_live};
ghost use Rattle.sacn_sources.specs.Packets.{packet_of};
ghost use Rattle.sacn_sources.specs.PlainStorage.{plain_row};

use crate::answer::Taken;
use crate::held_view::HeldView;
use crate::kind::{Kind, kind_of};
use crate::limits::{MAX_SOURCES, NETWORK_DATA_LOSS};
use crate::sequence::in_sequence;
use crate::slots::{Layer, Levels, merge_into};
use arrayvec::ArrayVec;
use sacn_packets::DataView;
use std::cmp::Ordering;
use std::marker::Model;

/// A source, with its levels in place.
#[derive(Drop)]
pub(crate) struct PlainEntry {
    pub(crate) cid: [u8; 16],
    pub(crate) sequence_number: u8,
    /// The priority of the levels, or none where the source has ended.
    pub(crate) priority: Option<u8>,
    pub(crate) levels: Levels,
    pub(crate) moment: u64,
}

impl Default for PlainEntry {
    fn default() -> Self {
        PlainEntry {
            cid: [0; 16],
            sequence_number: 0,
            priority: None,
            levels: Levels::of(&[]),
            moment: 0,
        }
    }
}

/// The sources, in strictly ascending order of CID.
#[derive(Drop)]
pub(crate) struct Entries {
    items: ArrayVec<PlainEntry, MAX_SOURCES>,
    moment: u64,
}

impl Model for Entries {
    ghost use Rattle.sacn_sources.specs.Rows.{Table, table_code};
    ghost use Rattle.sacn_sources.specs.PlainStorage.{plain_rows, AreOrdered};

    ghost Value = { Table };

    ghost coded = { table_code };

    ghost view = { λ t. record { rows = plain_rows t.items.items; moment = t.moment } };

    ghost invariant = { λ t. AreOrdered t.items.items };
}

impl Entries {
    ghost use Rattle.sacn_sources.specs.Sequence.{is_late};
    ghost use Rattle.sacn_sources.specs.Rows.{Row, new_table, row_renewed, rows_kept, rows_lost, row_of, put_row, row_ended, row_observed, taken, take_row, after_expire, slots_of};
    ghost use Rattle.sacn_sources.specs.LatestMerge.{loses_live};
    ghost use Rattle.sacn_sources.specs.Places.{IsAt, IsGap};

    /// No sources.
    pub(crate) fn new() -> Self
        ensures { result ≡ new_table }
    {
        Entries {
            items: ArrayVec::new(),
            moment: 0,
        }
    }

    /// Whether a live source is lost at this moment.
    pub(crate) fn loses_live(&self, now: u64) -> bool
        ensures { result ≡ loses_live (max self.now.moment now) self.now.rows }
    {
        let moment = self.moment.max(now);
        for entry in self.items.as_slice() {
            if moment.saturating_sub(entry.moment) >= NETWORK_DATA_LOSS
                && entry.priority.is_some()
            {
                return true;
            }
        }
        false
    }

    /// Moves the clock, and drops the sources that are lost. Returns how many those were.
    pub(crate) fn expire(&mut self, now: u64) -> usize
        ensures gone { result ≡ rows_lost (max self.old.moment now) self.old.rows }
        ensures few { result ≤ MAX_SOURCES }
        ensures table { self.new ≡ after_expire now self.old }
    {
        self.moment = self.moment.max(now);
        let held = self.count();
        self.sweep();
        held - self.count()
    }

    /// Takes a packet, at the table's moment.
    pub(crate) fn take(&mut self, packet: &DataView<'_>) -> Taken
        ensures answer { result ≡ taken (packet_of packet.now) self.old.rows }
        ensures table { self.new ≡ record self.old {
          rows = take_row (packet_of packet.now) self.old.moment self.old.rows;
        } }
    {
        match self.search(&packet.cid()) {
            Ok(at) => self.take_known(at, packet),
            Err(at) => self.take_unknown(at, packet),
        }
    }

    /// Writes the merge of the live sources.
    pub(crate) fn merge(&self, slots: &mut [u8; 512])
        ensures { slots.new ≡ slots_of self.now.rows }
    {
        let entries = self.items.as_slice();
        let Some(first) = entries.first() else {
            merge_into(&[], slots);
            return;
        };
        let mut layers = [Layer {
            priority: 0,
            levels: &first.levels,
        }; MAX_SOURCES];
        let mut count = 0;
        for entry in entries {
            if let Some(priority) = entry.priority {
                layers[count] = Layer {
                    priority,
                    levels: &entry.levels,
                };
                count += 1;
            }
        }
        merge_into(&layers[..count], slots);
    }

    /// The source of this CID.
    pub(crate) fn held(&self, cid: &[u8; 16]) -> Option<HeldView<'_>>
        ensures { result ≡ row_of cid.now self.now.rows }
    {
        let Ok(at) = self.search(cid) else {
            return None;
        };
        let entry = plain_entry_at(&self.items, at);
        let shown = match entry.priority {
            Some(priority) => Some(Layer {
                priority,
                levels: &entry.levels,
            }),
            None => None,
        };
        Some(HeldView {
            cid: entry.cid,
            sequence_number: entry.sequence_number,
            shown,
            moment: entry.moment,
        })
    }

    // A packet of the source at this place.
    fn take_known(&mut self, at: usize, packet: &DataView<'_>) -> Taken
        requires { IsAt self.old.rows packet.now.cid at }
        ensures answer { result ≡ taken (packet_of packet.now) self.old.rows }
        ensures table { self.new ≡ record self.old {
          rows = take_row (packet_of packet.now) self.old.moment self.old.rows;
        } }
    {
        if !self.in_sequence_at(at, packet) {
            return Taken::OutOfSequence;
        }
        match kind_of(packet) {
            Kind::Termination => {
                self.end(at, packet);
                Taken::EndedNow
            }
            Kind::Preview => {
                self.observe(at, packet);
                Taken::Observed
            }
            Kind::Live => {
                self.show(at, packet);
                Taken::Held
            }
            Kind::Other => {
                self.observe(at, packet);
                Taken::Observed
            }
        }
    }

    // A packet of a source that is not held, and would stand at this place.
    fn take_unknown(&mut self, at: usize, packet: &DataView<'_>) -> Taken
        requires { IsGap self.old.rows packet.now.cid at }
        ensures answer { result ≡ taken (packet_of packet.now) self.old.rows }
        ensures table { self.new ≡ record self.old {
          rows = take_row (packet_of packet.now) self.old.moment self.old.rows;
        } }
    {
        match kind_of(packet) {
            Kind::Termination => Taken::UnknownIgnored,
            Kind::Preview => Taken::UnknownIgnored,
            Kind::Live => {
                if self.count() >= MAX_SOURCES {
                    return Taken::SourcesExceeded;
                }
                self.admit(at, packet);
                Taken::Held
            }
            Kind::Other => Taken::UnknownIgnored,
        }
    }

    fn count(&self) -> usize
        ensures { result ≡ length self.now.rows }
    {
        self.items.len()
    }

    // Drops the sources that are lost at the table's moment.
    fn sweep(&mut self)
        ensures { self.new ≡ record self.old { rows = rows_kept self.old.moment self.old.rows } }
    {
        let mut at = self.count();
        while at > 0 {
            at -= 1;
            if self.is_lost(at) {
                self.drop_at(at);
            }
        }
    }

    // Whether the source at this place is lost.
    fn is_lost(&self, at: usize) -> bool
        requires { at < length self.now.rows }
        ensures { (d : Row)
            → result ≡ not (row_renewed self.now.moment (slice_index_or self.now.rows at d)) }
    {
        let entry = plain_entry_at(&self.items, at);
        self.moment.saturating_sub(entry.moment) >= NETWORK_DATA_LOSS
    }

    // Drops the source at this place.
    fn drop_at(&mut self, at: usize)
        requires { at < length self.old.rows }
        ensures { self.new ≡ record self.old { rows = remove self.old.rows at } }
    {
        let _ = self.items.remove(at);
    }

    // Where the source is, or where it would go: the entries are looked at from the first on.
    fn search(&self, cid: &[u8; 16]) -> Result<usize, usize>
        ensures found { IfOk result (IsAt self.now.rows cid.now) }
        ensures absent { IfErr result (IsGap self.now.rows cid.now) }
    {
        let mut at = 0;
        while at < self.items.len() {
            let entry = plain_entry_at(&self.items, at);
            match cid.cmp(&entry.cid) {
                Ordering::Less => return Err(at),
                Ordering::Equal => return Ok(at),
                Ordering::Greater => at += 1,
            }
        }
        Err(at)
    }

    // Whether the packet is in sequence after the latest accepted one of the source at this place.
    fn in_sequence_at(&self, at: usize, packet: &DataView<'_>) -> bool
        requires { at < length self.now.rows }
        ensures { (d : Row) → result
            ≡ not (is_late (slice_index_or self.now.rows at d).sequence_number packet.now.number) }
    {
        let entry = plain_entry_at(&self.items, at);
        in_sequence(entry.sequence_number, packet.number())
    }

    // A source that keeps what it shows.
    fn observe(&mut self, at: usize, packet: &DataView<'_>)
        requires { IsAt self.old.rows packet.now.cid at }
        ensures { (d : Row) → self.new ≡ record self.old {
          rows = slice_set self.old.rows at
              (row_observed (packet_of packet.now) (slice_index_or self.old.rows at d));
        } }
    {
        let sequence_number = packet.number();
        plain_renumber(&mut self.items, at, sequence_number);
    }

    // A source that has ended.
    fn end(&mut self, at: usize, packet: &DataView<'_>)
        requires { IsAt self.old.rows packet.now.cid at }
        ensures { self.new ≡ record self.old {
          rows = slice_set self.old.rows at (row_ended (packet_of packet.now) self.old.moment);
        } }
    {
        let entry = PlainEntry {
            cid: packet.cid(),
            sequence_number: packet.number(),
            priority: None,
            levels: Levels::of(&[]),
            moment: self.moment,
        };
        plain_put(&mut self.items, at, entry);
    }

    // A source that shows new levels.
    fn show(&mut self, at: usize, packet: &DataView<'_>)
        requires { IsAt self.old.rows packet.now.cid at }
        ensures { self.new ≡ record self.old {
          rows = slice_set self.old.rows at (row_live (packet_of packet.now) self.old.moment);
        } }
    {
        let entry = live_entry(packet, self.moment);
        plain_put(&mut self.items, at, entry);
    }

    // A new source.
    fn admit(&mut self, at: usize, packet: &DataView<'_>)
        requires gap { IsGap self.old.rows packet.now.cid at }
        requires room { length self.old.rows < MAX_SOURCES }
        ensures { self.new ≡ record self.old {
          rows = put_row (row_live (packet_of packet.now) self.old.moment) self.old.rows;
        } }
    {
        let entry = live_entry(packet, self.moment);
        self.items.insert(at, entry);
    }
}

// The entry of a source that shows what the packet gives.
fn live_entry(packet: &DataView<'_>, moment: u64) -> PlainEntry
    ensures { plain_row result ≡ row_live (packet_of packet.now) moment }
{
    PlainEntry {
        cid: packet.cid(),
        sequence_number: packet.number(),
        priority: Some(packet.priority()),
        levels: Levels::of(packet.slots()),
        moment,
    }
}

// The entry at this place.
fn plain_entry_at(entries: &ArrayVec<PlainEntry, MAX_SOURCES>, at: usize) -> &PlainEntry
    requires { at < array_vec_len entries.now }
    ensures { (d : Stored) → result.now ≡ slice_index_or entries.now.items at d }
{
    &entries[at]
}

// Writes the number of the entry at this place, and nothing else.
fn plain_renumber(entries: &mut ArrayVec<PlainEntry, MAX_SOURCES>, at: usize, sequence_number: u8)
    requires { at < array_vec_len entries.old }
    ensures { (d : Stored) → entries.new.items ≡ slice_set entries.old.items at
        (record (slice_index_or entries.old.items at d) { sequence_number = sequence_number }) }
{
    entries[at].sequence_number = sequence_number;
}

// Writes the entry at this place.
fn plain_put(entries: &mut ArrayVec<PlainEntry, MAX_SOURCES>, at: usize, entry: PlainEntry)
    requires { at < array_vec_len entries.old }
    ensures { entries.new.items ≡ slice_set entries.old.items at entry }
{
    entries[at] = entry;
}
