//! The table of a universe's sources, some of which give priorities for single slots.
ghost use Rattle.std.specs.Prelude.{◌≡◌, ◌<◌, ◌^◌, ℕ, length, max, IfOk, IfSome, IfNone, EachIndex, slice_index, slice_index_or, option_map};

use crate::given::{AllGiven, forget, give, gives, oldest, priorities_given, sweep};
use crate::layer::SlotLayer;
use crate::merge::merge_with_priorities;
use arrayvec::ArrayVec;
use sacn_packets::{DataView, SLOTS};
use sacn_sources::{
    HeldView, Layer, Levels, MAX_SOURCES, NETWORK_DATA_LOSS, SourceTable, TableFault, Taken,
};
use std::alloc::Global;
use std::marker::Model;

/// The sources of one universe, with the priorities that they give for single slots: packets of the alternate start code 0xDD, by its
/// registered use, beside those with levels and in the same numbers.
///
/// Its sources, their numbers and their loss are those of a [`SourceTable`]. A source has slot priorities from an accepted packet of
/// them on, until `NETWORK_DATA_LOSS` milliseconds have passed without another, or it ends its stream, or it is lost. Such a packet
/// begins no source, and renews none. One that comes after the end counts for the levels that follow it.
///
/// Moments are milliseconds, and used as a `SourceTable` uses them. Only `new` takes memory.
#[derive(Drop)]
pub struct SlotTable {
    sources: SourceTable,
    given: AllGiven,
    /// The moment of the table of the sources.
    moment: u64,
}

impl Model for SlotTable {
    ghost use Rattle.std.specs.Prelude.{◌≡◌};
    ghost use Rattle.sacn_slots.specs.SlotTables.{SlotSources, slot_sources_code};
    ghost use Rattle.sacn_slots.specs.SlotWakes.{IsYoung};

    ghost Value = { SlotSources };

    ghost coded = { slot_sources_code };

    ghost view = { λ t. record { sources = t.sources; given = t.given.items } };

    ghost invariant = { λ t. (t.moment ≡ t.sources.table.moment) × IsYoung t.moment t.given.items };
}

impl SlotTable {
    ghost use Rattle.sacn_packets.specs.PacketReading.{reading_packet};
    ghost use Rattle.sacn_sources.specs.Packets.{packet_of};
    ghost use Rattle.sacn_sources.specs.Rows.{Row, answer, rows_lost, row_of};
    ghost use Rattle.sacn_slots.specs.SlotLayers.{member_of};
    ghost use Rattle.sacn_slots.specs.SlotMerge.{merge_by_slot, priority_of_slot};
    ghost use Rattle.sacn_slots.specs.SlotTables.{new_sources, after_expire, after_take, given_after, priorities_given, member_at, members};
    ghost use Rattle.sacn_slots.specs.SlotWakes.{NothingIsLost, SomethingIsLost};

    /// An empty table at moment 0. All its room is taken here, and a refusal is `OutOfMemory`.
    pub fn new(alloc: Global) -> Result<Self, TableFault>
        ensures { IfOk result (λ t. t ≡ new_sources) }
    {
        Ok(SlotTable {
            sources: SourceTable::new(alloc)?,
            given: ArrayVec::new(),
            moment: 0,
        })
    }

    /// Moves the clock, and drops what is lost: sources, of which it returns how many those were, and slot priorities.
    pub fn expire(&mut self, now: u64) -> usize
        ensures gone { result ≡ rows_lost (max self.old.sources.table.moment now) self.old.sources.table.rows }
        ensures table { self.new ≡ after_expire now self.old }
    {
        let lost = self.sources.expire(now);
        self.moment = self.moment.max(now);
        sweep(&mut self.given, &self.sources, self.moment);
        lost
    }

    /// Takes a data packet, whatever universe it names. One of slot priorities is `Observed` where they are taken.
    pub fn take(&mut self, now: u64, packet: &DataView<'_>) -> Taken
        ensures answer { result ≡ answer now (packet_of packet.now) (after_expire now self.old).sources.table }
        ensures table { self.new ≡ after_take now packet.now self.old }
    {
        self.expire(now);
        let taken = self.sources.take(now, packet);
        self.keep_given(taken, packet);
        taken
    }

    // Keeps the slot priorities that are left by a packet, by what became of it.
    fn keep_given(&mut self, taken: Taken, packet: &DataView<'_>)
        ensures { self.new ≡ record self.old {
          given = given_after taken self.old.sources.table.moment packet.now self.old.given;
        } }
    {
        match taken {
            Taken::Observed if gives(packet) => give(&mut self.given, self.moment, packet),
            Taken::EndedNow => forget(&mut self.given, &packet.cid()),
            _ => {}
        }
    }

    /// Writes the merge of the live sources over all 512 slots, and the priority that each slot follows, as
    /// [`merge_with_priorities`](crate::merge_with_priorities) does.
    pub fn merged(&mut self, now: u64, slots: &mut [u8; SLOTS], priorities: &mut [u8; SLOTS])
        ensures slots { slots.new ≡ merge_by_slot (members (after_expire now self.old)) }
        ensures followed { EachIndex priorities.new
            (λ slot. slice_index priorities.new slot ≡ priority_of_slot (members (after_expire now self.old)) slot) }
        ensures table { self.new ≡ after_expire now self.old }
    {
        self.expire(now);
        self.merge(slots, priorities);
    }

    // The same, of what is held.
    fn merge(&self, slots: &mut [u8; SLOTS], priorities: &mut [u8; SLOTS])
        ensures slots { slots.new ≡ merge_by_slot (members self.now) }
        ensures followed { EachIndex priorities.new
            (λ slot. slice_index priorities.new slot ≡ priority_of_slot (members self.now) slot) }
    {
        self.merge_over(&Levels::of(&[]), slots, priorities);
    }

    // The same, by any levels, which what no source stands at refers to.
    fn merge_over<'a>(
        &'a self,
        any: &'a Levels,
        slots: &mut [u8; SLOTS],
        priorities: &mut [u8; SLOTS],
    )
        ensures slots { slots.new ≡ merge_by_slot (members self.now) }
        ensures followed { EachIndex priorities.new
            (λ slot. slice_index priorities.new slot ≡ priority_of_slot (members self.now) slot) }
    {
        let room = SlotLayer {
            shown: Layer {
                priority: 0,
                levels: any,
            },
            slot_priorities: None,
        };
        let mut layers = [room; MAX_SOURCES];
        let mut count = 0;
        for place in 0..self.sources.sources() {
            if let Some(layer) = self.layer_at(place) {
                layers[count] = layer;
                count += 1;
            }
        }
        merge_with_priorities(&layers[..count], slots, priorities);
    }

    // What the source at a place shows, with its slot priorities.
    fn layer_at(&self, place: usize) -> Option<SlotLayer<'_>>
        requires { place < length self.now.sources.table.rows }
        ensures { (d : Row) → option_map member_of result
            ≡ member_at self.now.given (slice_index_or self.now.sources.table.rows place d) }
    {
        let Some(source) = self.sources.source_at(place) else {
            return None;
        };
        let Some(levels) = source.levels() else {
            return None;
        };
        let slot_priorities = priorities_given(&self.given, &source.cid());
        Some(SlotLayer {
            shown: Layer {
                priority: source.priority(),
                levels,
            },
            slot_priorities,
        })
    }

    /// The source of this CID, as the latest call with a moment left it.
    pub fn held(&self, cid: &[u8; 16]) -> Option<HeldView<'_>>
        ensures { result ≡ row_of cid.now self.now.sources.table.rows }
    {
        self.sources.held(cid)
    }

    /// The slot priorities that a source has, as the latest call with a moment left them; `None` where it has none.
    pub fn slot_priorities(&self, cid: &[u8; 16]) -> Option<&Levels>
        ensures { option_map (λ p. p.now) result ≡ priorities_given cid.now self.now.given }
    {
        priorities_given(&self.given, cid)
    }

    /// The first moment at which something that is held is lost, if no packet comes: a source, ended ones too, or slot priorities. At any
    /// earlier moment `expire` drops nothing. `None` where nothing is held, or nothing is lost at a moment of a `u64`.
    pub fn wakes(&self) -> Option<u64>
        ensures never { IfNone result ((t : ℕ) → t < 2 ^ 64 → NothingIsLost self.now t) }
        ensures asleep { IfSome result (λ w. (t : ℕ) → t < w → NothingIsLost self.now t) }
        ensures awake { IfSome result (λ w. SomethingIsLost self.now w) }
    {
        let sources = self.sources.wakes();
        let Some(given) = oldest(&self.given).checked_add(NETWORK_DATA_LOSS) else {
            return sources;
        };
        match sources {
            Some(source) => Some(source.min(given)),
            None => Some(given),
        }
    }
}
