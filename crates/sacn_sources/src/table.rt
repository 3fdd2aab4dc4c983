//! The table of sources, with its latest merge.

ghost use Rattle.std.specs.Prelude.{◌≡◌, ◌+◌, ◌<◌, ◌≤◌, ◌^◌, ℕ, length, slice_get, take, drop, max, IfOk, IfSome, IfNone};

use crate::answer::Taken;
use crate::fault::TableFault;
use crate::givers::Givers;
use crate::held_view::HeldView;
use crate::limits::{MAX_SOURCES, NETWORK_DATA_LOSS};
use crate::store::Store;
use sacn_packets::DataView;
use std::alloc::{AllocError, Global};
use std::marker::Model;

/// The sources of one universe (E1.31, 6.7; the rows, the limit and the merge are profile).
///
/// A source is known by its CID alone. It is held from a live packet on, until it is lost: `NETWORK_DATA_LOSS` milliseconds
/// after the latest packet that was answered `Held` or `EndedNow`. A source that has ended is held too, and counts toward
/// `MAX_SOURCES`.
///
/// Moments are milliseconds. The table uses the greatest moment that it was handed, and 0 at first. Each call with a moment
/// moves this clock and drops the sources that are lost before it does anything else.
///
/// Only `new` and `clone` take memory. No datagram is borrowed after a call returns. The slots of the latest merge are kept, and given
/// again while nothing changed.
#[derive(Drop)]
pub struct SourceTable {
    store: Store,
    slots: [u8; 512],
    renewals: u64,
    due: bool,
    /// No source that is held was renewed before this moment, and one that was renewed at it isn't lost yet.
    earliest: u64,
}

impl Model for SourceTable {
    ghost use Rattle.sacn_sources.specs.LatestMerge.{Kept, kept_code, KeepsMerge};
    ghost use Rattle.sacn_sources.specs.Wakes.{IsFresh};

    ghost Value = { Kept };

    ghost coded = { kept_code };

    ghost view = { λ k. record { table = k.store; renewals = k.renewals; due = k.due } };

    ghost invariant = { λ k. KeepsMerge k.due k.slots k.store × IsFresh k.earliest k.store };
}

/// The same table again, with room of its own.
///
/// Errors: a request was refused.
impl Clone for SourceTable {
    ghost is_clone = { λ table copy. copy ≡ table };

    fn clone(&self) -> Result<SourceTable, AllocError> {
        Ok(SourceTable {
            store: self.store.clone()?,
            slots: self.slots,
            renewals: self.renewals,
            due: self.due,
            earliest: self.earliest,
        })
    }
}

impl SourceTable {
    ghost use Rattle.sacn_sources.specs.Packets.{packet_of};
    ghost use Rattle.sacn_sources.specs.Rows.{answer, after_expire, slots_of, rows_lost, row_of};
    ghost use Rattle.sacn_sources.specs.Givers.{givers_of};
    ghost use Rattle.sacn_sources.specs.Wakes.{oldest_of};
    ghost use Rattle.sacn_sources.specs.LatestMerge.{new_kept, kept_after_expire, kept_after_take, kept_after_merged};

    /// An empty table at moment 0. All its room is taken here, in one request, and a refusal is `OutOfMemory`.
    pub fn new(alloc: Global) -> Result<Self, TableFault>
        ensures { IfOk result (λ k. k ≡ new_kept) }
    {
        Ok(SourceTable {
            store: Store::new(alloc)?,
            slots: [0; 512],
            renewals: 0,
            due: true,
            earliest: 0,
        })
    }

    /// Moves the clock, and drops the sources that are lost. Returns how many those were, ended ones too.
    pub fn expire(&mut self, now: u64) -> usize
        ensures gone { result ≡ rows_lost (max self.old.table.moment now) self.old.table.rows }
        ensures few { result ≤ MAX_SOURCES }
        ensures table { self.new ≡ kept_after_expire now self.old }
    {
        let moment = self.store.moment().max(now);
        if moment.saturating_sub(self.earliest) < NETWORK_DATA_LOSS {
            self.store.advance(now);
            return 0;
        }
        self.sweep(now)
    }

    /// Takes a data packet, whatever universe it names. It takes no memory, and copies the levels once.
    pub fn take(&mut self, now: u64, packet: &DataView<'_>) -> Taken
        ensures answer { result ≡ answer now (packet_of packet.now) self.old.table }
        ensures table { self.new ≡ kept_after_take now (packet_of packet.now) self.old }
    {
        self.expire(now);
        let taken = self.store.take(packet);
        self.due |= taken.renews();
        taken
    }

    /// Writes the merge of the live sources: slot by slot the highest level of those of the highest priority, and 0 where
    /// none is live. It is made anew at the first call, and where since the call before a packet was answered `Held` or
    /// `EndedNow` or a live source was lost.
    pub fn merged(&mut self, now: u64, slots: &mut [u8; 512])
        ensures slots { slots.new ≡ slots_of (after_expire now self.old.table).rows }
        ensures table { self.new ≡ kept_after_merged now self.old }
    {
        self.renew(now);
        *slots = self.slots;
    }

    /// Writes the merge as `merged` does, and tells who gives each slot its level: of the live sources of the highest priority
    /// (E1.31, 6.2.3) the first by CID whose level is the merged one, and no one where that is 0.
    pub fn merged_with_givers(&mut self, now: u64, slots: &mut [u8; 512]) -> Givers
        ensures slots { slots.new ≡ slots_of (after_expire now self.old.table).rows }
        ensures givers { result ≡ givers_of (after_expire now self.old.table).rows }
        ensures table { self.new ≡ kept_after_merged now self.old }
    {
        self.merged(now, slots);
        self.store.givers(slots)
    }

    /// Writes a part of the merge, which is made anew where `merged` makes it anew: the slots from the index `from` on, as
    /// many as there is room for.
    pub fn merged_part(&mut self, now: u64, from: usize, part: &mut [u8])
        requires within { from + length part.old ≤ 512 }
        ensures part { part.new
            ≡ take (length part.old) (drop from (slots_of (after_expire now self.old.table).rows)) }
        ensures table { self.new ≡ kept_after_merged now self.old }
    {
        self.renew(now);
        part.copy_from_slice(&self.slots[from..from + part.len()]);
    }

    /// The source of this CID, as the latest call with a moment left it.
    pub fn held(&self, cid: &[u8; 16]) -> Option<HeldView<'_>>
        ensures { result ≡ row_of cid.now self.now.table.rows }
    {
        self.store.held(cid)
    }

    /// How many sources are held, ended ones too.
    pub fn sources(&self) -> usize
        ensures count { result ≡ length self.now.table.rows }
        ensures few { result ≤ MAX_SOURCES }
    {
        self.store.sources()
    }

    /// The source at a place in ascending order of CID, as the latest call with a moment left it; `None` behind the last.
    pub fn source_at(&self, place: usize) -> Option<HeldView<'_>>
        ensures { result ≡ slice_get self.now.table.rows place }
    {
        self.store.source_at(place)
    }

    /// The moment of the source that was renewed the longest ago, ended ones too, and `u64::MAX` where none is held.
    pub fn oldest(&self) -> u64
        ensures { result ≡ oldest_of self.now.table.rows }
    {
        self.store.oldest()
    }

    /// The first moment at which a source that is held is lost, ended ones too, if no packet comes: `expire` at any earlier
    /// moment drops nothing, and at it drops some. `None` where none is held, or none is lost at a moment of a `u64`.
    pub fn wakes(&self) -> Option<u64>
        ensures never { IfNone result ((t : ℕ) → t < 2 ^ 64
            → rows_lost (max self.now.table.moment t) self.now.table.rows ≡ 0) }
        ensures asleep { IfSome result (λ w. (t : ℕ) → t < w
            → rows_lost (max self.now.table.moment t) self.now.table.rows ≡ 0) }
        ensures awake { IfSome result
            (λ w. 1 ≤ rows_lost (max self.now.table.moment w) self.now.table.rows) }
    {
        self.store.oldest().checked_add(NETWORK_DATA_LOSS)
    }

    /// How many calls of `merged` made the merge anew, or `u64::MAX` where there were more.
    pub fn renewals(&self) -> u64
        ensures { result ≡ self.now.renewals }
    {
        self.renewals
    }

    /// Looks at every source, and drops those that are lost. Out of line, so that the test before it is made in the caller.
    #[inline(never)]
    fn sweep(&mut self, now: u64) -> usize
        ensures gone { result ≡ rows_lost (max self.old.table.moment now) self.old.table.rows }
        ensures few { result ≤ MAX_SOURCES }
        ensures table { self.new ≡ kept_after_expire now self.old }
    {
        let lost = self.store.expire(now);
        self.earliest = self.store.oldest().min(self.store.moment());
        self.due |= lost.live;
        lost.sources
    }

    /// Makes the kept slots the merge, where they aren't yet.
    fn renew(&mut self, now: u64)
        ensures { self.new ≡ kept_after_merged now self.old }
    {
        self.expire(now);
        if self.due {
            self.store.merge(&mut self.slots);
            self.renewals = self.renewals.saturating_add(1);
            self.due = false;
        }
    }
}
