//! The source table as a plain program: entries in order, each with its levels in place, scanned from the first on, and
//! nothing kept between calls but what the rules ask. It has the contract of [`SourceTable`](crate::SourceTable), call by
//! call, and serves tests and readers.

ghost use Rattle.std.specs.Prelude.{◌≡◌, ◌≤◌, max};

use crate::answer::Taken;
use crate::held_view::HeldView;
use crate::limits::MAX_SOURCES;
use sacn_packets::DataView;
use std::marker::Model;

mod entries;

use entries::Entries;

/// The sources of one universe, by a plain program.
#[derive(Drop)]
pub struct PlainTable {
    entries: Entries,
    renewals: u64,
    due: bool,
}

impl Model for PlainTable {
    ghost use Rattle.sacn_sources.specs.LatestMerge.{Kept, kept_code};

    ghost Value = { Kept };

    ghost coded = { kept_code };

    ghost view = { λ k. record { table = k.entries; renewals = k.renewals; due = k.due } };
}

impl PlainTable {
    ghost use Rattle.sacn_sources.specs.Packets.{packet_of};
    ghost use Rattle.sacn_sources.specs.Rows.{answer, after_expire, slots_of, rows_lost, row_of};
    ghost use Rattle.sacn_sources.specs.LatestMerge.{new_kept, kept_after_expire, kept_after_take, kept_after_merged};

    /// An empty table at moment 0. It takes no memory.
    pub fn new() -> Self
        ensures { result ≡ new_kept }
    {
        PlainTable {
            entries: Entries::new(),
            renewals: 0,
            due: true,
        }
    }

    /// Moves the clock, and drops the sources that are lost. Returns how many those were, ended ones too.
    pub fn expire(&mut self, now: u64) -> usize
        ensures gone { result ≡ rows_lost (max self.old.table.moment now) self.old.table.rows }
        ensures few { result ≤ MAX_SOURCES }
        ensures table { self.new ≡ kept_after_expire now self.old }
    {
        let live = self.entries.loses_live(now);
        let gone = self.entries.expire(now);
        self.due |= live;
        gone
    }

    /// Takes a data packet, whatever universe it names.
    pub fn take(&mut self, now: u64, packet: &DataView<'_>) -> Taken
        ensures answer { result ≡ answer now (packet_of packet.now) self.old.table }
        ensures table { self.new ≡ kept_after_take now (packet_of packet.now) self.old }
    {
        let live = self.entries.loses_live(now);
        self.entries.expire(now);
        let taken = self.entries.take(packet);
        self.due = self.due | live | taken.renews();
        taken
    }

    /// Writes the merge of the live sources. It is made at each call, and counted where it had to be.
    pub fn merged(&mut self, now: u64, slots: &mut [u8; 512])
        ensures slots { slots.new ≡ slots_of (after_expire now self.old.table).rows }
        ensures table { self.new ≡ kept_after_merged now self.old }
    {
        let live = self.entries.loses_live(now);
        self.entries.expire(now);
        self.entries.merge(slots);
        if self.due | live {
            self.renewals = self.renewals.saturating_add(1);
            self.due = false;
        }
    }

    /// The source of this CID, as the latest call with a moment left it.
    pub fn held(&self, cid: &[u8; 16]) -> Option<HeldView<'_>>
        ensures { result ≡ row_of cid.now self.now.table.rows }
    {
        self.entries.held(cid)
    }

    /// How many calls of `merged` had to make the merge anew, or `u64::MAX` where there were more.
    pub fn renewals(&self) -> u64
        ensures { result ≡ self.now.renewals }
    {
        self.renewals
    }
}
