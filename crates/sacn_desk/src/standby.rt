//! A desk that stands by.
ghost use Rattle.std.specs.Prelude.{◌≡◌, Bool, true};
ghost use Rattle.std.specs.Result.{IfOk};
ghost use Rattle.sacn_edge.specs.Hearings.{Hands};
ghost use Rattle.sacn_desk.specs.Openings.{none_begun};
ghost use Rattle.sacn_desk.specs.Standbys.{gone_after, gone_by, gone_out, is_kept, is_kept_by, link_below, passed};

use crate::desk_datagram::DeskDatagram;
use crate::desk_link::DeskLink;
use crate::opening::UNIVERSES;
use sacn_packets::{Packet, read_packet};
use std::alloc::{AllocError, Global};

/// A link of a desk that ends no stream that never began.
///
/// A desk that stands by ends each universe before it sent one packet of it. The packets with Stream_Terminated set that a console
/// then sends (E1.31, 6.2.6) would end the stream of nobody, or tell receivers of a source that isn't there. They aren't handed on; all else is.
#[derive(Drop)]
pub struct Standby<L> {
    link: L,
    // For each universe, whether a packet of it was handed on.
    begun: Vec<bool>,
    // How many packets weren't.
    kept: u64,
}

impl<L: DeskLink + Drop> Standby<L> {
    /// Over this link, on which nothing went out.
    pub fn over(alloc: Global, link: L) -> Result<Self, AllocError>
        ensures { IfOk result (λ standby. (link_below standby ≡ link) × (gone_out standby ≡ none_begun)) }
    {
        let begun = vec![in alloc; false; UNIVERSES]?;
        Ok(Standby {
            link,
            begun,
            kept: 0,
        })
    }

    /// The link below.
    pub fn link(&self) -> &L
        ensures { result.now ≡ link_below self.now }
    {
        &self.link
    }

    /// How many packets weren't handed on.
    pub fn kept(&self) -> u64 {
        self.kept
    }

    /// Hands a datagram on, unless it ends a stream of which nothing was handed on. Returns whether it was taken, and true where it
    /// isn't handed on.
    pub fn send_begun(&mut self, datagram: &DeskDatagram<'_>) -> bool
        ensures sent { Hands (L.told (link_below self.old)) (L.told (link_below self.new))
            (passed (is_kept (gone_out self.old) datagram.now) datagram.now result) }
        ensures kept { is_kept (gone_out self.old) datagram.now ≡ true → result ≡ true }
        ensures begun { gone_out self.new ≡ gone_after (gone_out self.old) datagram.now }
    {
        if self.keeps(datagram.octets()) {
            return self.keep();
        }
        self.link.hand_over(datagram)
    }

    fn keep(&mut self) -> bool
        ensures link { link_below self.new ≡ link_below self.old }
        ensures begun { gone_out self.new ≡ gone_out self.old }
        ensures taken { result ≡ true }
    {
        self.kept = self.kept.saturating_add(1);
        true
    }

    // Whether a datagram is kept back; of one that isn't its universe is noted.
    fn keeps(&mut self, octets: &[u8]) -> bool
        ensures link { link_below self.new ≡ link_below self.old }
        ensures kept { result ≡ is_kept (gone_out self.old) octets.now }
        ensures begun { gone_out self.new ≡ gone_after (gone_out self.old) octets.now }
    {
        match read_packet(octets) {
            Ok(Packet::DataPacket(data)) => self.keeps_on(data.universe(), data.terminated()),
            Ok(Packet::PagePacket(_)) => false,
            Ok(Packet::SyncPacket) => false,
            Err(_) => false,
        }
    }

    fn keeps_on(&mut self, universe: u16, ends: bool) -> bool
        ensures link { link_below self.new ≡ link_below self.old }
        ensures kept { result ≡ is_kept_by universe ends (gone_out self.old) }
        ensures begun { gone_out self.new ≡ gone_by universe ends (gone_out self.old) }
    {
        let at = universe as usize;
        if at >= self.begun.len() || self.begun[at] {
            return false;
        }
        if ends {
            return true;
        }
        self.begun[at] = true;
        false
    }
}

impl<L: DeskLink + Drop> DeskLink for Standby<L> {
    fn hand_over(&mut self, datagram: &DeskDatagram<'_>) -> bool {
        self.send_begun(datagram)
    }
}
