//! How a desk opens the stream of a universe.
ghost use Rattle.std.specs.Prelude.{◌≡◌, ◌≤◌, ◌<◌, ℕ, Bool, List, Option, length, true, Some};
ghost use Rattle.std.specs.Result.{IfOk};
ghost use Rattle.sacn_edge.specs.ConsoleSends.{Handed};
ghost use Rattle.sacn_edge.specs.Hearings.{Hands};
ghost use Rattle.sacn_packets.specs.PacketReading.{reading_packet};
ghost use Rattle.sacn_desk.specs.Groups.{universe_read};
ghost use Rattle.sacn_desk.specs.Openings.{IsHanded, begins, begins_by, begun_after, begun_by, begun_of, link_of, none_begun, opening_copy};

use crate::desk_datagram::DeskDatagram;
use crate::desk_link::DeskLink;
use arrayvec::ArrayVec;
use sacn_console::limits::MAX_DATAGRAM;
use std::alloc::{AllocError, Global};

/// So much less than a packet's number is that of the copy that goes before it (a monitor knows it as `sacn_monitor`'s constant of this name).
pub(crate) const OPENING_STEP: u8 = 20;

/// Where the sequence number of a data packet stands (E1.31, 6.2.5).
pub(crate) const NUMBER_AT: usize = 111;

/// The numbers that a universe may have, and 0.
pub(crate) const UNIVERSES: usize = 64_000;

/// A link of a desk that opens each stream so that it is taken whatever came before.
///
/// A receiver may still hold the number of an earlier life of this source, which ended less than 2.5 s ago, and discards what seems to
/// lie up to 19 behind it (E1.31, 6.7.2). So a copy of the first packet of each universe goes before it, with a number less by 20: where the copy is
/// discarded, the packet itself isn't, and behind the copy it isn't either.
#[derive(Drop)]
pub struct Opening<L> {
    link: L,
    // For each universe, whether a packet of it went out.
    begun: Vec<bool>,
}

impl<L: DeskLink + Drop> Opening<L> {
    /// Over this link, on which nothing went out.
    pub fn over(alloc: Global, link: L) -> Result<Self, AllocError>
        ensures { IfOk result (λ opening. (link_of opening ≡ link) × (begun_of opening ≡ none_begun)) }
    {
        let begun = vec![in alloc; false; UNIVERSES]?;
        Ok(Opening { link, begun })
    }

    /// The link below.
    pub fn link(&self) -> &L
        ensures { result.now ≡ link_of self.now }
    {
        &self.link
    }

    /// Sends a datagram; before it, where it is the first packet of its universe, the copy that opens the stream. Returns
    /// whether the datagram itself was taken.
    pub fn send_opened(&mut self, datagram: &DeskDatagram<'_>) -> bool
        ensures sent { (handed : Handed)
            × Hands (L.told (link_of self.old)) (L.told (link_of self.new)) handed
            × IsHanded (begins (begun_of self.old) datagram.now) datagram.now result handed }
        ensures begun { begun_of self.new ≡ begun_after (begun_of self.old) datagram.now }
    {
        if self.begins(datagram) {
            self.send_both(datagram)
        } else {
            self.link.hand_over(datagram)
        }
    }

    // Whether it is the first packet of its universe, which it is once.
    fn begins(&mut self, datagram: &DeskDatagram<'_>) -> bool
        ensures link { link_of self.new ≡ link_of self.old }
        ensures begins { result ≡ begins (begun_of self.old) datagram.now }
        ensures begun { begun_of self.new ≡ begun_after (begun_of self.old) datagram.now }
    {
        let length = datagram.octets().len();
        if length <= NUMBER_AT || length > MAX_DATAGRAM {
            return false;
        }
        match datagram.universe() {
            Some(universe) => self.begins_on(universe),
            None => false,
        }
    }

    fn begins_on(&mut self, universe: u16) -> bool
        ensures link { link_of self.new ≡ link_of self.old }
        ensures begins { result ≡ begins_by universe (begun_of self.old) }
        ensures begun { begun_of self.new ≡ begun_by universe (begun_of self.old) }
    {
        let at = universe as usize;
        if at >= self.begun.len() || self.begun[at] {
            return false;
        }
        self.begun[at] = true;
        true
    }

    // The copy, and then the datagram. Returns whether the latter was taken.
    fn send_both(&mut self, datagram: &DeskDatagram<'_>) -> bool
        requires begins { (begun : List Bool) × (begins begun datagram.now ≡ true) }
        requires least { NUMBER_AT < length datagram.now }
        requires most { length datagram.now ≤ MAX_DATAGRAM }
        ensures sent { (handed : Handed)
            × Hands (L.told (link_of self.old)) (L.told (link_of self.new)) handed
            × IsHanded true datagram.now result handed }
        ensures begun { begun_of self.new ≡ begun_of self.old }
    {
        let octets = datagram.octets();
        tell_copy(octets);
        let copy = copy_of(octets);
        let opening = DeskDatagram::new(copy.as_slice(), datagram.universe());
        let _ = self.link.hand_over(&opening);
        self.link.hand_over(datagram)
    }
}

// The copy that opens a stream is read as a packet of its universe. This costs nothing.
fn tell_copy(datagram: &[u8])
    ensures { (begun : List Bool) (u : Option ℕ) → begins begun datagram.now ≡ true
        → universe_read (reading_packet datagram.now) ≡ Some u
        → universe_read (reading_packet (opening_copy datagram.now)) ≡ Some u }
{}

// The copy of a packet that opens its stream.
fn copy_of(datagram: &[u8]) -> ArrayVec<u8, MAX_DATAGRAM>
    requires least { NUMBER_AT < length datagram.now }
    requires most { length datagram.now ≤ MAX_DATAGRAM }
    ensures { result.items ≡ opening_copy datagram.now }
{
    let mut copy = ArrayVec::new();
    let _ = copy.try_extend_from_slice(datagram);
    copy[NUMBER_AT] = copy[NUMBER_AT].wrapping_sub(OPENING_STEP);
    copy
}

impl<L: DeskLink + Drop> DeskLink for Opening<L> {
    fn hand_over(&mut self, datagram: &DeskDatagram<'_>) -> bool {
        self.send_opened(datagram)
    }
}
