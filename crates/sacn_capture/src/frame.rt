//! A datagram out of a frame.

ghost use Rattle.std.specs.Prelude.{◌≡◌, ◌%◌, ◌^◌, ◌≤◌, ◌==◌, IfOk, length, not};
ghost use Rattle.sacn_capture.specs.Check.{map_ok};
ghost use Rattle.sacn_capture.specs.Octets.{number16};
ghost use Rattle.sacn_capture.specs.declared.octets.ByteOrder.TheVariants.{Big};
ghost use Rattle.sacn_capture.specs.Frames.{IsWithin, head_of, reading_datagram, reading_packet, seen_among, sent_of};

use crate::links::{LinkType, Passed, packet_place};
use crate::octets::ByteOrder;

/// The least header of IPv4, in octets.
const MIN_HEAD: usize = 20;

/// The header of UDP, in octets.
const UDP_HEAD: usize = 8;

/// The number of UDP among the protocols of IP.
const UDP: u8 = 17;

/// Of the flags and place of a fragment: all but "reserved" and "don't fragment".
const FRAGMENT_MASK: u16 = 0x3fff;

/// A datagram of UDP over IPv4, lent out of the frame that carried it. Checksums aren't looked at.
#[derive(Clone, Copy)]
pub struct Datagram<'a> {
    /// The sender's address.
    pub sender: [u8; 4],
    pub sender_port: u16,
    /// The address that it was sent to: a host's, a broadcast or a multicast address.
    pub destination: [u8; 4],
    pub destination_port: u16,
    /// The octets that it carried, as many as the length of UDP says.
    pub payload: &'a [u8],
}

/// What a look at a frame saw: a datagram, with the place of what it carried. It lends nothing, so a frame that was looked
/// at can be counted before its datagram is lent, and needs no second look.
#[derive(Clone, Copy)]
pub struct Sighting {
    pub sender: [u8; 4],
    pub sender_port: u16,
    pub destination: [u8; 4],
    pub destination_port: u16,
    /// Where the octets that it carried begin and end, among those that were looked at.
    pub begin: usize,
    pub end: usize,
}

/// The datagram in a frame of a link.
///
/// Errors: the first test that fails: those of the link (`packet_place`), then those of the packet:
/// Cut in its header, NotIpv4, NotUdp, Fragment, Cut by its lengths.
pub fn datagram_in(link: LinkType, frame: &[u8]) -> Result<Datagram<'_>, Passed>
    ensures { map_ok sent_of result ≡ reading_datagram link frame.now }
{
    let sighting = look(link, frame)?;
    Ok(lent(sighting, frame))
}

/// A look at a frame of a link, for `datagram_in`: what `lent` then gives out of the frame is its datagram.
#[tactic(auto, using(crate::proofs::Sightings::looked_behind))]
pub fn look(link: LinkType, frame: &[u8]) -> Result<Sighting, Passed>
    ensures seen { map_ok (seen_among frame.now) result ≡ reading_datagram link frame.now }
    ensures within { IfOk result (IsWithin (length frame.now)) }
{
    let place = packet_place(link, frame)?;
    let mut sighting = packet_look(&frame[place..])?;
    sighting.begin += place;
    sighting.end += place;
    Ok(sighting)
}

/// The datagram that was seen among some octets, lent out of them.
pub fn lent(sighting: Sighting, octets: &[u8]) -> Datagram<'_>
    requires { IsWithin (length octets.now) sighting }
    ensures { sent_of result ≡ seen_among octets.now sighting }
{
    let sender = sighting.sender;
    let destination = sighting.destination;
    Datagram {
        sender,
        sender_port: sighting.sender_port,
        destination,
        destination_port: sighting.destination_port,
        payload: &octets[sighting.begin..sighting.end],
    }
}

// A look at a packet of IPv4: the checks in their order.
fn packet_look(packet: &[u8]) -> Result<Sighting, Passed>
    ensures seen { map_ok (seen_among packet.now) result ≡ reading_packet packet.now }
    ensures within { IfOk result (IsWithin (length packet.now)) }
{
    if packet.len() < MIN_HEAD {
        return Err(Passed::Cut);
    }
    if packet[0] >> 4 != 4 {
        return Err(Passed::NotIpv4);
    }
    let head = head_len(packet);
    if head < MIN_HEAD {
        return Err(Passed::NotIpv4);
    }
    if packet[9] != UDP {
        return Err(Passed::NotUdp);
    }
    if is_fragment(packet) {
        return Err(Passed::Fragment);
    }
    let total = ByteOrder::Big.u16_at(packet, 2) as usize;
    if total < head + UDP_HEAD {
        return Err(Passed::Cut);
    }
    if packet.len() < total {
        return Err(Passed::Cut);
    }
    let len = ByteOrder::Big.u16_at(packet, head + 4) as usize;
    if len < UDP_HEAD {
        return Err(Passed::Cut);
    }
    if total < head + len {
        return Err(Passed::Cut);
    }
    let mut sender = [0; 4];
    sender.copy_from_slice(&packet[12..16]);
    let mut destination = [0; 4];
    destination.copy_from_slice(&packet[16..20]);
    Ok(Sighting {
        sender,
        sender_port: ByteOrder::Big.u16_at(packet, head),
        destination,
        destination_port: ByteOrder::Big.u16_at(packet, head + 2),
        begin: head + UDP_HEAD,
        end: head + len,
    })
}

// The octets of a packet's header, at most 60.
fn head_len(packet: &[u8]) -> usize
    requires { 20 ≤ length packet.now }
    ensures len { result ≡ head_of packet.now }
    ensures few { result ≤ 60 }
{
    4 * (packet[0] & 0x0f) as usize
}

// Whether the packet is a part of a greater one.
fn is_fragment(packet: &[u8]) -> bool
    requires { 20 ≤ length packet.now }
    ensures { result ≡ not (number16 Big packet.now 6 % 2 ^ 14 == 0) }
{
    ByteOrder::Big.u16_at(packet, 6) & FRAGMENT_MASK != 0
}
