//! A datagram of UDP in a packet of IPv4.

ghost use Rattle.std.specs.Prelude.{◌≡◌, ◌+◌, ◌^◌, ◌<◌, ◌≤◌, ◌++◌, length};
ghost use Rattle.arrayvec.specs.ArrayVec.{array_vec_len};
ghost use Rattle.sacn_record.specs.Packets.{checksum as checksum_of, ipv4_header, ones_add as ones_added, packet, udp_header};
ghost use Rattle.sacn_record.specs.Recordings.{sent_of};

use crate::heard::Heard;
use crate::put::{put, put_shorts};
use arrayvec::ArrayVec;

/// The octets of both headers.
pub const PACKET_HEAD: usize = IPV4_HEAD + UDP_HEAD;

const IPV4_HEAD: usize = 20;

const UDP_HEAD: usize = 8;

/// Version 4, a header of five words, no service asked for.
const VERSION: u16 = 0x4500;

const DONT_FRAGMENT: u16 = 0x4000;

/// 64 hops to live, and the number of UDP among the protocols.
const HOPS_AND_UDP: u16 = 0x4011;

/// Puts the packet that carried a datagram.
pub fn put_packet<const N: usize>(out: &mut ArrayVec<u8, N>, heard: &Heard<'_>)
    requires payload { length heard.now.payload.now ≤ 2048 }
    requires room { array_vec_len out.old + 28 + length heard.now.payload.now ≤ N }
    ensures items { out.new.items ≡ out.old.items ++ packet (sent_of heard.now) }
    ensures len { array_vec_len out.new ≡ array_vec_len out.old + 28 + length heard.now.payload.now }
{
    put_ipv4_header(out, heard, header_checksum(heard));
    put_udp_header(out, heard);
    put(out, heard.payload);
}

// The checksum of a header: that of the header with a checksum of zero.
fn header_checksum(heard: &Heard<'_>) -> u16
    requires { length heard.now.payload.now ≤ 2048 }
    ensures { result ≡ checksum_of (ipv4_header 0 (sent_of heard.now)) }
{
    let mut header: ArrayVec<u8, IPV4_HEAD> = ArrayVec::new();
    put_ipv4_header(&mut header, heard, 0);
    checksum(header.as_slice())
}

fn put_ipv4_header<const N: usize>(out: &mut ArrayVec<u8, N>, heard: &Heard<'_>, sum: u16)
    requires payload { length heard.now.payload.now ≤ 2048 }
    requires room { array_vec_len out.old + 20 ≤ N }
    ensures items { out.new.items ≡ out.old.items ++ ipv4_header sum (sent_of heard.now) }
    ensures len { array_vec_len out.new ≡ array_vec_len out.old + 20 }
{
    let total = (PACKET_HEAD + heard.payload.len()) as u16;
    put_shorts(out, &[VERSION, total, 0, DONT_FRAGMENT, HOPS_AND_UDP, sum]);
    put(out, &heard.sender);
    put(out, &heard.destination);
}

fn put_udp_header<const N: usize>(out: &mut ArrayVec<u8, N>, heard: &Heard<'_>)
    requires payload { length heard.now.payload.now ≤ 2048 }
    requires room { array_vec_len out.old + 8 ≤ N }
    ensures items { out.new.items ≡ out.old.items ++ udp_header (sent_of heard.now) }
    ensures len { array_vec_len out.new ≡ array_vec_len out.old + 8 }
{
    let len = (UDP_HEAD + heard.payload.len()) as u16;
    put_shorts(out, &[heard.sender_port, heard.destination_port, len, 0]);
}

// The one's complement of the one's complement sum of a header.
fn checksum(octets: &[u8]) -> u16
    requires { length octets.now ≡ 20 }
    ensures { result ≡ checksum_of octets.now }
{
    let mut sum = 0;
    for i in 0..IPV4_HEAD / 2 {
        sum = ones_add(sum, u16::from_be_bytes([octets[2 * i], octets[2 * i + 1]]));
    }
    u16::MAX - sum
}

// One's complement addition.
#[tactic(auto, unfolding(crate::specs::Packets::ones_add))]
fn ones_add(a: u16, b: u16) -> u16
    ensures { result ≡ ones_added a b }
{
    let sum = u32::from(a) + u32::from(b);
    if sum < 0x1_0000 {
        return sum as u16;
    }
    (sum - 0xffff) as u16
}
