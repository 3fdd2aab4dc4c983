//! Where the network packet begins in a frame, by the link that the frame was taken from.

ghost use Rattle.std.specs.Prelude.{◌≡◌, ◌+◌, ◌≤◌, IfOk, length};
ghost use Rattle.sacn_capture.specs.declared.links.LinkType.TheVariants.{Ethernet, RawIp, BsdNull, BsdLoop};
ghost use Rattle.sacn_capture.specs.Links.{link_of, network_by_type, network_by_version, network_by_family, is_tagged_at, type_place, placed_at, cooked_place_of, family_of, place_of};

use crate::octets::ByteOrder;

/// A kind of link whose frames are read, by the numbers of the registry of link types.
#[derive(Clone, Copy)]
pub enum LinkType {
    /// Ethernet (1), with up to two VLAN tags.
    Ethernet,
    /// Raw IP (12, 14, 101, 228): the packet alone.
    RawIp,
    /// Linux cooked capture (113).
    CookedV1,
    /// Linux cooked capture, second version (276).
    CookedV2,
    /// BSD loopback (0): an address family in the order of the machine that wrote it.
    BsdNull,
    /// BSD loopback (108): an address family, the high octet first.
    BsdLoop,
}

/// Why a frame was passed over: the first test that failed.
#[derive(Clone, Copy, Debug)]
pub enum Passed {
    /// What the link carries is neither IPv4 nor IPv6.
    NotIp,
    /// The packet is of IPv6.
    Ipv6,
    /// The packet's header isn't one of IPv4, though the link names that.
    NotIpv4,
    /// The packet carries something other than UDP.
    NotUdp,
    /// The packet is a part of a greater one.
    Fragment,
    /// The frame ends before what its lengths say, or they say too little.
    Cut,
    /// The link's frames aren't read here. Of a recording alone, and never of `datagram_in`.
    OtherLink,
    /// The frame is longer than 65,535 octets. Of a recording alone, and never of `datagram_in`.
    TooLong,
}

/// The protocol of the network layer that a link's header names.
#[derive(Clone, Copy)]
pub enum NetworkProtocol {
    Ipv4,
    Ipv6,
    Other,
}

const TYPE_IPV4: u16 = 0x0800;

const TYPE_IPV6: u16 = 0x86dd;

/// The tag of a VLAN (IEEE 802.1Q), and the outer one of two (IEEE 802.1ad).
const TYPE_TAG: u16 = 0x8100;

const TYPE_OUTER_TAG: u16 = 0x88a8;

/// Where an Ethernet frame has its type: after two addresses of six octets.
const TYPE_AT: usize = 12;

/// A tag's type and its number, four octets, stand before the type.
const TAG: usize = 4;

/// Address families are below this, so a greater number is one of the other byte order.
const FAMILIES: u32 = 0x1_0000;

/// The link of a number of the registry; none where its frames aren't read here.
pub fn link_type(number: u16) -> Option<LinkType>
    ensures { result ≡ link_of number }
{
    match number {
        0 => Some(LinkType::BsdNull),
        1 => Some(LinkType::Ethernet),
        12 => Some(LinkType::RawIp),
        14 => Some(LinkType::RawIp),
        101 => Some(LinkType::RawIp),
        108 => Some(LinkType::BsdLoop),
        113 => Some(LinkType::CookedV1),
        228 => Some(LinkType::RawIp),
        276 => Some(LinkType::CookedV2),
        _ => None,
    }
}

/// Where the packet of IPv4 begins in a frame, in octets, at most the frame's length.
///
/// Errors: Cut where the frame ends in the link's header; NotIp, Ipv6 by the protocol that it names.
pub fn packet_place(link: LinkType, frame: &[u8]) -> Result<usize, Passed>
    ensures place { result ≡ place_of link frame.now }
    ensures within { IfOk result (λ place. place ≤ length frame.now) }
{
    match link {
        LinkType::Ethernet => ethernet_place(frame),
        LinkType::RawIp => raw_place(frame),
        LinkType::CookedV1 => cooked_place(frame, 14, 16),
        LinkType::CookedV2 => cooked_place(frame, 0, 20),
        LinkType::BsdNull => null_place(frame),
        LinkType::BsdLoop => loop_place(frame),
    }
}

// After the type, which stands behind up to two tags.
fn ethernet_place(frame: &[u8]) -> Result<usize, Passed>
    ensures place { result ≡ place_of Ethernet frame.now }
    ensures within { IfOk result (λ place. place ≤ length frame.now) }
{
    let at = type_at(frame);
    if frame.len() < at + 2 {
        return Err(Passed::Cut);
    }
    ipv4_at(network_of_type(ByteOrder::Big.u16_at(frame, at)), at + 2)
}

// At the front, where the version says IPv4.
fn raw_place(frame: &[u8]) -> Result<usize, Passed>
    ensures place { result ≡ place_of RawIp frame.now }
    ensures within { IfOk result (λ place. place ≤ length frame.now) }
{
    if frame.is_empty() {
        return Err(Passed::Cut);
    }
    ipv4_at(network_of_version(frame[0] >> 4), 0)
}

// After a header of `head` octets, which has its type at a place.
fn cooked_place(frame: &[u8], at: usize, head: usize) -> Result<usize, Passed>
    requires inside { at + 2 ≤ head }
    requires small { head ≤ 20 }
    ensures place { result ≡ cooked_place_of at head frame.now }
    ensures within { IfOk result (λ place. place ≤ length frame.now) }
{
    if frame.len() < head {
        return Err(Passed::Cut);
    }
    ipv4_at(network_of_type(ByteOrder::Big.u16_at(frame, at)), head)
}

// After a family in either order.
fn null_place(frame: &[u8]) -> Result<usize, Passed>
    ensures place { result ≡ place_of BsdNull frame.now }
    ensures within { IfOk result (λ place. place ≤ length frame.now) }
{
    if frame.len() < 4 {
        return Err(Passed::Cut);
    }
    ipv4_at(network_of_family(family_in(frame)), 4)
}

// After a family, the high octet first.
fn loop_place(frame: &[u8]) -> Result<usize, Passed>
    ensures place { result ≡ place_of BsdLoop frame.now }
    ensures within { IfOk result (λ place. place ≤ length frame.now) }
{
    if frame.len() < 4 {
        return Err(Passed::Cut);
    }
    ipv4_at(network_of_family(ByteOrder::Big.u32_at(frame, 0)), 4)
}

fn ipv4_at(network: NetworkProtocol, place: usize) -> Result<usize, Passed>
    ensures { result ≡ placed_at network place }
{
    match network {
        NetworkProtocol::Ipv4 => Ok(place),
        NetworkProtocol::Ipv6 => Err(Passed::Ipv6),
        NetworkProtocol::Other => Err(Passed::NotIp),
    }
}

// Where the type of what an Ethernet frame carries stands: 12, 16 or 20.
fn type_at(frame: &[u8]) -> usize
    ensures place { result ≡ type_place frame.now }
    ensures small { result ≤ 20 }
{
    if !is_tagged(frame, TYPE_AT) {
        return TYPE_AT;
    }
    if !is_tagged(frame, TYPE_AT + TAG) {
        return TYPE_AT + TAG;
    }
    TYPE_AT + TAG + TAG
}

fn is_tagged(frame: &[u8], at: usize) -> bool
    requires { at ≤ 16 }
    ensures { result ≡ is_tagged_at frame.now at }
{
    if frame.len() < at + 2 {
        return false;
    }
    let kind = ByteOrder::Big.u16_at(frame, at);
    kind == TYPE_TAG || kind == TYPE_OUTER_TAG
}

fn network_of_type(kind: u16) -> NetworkProtocol
    ensures { result ≡ network_by_type kind }
{
    match kind {
        TYPE_IPV4 => NetworkProtocol::Ipv4,
        TYPE_IPV6 => NetworkProtocol::Ipv6,
        _ => NetworkProtocol::Other,
    }
}

fn network_of_version(version: u8) -> NetworkProtocol
    ensures { result ≡ network_by_version version }
{
    match version {
        4 => NetworkProtocol::Ipv4,
        6 => NetworkProtocol::Ipv6,
        _ => NetworkProtocol::Other,
    }
}

fn network_of_family(family: u32) -> NetworkProtocol
    ensures { result ≡ network_by_family family }
{
    match family {
        2 => NetworkProtocol::Ipv4,
        24 => NetworkProtocol::Ipv6,
        28 => NetworkProtocol::Ipv6,
        30 => NetworkProtocol::Ipv6,
        _ => NetworkProtocol::Other,
    }
}

fn family_in(frame: &[u8]) -> u32
    requires { 4 ≤ length frame.now }
    ensures { result ≡ family_of frame.now }
{
    let family = ByteOrder::Big.u32_at(frame, 0);
    if family < FAMILIES {
        return family;
    }
    ByteOrder::Little.u32_at(frame, 0)
}
