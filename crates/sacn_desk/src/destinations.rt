//! Where a desk sends.
ghost use Rattle.std.specs.Prelude.{◌≡◌};
ghost use Rattle.std.specs.List.{list_any};
ghost use Rattle.sacn_desk.specs.Groups.{group_told};
ghost use Rattle.sacn_desk.specs.SentTo.{IsGroupAddress, is_within, takes};

use sacn_files::limits::DEFAULT_UDP_PORT;
use sacn_packets::multicast_group;
use std::net::{Ipv4Addr, SocketAddrV4};

/// The most hosts that a desk sends to.
pub const MAX_HOSTS: usize = 64;

/// The universe whose group hears discovery pages and, before it, what a group's number stands for (E1.31, 9.3.2).
pub const DISCOVERY_UNIVERSE: u16 = 64_214;

/// Universes from one to another.
#[derive(Clone, Copy, PartialEq, Eq)]
pub struct UniverseRange {
    /// The lowest, 1 to 63999.
    pub first: u16,
    /// The highest, 1 to 63999.
    pub last: u16,
}

impl UniverseRange {
    /// Whether a universe is one of them.
    pub fn holds(&self, universe: u16) -> bool
        ensures { result ≡ is_within universe self.now }
    {
        self.first <= universe && universe <= self.last
    }
}

/// A host that a desk sends to.
#[derive(Drop)]
pub struct Destination {
    /// Where it is.
    pub address: SocketAddrV4,
    /// The universes that go there; empty for all.
    pub universes: Vec<UniverseRange>,
}

impl Destination {
    /// Whether a data packet of this universe goes there, or a discovery page where it is `None`, which goes everywhere.
    pub fn takes(&self, universe: Option<u16>) -> bool
        ensures { result ≡ takes universe self.now }
    {
        match universe {
            Some(universe) => self.universes.is_empty() || is_named(&self.universes, universe),
            None => true,
        }
    }
}

fn is_named(ranges: &[UniverseRange], universe: u16) -> bool
    ensures { result ≡ list_any (is_within universe) ranges.now }
{
    ranges.iter().any(|range| range.holds(universe))
}

/// Where a desk sends each datagram: to the hosts that take its universe, and by multicast to the universe's group.
#[derive(Drop)]
pub struct Destinations {
    /// The hosts, `MAX_HOSTS` at most.
    pub hosts: Vec<Destination>,
    /// Whether groups are sent to.
    pub is_multicast: bool,
}

/// The group that a data packet of this universe goes to, or a discovery page where it is `None`.
pub(crate) fn group_of(universe: Option<u16>) -> [u8; 4]
    ensures { result ≡ group_told universe }
{
    match universe {
        Some(universe) => multicast_group(universe),
        None => multicast_group(DISCOVERY_UNIVERSE),
    }
}

/// The address of a group, at the port of the standard.
pub(crate) fn group_address(group: [u8; 4]) -> SocketAddrV4
    ensures { IsGroupAddress group result }
{
    SocketAddrV4::new(Ipv4Addr::from_octets(group), DEFAULT_UDP_PORT)
}
