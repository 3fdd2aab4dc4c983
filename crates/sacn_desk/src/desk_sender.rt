//! A link over sockets to any hosts, or to the groups of universes.
ghost use Rattle.std.specs.Prelude.{◌≡◌, ◌==◌, List, [], ◌∷◌, None, Some, if◌then◌else◌};
ghost use Rattle.sacn_edge.specs.Additions.{Extends};
ghost use Rattle.sacn_machine.specs.Sendings.{Sending, sending};
ghost use Rattle.sacn_desk.specs.Groups.{group_told};
ghost use Rattle.sacn_desk.specs.SentTo.{receivers, failures, hosts_of, AllCarry, AreGroups, IsSentTo};

use crate::desk_datagram::DeskDatagram;
use crate::desk_link::DeskLink;
use crate::destinations::{Destination, Destinations, group_address, group_of};
use crate::notices::Notices;
use sacn_edge::Clock;
use sacn_machine::{RigClock, Sockets, UdpSockets};
use std::alloc::Global;
use std::io::{ErrorKind, Write};
use std::net::{Ipv4Addr, Net, SocketAddrV4};
use std::rt::Clock as MachineClock;

/// Sends a datagram to one destination, and notes what came of it. Returns whether it was taken.
fn send_one<S: Sockets, E: Write + Drop>(
    sockets: &mut S,
    notices: &mut Notices<E>,
    place: usize,
    to: SocketAddrV4,
    now: u64,
    datagram: &[u8],
) -> bool
    ensures { Extends (S.told sockets.old) (S.told sockets.new) (sending to datagram.now result ∷ []) }
{
    let answer = sockets.send(place, to, now, datagram);
    notices.note(place, to, now, answer);
    answer.is_ok()
}

/// Sends a datagram of this universe to a host where it goes there. Returns whether no send failed.
fn send_to<S: Sockets, E: Write + Drop>(
    sockets: &mut S,
    notices: &mut Notices<E>,
    place: usize,
    host: &Destination,
    universe: Option<u16>,
    now: u64,
    datagram: &[u8],
) -> bool
    ensures { (ss : List Sending) × Extends (S.told sockets.old) (S.told sockets.new) ss
        × (receivers ss ≡ hosts_of universe (host.now ∷ [])) × AllCarry datagram.now ss
        × (failures ss ≡ (if result then 0 else 1)) }
{
    if !host.takes(universe) {
        return true;
    }
    send_one(sockets, notices, place, host.address, now, datagram)
}

/// Sends a datagram of this universe to each host that it goes to in turn, also after one that failed. Returns how many failed.
fn send_each<S: Sockets, E: Write + Drop>(
    sockets: &mut S,
    notices: &mut Notices<E>,
    hosts: &[Destination],
    universe: Option<u16>,
    now: u64,
    datagram: &[u8],
) -> usize
    ensures { (ss : List Sending) × Extends (S.told sockets.old) (S.told sockets.new) ss
        × (receivers ss ≡ hosts_of universe hosts.now) × AllCarry datagram.now ss
        × (result ≡ failures ss) }
{
    let mut failed = 0;
    for place in 0..hosts.len() {
        if !send_to(
            sockets,
            notices,
            place,
            &hosts[place],
            universe,
            now,
            datagram,
        ) {
            failed += 1;
        }
    }
    failed
}

/// Sends a datagram of this universe to its group, where groups are sent to. Returns whether no send failed.
fn send_group<S: Sockets, E: Write + Drop>(
    sockets: &mut S,
    notices: &mut Notices<E>,
    destinations: &Destinations,
    universe: Option<u16>,
    now: u64,
    datagram: &[u8],
) -> bool
    ensures { (ss : List Sending) × Extends (S.told sockets.old) (S.told sockets.new) ss
        × AreGroups destinations.now.is_multicast (Some (group_told universe)) (receivers ss)
        × AllCarry datagram.now ss × (result ≡ (failures ss == 0)) }
{
    if !destinations.is_multicast {
        return true;
    }
    let place = destinations.hosts.len();
    let to = group_address(group_of(universe));
    send_one(sockets, notices, place, to, now, datagram)
}

/// Sends a datagram where it goes. Returns whether no send failed.
fn send_where<S: Sockets, E: Write + Drop>(
    sockets: &mut S,
    notices: &mut Notices<E>,
    destinations: &Destinations,
    now: u64,
    datagram: &DeskDatagram<'_>,
) -> bool
    ensures { (ss : List Sending) × Extends (S.told sockets.old) (S.told sockets.new) ss
        × IsSentTo destinations.now datagram.now (receivers ss)
        × AllCarry datagram.now ss × (result ≡ (failures ss == 0)) }
{
    let octets = datagram.octets();
    let universe = datagram.universe();
    let hosts = destinations.hosts.as_slice();
    let failed = send_each(sockets, notices, hosts, universe, now, octets);
    let is_taken = send_group(sockets, notices, destinations, universe, now, octets);
    failed == 0 && is_taken
}

/// Sockets of the machine: one for each host, and behind them one for groups.
#[derive(Drop)]
pub struct DeskSockets {
    hosts: UdpSockets,
    count: usize,
    groups: Option<UdpSockets>,
}

impl DeskSockets {
    fn bind<R: Net>(
        rt: &R,
        alloc: Global,
        from: Origin,
        destinations: &Destinations,
    ) -> Result<DeskSockets, ErrorKind> {
        let count = destinations.hosts.len();
        let hosts = UdpSockets::to_hosts(rt, alloc, from.address, count, from.universes)?;
        let groups = if destinations.is_multicast {
            Some(UdpSockets::to_groups(rt, alloc, from.address, from.ttl)?)
        } else {
            None
        };
        Ok(DeskSockets {
            hosts,
            count,
            groups,
        })
    }
}

impl Sockets for DeskSockets {
    fn send(
        &mut self,
        place: usize,
        to: SocketAddrV4,
        now: u64,
        datagram: &[u8],
    ) -> Result<(), ErrorKind> {
        if place < self.count {
            return self.hosts.send(place, to, now, datagram);
        }
        match &mut self.groups {
            Some(groups) => groups.send(0, to, now, datagram),
            None => Err(ErrorKind::NotFound),
        }
    }
}

/// Where a desk sends from.
#[derive(Clone, Copy)]
pub struct Origin {
    pub address: Ipv4Addr,
    /// How many routers groups are reached over.
    pub ttl: u8,
    /// How many universes may be sent at once.
    pub universes: u16,
}

/// What sends the datagrams of a desk. It tells nothing; what its sockets tell is stated at `send_datagram`.
///
/// Failures are said on an output, at most once a second for each destination, and once where one takes datagrams again.
#[derive(Drop)]
pub struct DeskSender<S, C, E> {
    sockets: S,
    destinations: Destinations,
    clock: C,
    notices: Notices<E>,
}

impl<S: Sockets, C: Clock, E: Write + Drop> DeskSender<S, C, E> {
    ghost use Rattle.sacn_desk.specs.DeskSenders.{sockets_of, destinations_of};

    /// Whether a destination took a datagram.
    pub fn has_sent(&self) -> bool {
        self.notices.has_sent()
    }

    /// Sends a datagram once to each host that takes its universe, a page to all, in their order, also after one that failed; then, where
    /// groups are sent to, once to the group of its universe, a page to that of discovery. Returns whether no send failed.
    pub fn send_datagram(&mut self, datagram: &DeskDatagram<'_>) -> bool
        ensures sent { (ss : List Sending)
            × Extends (S.told (sockets_of self.old)) (S.told (sockets_of self.new)) ss
            × IsSentTo (destinations_of self.old) datagram.now (receivers ss)
            × AllCarry datagram.now ss × (result ≡ (failures ss == 0)) }
        ensures destinations { destinations_of self.new ≡ destinations_of self.old }
    {
        let now = self.clock.now();
        send_where(
            &mut self.sockets,
            &mut self.notices,
            &self.destinations,
            now,
            datagram,
        )
    }
}

// Datagrams of others, which a desk passes on as they are.
impl<S: Sockets, C: Clock, E: Write + Drop> DeskSender<S, C, E> {
    ghost use Rattle.sacn_desk.specs.DeskSenders.{sockets_of, destinations_of};

    /// Sends octets, whatever they are, once to each host, in their order, also after one that failed. Returns how many failed.
    pub fn send_to_hosts(&mut self, octets: &[u8]) -> usize
        ensures sent { (ss : List Sending)
            × Extends (S.told (sockets_of self.old)) (S.told (sockets_of self.new)) ss
            × (receivers ss ≡ hosts_of None (destinations_of self.old).hosts.items)
            × AllCarry octets.now ss × (result ≡ failures ss) }
        ensures destinations { destinations_of self.new ≡ destinations_of self.old }
    {
        let now = self.clock.now();
        let hosts = self.destinations.hosts.as_slice();
        send_each(
            &mut self.sockets,
            &mut self.notices,
            hosts,
            None,
            now,
            octets,
        )
    }

    /// Sends octets, whatever they are, once to the group of a universe, 1 to 63999, where groups are sent to. Returns whether no send failed.
    pub fn send_to_group(&mut self, octets: &[u8], universe: u16) -> bool
        ensures sent { (ss : List Sending)
            × Extends (S.told (sockets_of self.old)) (S.told (sockets_of self.new)) ss
            × AreGroups (destinations_of self.old).is_multicast (Some (group_told (Some universe)))
            (receivers ss)
            × AllCarry octets.now ss × (result ≡ (failures ss == 0)) }
        ensures destinations { destinations_of self.new ≡ destinations_of self.old }
    {
        let now = self.clock.now();
        send_group(
            &mut self.sockets,
            &mut self.notices,
            &self.destinations,
            Some(universe),
            now,
            octets,
        )
    }
}

impl<'a, R: Net + MachineClock, E: Write + Drop> DeskSender<DeskSockets, RigClock<'a, R>, E> {
    /// A sender over UDP sockets from this address, whose groups are reached over so many routers, with room for the datagrams of so many
    /// universes. It says failures on this output. The error is the machine's where it refuses a socket.
    pub fn bind(
        rt: &'a R,
        alloc: Global,
        from: Origin,
        destinations: Destinations,
        clock: RigClock<'a, R>,
        err: E,
    ) -> Result<DeskSender<DeskSockets, RigClock<'a, R>, E>, ErrorKind> {
        let count = destinations.hosts.len().saturating_add(1);
        let sockets = DeskSockets::bind(rt, alloc, from, &destinations)?;
        let Ok(notices) = Notices::new(alloc, count, err) else {
            return Err(ErrorKind::OutOfMemory);
        };
        Ok(DeskSender {
            sockets,
            destinations,
            clock,
            notices,
        })
    }
}

impl<S: Sockets, C: Clock, E: Write + Drop> DeskLink for DeskSender<S, C, E> {
    fn hand_over(&mut self, datagram: &DeskDatagram<'_>) -> bool {
        self.send_datagram(datagram)
    }
}
