//! The node core.

ghost use Rattle.std.specs.Prelude.{◌≡◌, ◌<◌, ◌≤◌, ◌^◌, ℕ, Some, None, length, is_ok, IfOk, IfSome, IfNone, OnErr, if◌then◌else◌};
ghost use Rattle.std.specs.List.Sorted.{IsStrictlyIncreasing};

use crate::answer::{NoPort, NodeChange, NodeTaken};
use crate::limits::MAX_PORTS;
use crate::ports::{NodePort, copy_numbers, copy_ports, fill_frame, find_port, show_one_of};
use crate::setup::{NodeSetup, universes_of};
use crate::tables::Tables;
use arrayvec::ArrayVec;
use sacn_packets::{FRAME_OCTETS, Packet, Reading, read_packet};
use sacn_sources::{HeldView, TableFault};
use std::alloc::Global;
use std::marker::Model;

/// A node: it takes datagrams, and shows frames on its ports.
///
/// It has the universes that some range of a port names, and for each of them one table of sources, which all its ports show.
/// Moments are milliseconds. The node uses the greatest moment that it was handed, and 0 at first. Each call with a moment
/// moves this clock and drops the sources that are lost, in all tables, before it does anything else, also where it then
/// answers a refusal.
///
/// Only `new` takes memory. No datagram is borrowed after a call returns.
#[derive(Drop)]
pub struct NodeCore {
    numbers: ArrayVec<u8, MAX_PORTS>,
    ports: Vec<NodePort>,
    tables: Tables,
}

impl Model for NodeCore {
    ghost use Rattle.std.specs.Prelude.{◌≡◌};
    ghost use Rattle.sacn_node.specs.Setup.{port_numbers};
    ghost use Rattle.sacn_node.specs.Cores.{Node};
    ghost use Rattle.sacn_node.specs.Storage.{ArePorts};

    ghost Value = { Node };

    ghost view = { λ n. record { ports = n.ports.items; core = n.tables } };

    ghost invariant = { λ n. ArePorts n.ports.items × (n.numbers.items ≡ port_numbers n.ports.items) };
}

impl NodeCore {
    ghost use Rattle.sacn_packets.specs.PacketReading.{reading_packet};
    ghost use Rattle.sacn_node.specs.Setup.{port_numbers};
    ghost use Rattle.sacn_node.specs.Cores.{new_node, core_at, core_lost, core_row, node_frame};
    ghost use Rattle.sacn_node.specs.Calls.{with_reading};
    ghost use Rattle.sacn_node.specs.Changes.{universe_changed, node_shows};
    ghost use Rattle.sacn_node.specs.Readings.{reply_to, after_reading};

    /// A node of these ports at moment 0, which holds no source. All its room is taken here, and a refusal is `OutOfMemory`.
    pub fn new(alloc: Global, setup: &NodeSetup) -> Result<Self, TableFault>
        ensures { IfOk result (λ n. n ≡ new_node setup.now.ports) }
    {
        let ports = setup.ports();
        let universes = universes_of(alloc, ports)?;
        Ok(NodeCore {
            numbers: copy_numbers(ports),
            ports: copy_ports(alloc, ports)?,
            tables: Tables::new(alloc, universes.as_slice())?,
        })
    }

    /// Takes a datagram, whatever its octets are. A data packet of one of the node's universes goes to that universe's table;
    /// every other datagram moves the clock alone.
    pub fn take(&mut self, now: u64, octets: &[u8]) -> NodeTaken
        ensures answer { result ≡ reply_to (reading_packet octets.now) now self.old.core }
        ensures core { self.new ≡ record self.old {
          core = after_reading (reading_packet octets.now) now self.old.core;
        } }
    {
        self.take_and_tell(now, octets).taken
    }

    /// Takes a datagram as `take` does, and says what it may have changed of what the node shows: where no source was lost at
    /// this moment, the slots of `universe` alone.
    #[inline(always)]
    pub fn take_and_tell(&mut self, now: u64, octets: &[u8]) -> NodeChange
        ensures taken { result.taken ≡ reply_to (reading_packet octets.now) now self.old.core }
        ensures lost { result.lost ≡ core_lost now self.old.core }
        ensures universe { result.universe
            ≡ universe_changed (reading_packet octets.now) now self.old.core }
        ensures core { self.new ≡ record self.old {
          core = after_reading (reading_packet octets.now) now self.old.core;
        } }
    {
        self.take_reading(now, &read_packet(octets))
    }

    /// Takes what a datagram was read as. `take_and_tell` is this call over octets.
    pub fn take_reading(&mut self, now: u64, reading: &Reading<'_>) -> NodeChange
        ensures taken { result.taken ≡ reply_to reading.now now self.old.core }
        ensures lost { result.lost ≡ core_lost now self.old.core }
        ensures universe { result.universe ≡ universe_changed reading.now now self.old.core }
        ensures core { self.new ≡ with_reading now reading.now self.old }
    {
        match reading {
            Ok(Packet::DataPacket(packet)) => self.tables.take(now, packet),
            Ok(Packet::PagePacket(_)) => self.pass(now, NodeTaken::Discovery),
            Ok(Packet::SyncPacket) => self.pass(now, NodeTaken::Sync),
            Err(fault) => self.pass(now, NodeTaken::Refused(*fault)),
        }
    }

    /// Whether a port shows a slot of one of these universes; `false` where the node has no port of this number. The frame of a
    /// port that shows none of those that changed is as before.
    pub fn shows(&self, port: u8, universes: &[u16]) -> bool
        ensures { result ≡ node_shows port universes.now self.now }
    {
        match find_port(&self.ports, port) {
            Some(port) => show_one_of(port.ranges(), universes),
            None => false,
        }
    }

    /// Drops the sources that are lost. Returns how many those were, in all tables, ended ones too.
    pub fn tick(&mut self, now: u64) -> usize
        ensures gone { result ≡ core_lost now self.old.core }
        ensures core { self.new ≡ record self.old { core = core_at now self.old.core } }
    {
        self.tables.expire(now)
    }

    /// The first moment at which a source that is held is lost, ended ones too, if no datagram comes: a tick at any earlier
    /// moment drops nothing, and one at it does. `None` where no tick drops anything: no source is held, or none is lost at a
    /// moment of a `u64`.
    pub fn wakes(&self) -> Option<u64>
        ensures never { IfNone result ((t : ℕ) → t < 2 ^ 64 → core_lost t self.now.core ≡ 0) }
        ensures asleep { IfSome result (λ w. (t : ℕ) → t < w → core_lost t self.now.core ≡ 0) }
        ensures awake { IfSome result (λ w. 1 ≤ core_lost w self.now.core) }
    {
        self.tables.wakes()
    }

    /// Writes the frame of a port: start code 0, then its 512 slots, each from the range that has it, and 0 where none has.
    /// `NoPort`, with the frame as it was, where the node has no port of this number.
    pub fn frame(
        &mut self,
        now: u64,
        port: u8,
        frame: &mut [u8; FRAME_OCTETS],
    ) -> Result<(), NoPort>
        ensures frame { node_frame port self.new ≡ (if is_ok result then Some frame.new else None) }
        ensures core { self.new ≡ record self.old { core = core_at now self.old.core } }
        ensures unchanged { OnErr result (frame.new ≡ frame.old) }
    {
        self.tables.expire(now);
        self.frame_now(port, frame)
    }

    /// Writes the frame of a port at the moment in use, as `frame` does.
    pub(crate) fn frame_now(
        &mut self,
        port: u8,
        frame: &mut [u8; FRAME_OCTETS],
    ) -> Result<(), NoPort>
        ensures frame { node_frame port self.old ≡ (if is_ok result then Some frame.new else None) }
        ensures core { self.new ≡ self.old }
        ensures unchanged { OnErr result (frame.new ≡ frame.old) }
    {
        let port = find_port(&self.ports, port).ok_or(NoPort)?;
        self.tables.tell_settled();
        fill_frame(&mut self.tables, port.ranges(), frame);
        Ok(())
    }

    /// The source of this CID on a universe, as the latest call with a moment left it.
    pub fn held(&self, universe: u16, cid: &[u8; 16]) -> Option<HeldView<'_>>
        ensures { result ≡ core_row universe cid.now self.now.core }
    {
        self.tables.held(universe, cid)
    }

    /// The numbers of the ports, ascending: those of the setup.
    pub fn port_numbers(&self) -> &[u8]
        ensures numbers { result.now ≡ port_numbers self.now.ports }
        ensures rising { IsStrictlyIncreasing result.now }
        ensures few { length result.now ≤ MAX_PORTS }
    {
        self.numbers.as_slice()
    }

    /// The moment in use: the greatest that was handed in, and 0 at first.
    pub fn moment(&self) -> u64
        ensures { result ≡ self.now.core.moment }
    {
        self.tables.moment()
    }

    /// Moves the clock for a datagram that goes to no table.
    fn pass(&mut self, now: u64, taken: NodeTaken) -> NodeChange
        ensures taken { result.taken ≡ taken }
        ensures lost { result.lost ≡ core_lost now self.old.core }
        ensures universe { result.universe ≡ None }
        ensures core { self.new ≡ record self.old { core = core_at now self.old.core } }
    {
        NodeChange {
            taken,
            lost: self.tables.expire(now),
            universe: None,
        }
    }
}
