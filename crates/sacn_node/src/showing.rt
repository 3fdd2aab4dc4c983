//! What a node shows on its ports.
ghost use Rattle.std.specs.Prelude.{◌≡◌, ◌==◌, ℕ, [], false, true, None, map, IfSome};
ghost use Rattle.std.specs.List.{list_any};
ghost use Rattle.std.specs.List.Sorted.{IsStrictlyIncreasing};
ghost use Rattle.sacn_node.specs.Setup.{port_numbers};
ghost use Rattle.sacn_node.specs.Cores.{core_lost};
ghost use Rattle.sacn_node.specs.Calls.{step, Tick, with_reading};
ghost use Rattle.sacn_packets.specs.PacketReading.{reading_packet};
ghost use Rattle.sacn_node.specs.Readings.{reply_to};
ghost use Rattle.sacn_node.specs.Changes.{universe_changed};
ghost use Rattle.sacn_node.specs.Showings.{AreCurrentBut, IsNewsOf, IsShowingOf, changes_universe, concerns, news_in, news_of, port_after, ports_of, unseen, with_found};

use crate::answer::NodeChange;
use crate::limits::{MAX_PORTS, MAX_UNIVERSES};
use crate::node::NodeCore;
use crate::port_frame::PortFrame;
use arrayvec::ArrayVec;
use sacn_packets::Reading;

/// What a node shows on its ports: the frame of each at the latest look, and what may have changed since.
///
/// It is handed the node at each call. A frame is made only where it may be another one than at the look before: the slots of
/// one universe at most change by a datagram, where no source is lost.
#[derive(Drop)]
pub struct Showing {
    ports: ArrayVec<PortFrame, MAX_PORTS>,
    /// The latest look may have found a new frame.
    has_news: bool,
    /// Any slot of any universe may have changed.
    all: bool,
    /// The universes whose slots may have.
    universes: ArrayVec<u16, MAX_UNIVERSES>,
}

impl Showing {
    /// The showing of a node that wasn't looked at yet.
    pub fn new(core: &NodeCore) -> Self
        ensures ports { ports_of result ≡ map unseen (port_numbers core.now.ports) }
        ensures rising { IsStrictlyIncreasing (port_numbers core.now.ports) }
        ensures showing { IsShowingOf result core.now }
    {
        Showing {
            ports: unseen_ports(core),
            has_news: true,
            all: true,
            universes: ArrayVec::new(),
        }
    }

    /// The ports, ascending by number, each with its frame at the latest look.
    pub fn ports(&self) -> &[PortFrame]
        ensures { result.now ≡ ports_of self.now }
    {
        self.ports.as_slice()
    }

    /// These ports, where the latest look may have found a new frame on one, and else none.
    pub fn news(&self) -> &[PortFrame]
        ensures { result.now ≡ news_of self.now }
    {
        if self.has_news {
            self.ports.as_slice()
        } else {
            &[]
        }
    }

    /// Gives the node what a datagram was read as, notes what that may have changed, and returns it.
    pub fn take(&mut self, core: &mut NodeCore, now: u64, reading: &Reading<'_>) -> NodeChange
        requires { IsShowingOf self.old core.old }
        ensures taken { result.taken ≡ reply_to reading.now now core.old.core }
        ensures lost { result.lost ≡ core_lost now core.old.core }
        ensures universe { result.universe ≡ universe_changed reading.now now core.old.core }
        ensures core { core.new ≡ with_reading now reading.now core.old }
        ensures ports { ports_of self.new ≡ ports_of self.old }
        ensures showing { IsShowingOf self.new core.new }
    {
        let change = core.take_reading(now, reading);
        self.note(change);
        change
    }

    /// Gives the node a datagram: `take` of what its octets are read as.
    pub fn take_octets(&mut self, core: &mut NodeCore, now: u64, octets: &[u8]) -> NodeChange
        requires { IsShowingOf self.old core.old }
        ensures taken { result.taken ≡ reply_to (reading_packet octets.now) now core.old.core }
        ensures lost { result.lost ≡ core_lost now core.old.core }
        ensures universe { result.universe
            ≡ universe_changed (reading_packet octets.now) now core.old.core }
        ensures core { core.new ≡ with_reading now (reading_packet octets.now) core.old }
        ensures ports { ports_of self.new ≡ ports_of self.old }
        ensures showing { IsShowingOf self.new core.new }
    {
        let change = core.take_and_tell(now, octets);
        self.note(change);
        change
    }

    /// Moves the node's clock, and notes what that may have changed. Returns how many sources were lost.
    pub fn tick(&mut self, core: &mut NodeCore, now: u64) -> usize
        requires { IsShowingOf self.old core.old }
        ensures lost { result ≡ core_lost now core.old.core }
        ensures core { core.new ≡ step (Tick now) core.old }
        ensures ports { ports_of self.new ≡ ports_of self.old }
        ensures showing { IsShowingOf self.new core.new }
    {
        let lost = core.tick(now);
        self.add_lost(lost);
        lost
    }

    /// Looks at the node's ports: each frame that may have changed is made, and compared with that of the look before. A port
    /// of which nothing is noted has no new frame. Then nothing is noted.
    pub fn look(&mut self, core: &mut NodeCore)
        requires { IsShowingOf self.old core.old }
        ensures ports { ports_of self.new ≡ map (port_after core.old) (ports_of self.old) }
        ensures core { core.new ≡ core.old }
        ensures showing { IsShowingOf self.new core.new }
        ensures news { IsNewsOf (news_of self.new) (ports_of self.new) }
        ensures nothing { (u : ℕ) → changes_universe self.new u ≡ false }
    {
        if !self.is_noted() {
            self.forget_news();
            return;
        }
        look_at(
            self.ports.as_mut_slice(),
            core,
            self.all,
            self.universes.as_slice(),
        );
        self.has_news = true;
        self.all = false;
        self.universes.clear();
    }

    /// Notes that no port has a new frame: at once, where that is noted already.
    fn forget_news(&mut self)
        requires { self.old.has_news ≡ false → news_in (ports_of self.old) ≡ false }
        ensures ports { ports_of self.new ≡ map (λ p. with_found p None) (ports_of self.old) }
        ensures news { self.new.has_news ≡ false }
        ensures all { self.new.all ≡ self.old.all }
        ensures universes { self.new.universes ≡ self.old.universes }
    {
        if self.has_news {
            forget_all(self.ports.as_mut_slice());
            self.has_news = false;
        }
    }

    /// Whether a frame may have changed since the latest look.
    fn is_noted(&self) -> bool
        ensures { result ≡ false → (self.now.all ≡ false) × (self.now.universes.items ≡ []) }
    {
        self.all || !self.universes.is_empty()
    }

    /// Notes what a datagram may have changed.
    fn note(&mut self, change: NodeChange)
        ensures ports { self.new.ports ≡ self.old.ports }
        ensures news { self.new.has_news ≡ self.old.has_news }
        ensures all { self.new.all ≡ false → self.old.all ≡ false }
        ensures grows { (u : ℕ) → changes_universe self.new u ≡ false
            → changes_universe self.old u ≡ false }
        ensures lost { self.new.all ≡ false → change.lost ≡ 0 }
        ensures named { IfSome change.universe (λ u. changes_universe self.new u ≡ true) }
    {
        self.add_lost(change.lost);
        self.add_universe(change.universe);
    }

    /// Notes that so many sources were lost.
    fn add_lost(&mut self, lost: usize)
        ensures ports { self.new.ports ≡ self.old.ports }
        ensures news { self.new.has_news ≡ self.old.has_news }
        ensures all { self.new.all ≡ false → self.old.all ≡ false }
        ensures universes { self.new.universes ≡ self.old.universes }
        ensures lost { self.new.all ≡ false → lost ≡ 0 }
    {
        if lost > 0 {
            self.all = true;
        }
    }

    /// Notes a universe, where one is named.
    fn add_universe(&mut self, universe: Option<u16>)
        ensures ports { self.new.ports ≡ self.old.ports }
        ensures news { self.new.has_news ≡ self.old.has_news }
        ensures all { self.new.all ≡ false → self.old.all ≡ false }
        ensures grows { (u : ℕ) → changes_universe self.new u ≡ false
            → changes_universe self.old u ≡ false }
        ensures named { IfSome universe (λ u. changes_universe self.new u ≡ true) }
    {
        if let Some(universe) = universe {
            self.add(universe);
        }
    }

    /// Notes a universe.
    fn add(&mut self, universe: u16)
        ensures ports { self.new.ports ≡ self.old.ports }
        ensures news { self.new.has_news ≡ self.old.has_news }
        ensures all { self.new.all ≡ false → self.old.all ≡ false }
        ensures grows { (u : ℕ) → changes_universe self.new u ≡ false
            → changes_universe self.old u ≡ false }
        ensures named { changes_universe self.new universe ≡ true }
    {
        if self.all || self.has(universe) {
            return;
        }
        if self.universes.try_push(universe).is_err() {
            self.all = true;
        }
    }

    /// Whether a universe is noted.
    fn has(&self, universe: u16) -> bool
        ensures { result ≡ list_any (λ v. v == universe) self.now.universes.items }
    {
        self.universes.as_slice().iter().any(|one| *one == universe)
    }
}

/// The ports of a node, none of which was looked at yet.
fn unseen_ports(core: &NodeCore) -> ArrayVec<PortFrame, MAX_PORTS>
    ensures ports { result.items ≡ map unseen (port_numbers core.now.ports) }
    ensures rising { IsStrictlyIncreasing (port_numbers core.now.ports) }
{
    let mut ports = ArrayVec::new();
    for port in core.port_numbers() {
        ports.push(PortFrame {
            port: *port,
            last: None,
            is_new: false,
        });
    }
    ports
}

/// Whether the frame of a port may be another one, where so much may have changed.
fn may_differ(core: &NodeCore, all: bool, universes: &[u16], port: u8) -> bool
    ensures { result ≡ concerns all universes.now core.now port }
{
    all || core.shows(port, universes)
}

/// Notes of each of these ports that it has no new frame.
fn forget_all(ports: &mut [PortFrame])
    ensures { ports.new ≡ map (λ p. with_found p None) ports.old }
{
    for port in ports.iter_mut() {
        port.is_new = false;
    }
}

/// Looks at each of these ports.
fn look_at(ports: &mut [PortFrame], core: &mut NodeCore, all: bool, universes: &[u16])
    requires { AreCurrentBut all universes.now core.old ports.old }
    ensures ports { ports.new ≡ map (port_after core.old) ports.old }
    ensures core { core.new ≡ core.old }
{
    for port in ports.iter_mut() {
        let may_differ = may_differ(core, all, universes, port.port);
        port.look(core, may_differ);
    }
}
