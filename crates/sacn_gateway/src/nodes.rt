//! The nodes of a gateway.
ghost use Rattle.std.specs.Prelude.{◌≡◌, ◌≤◌, ◌<◌, ℕ, false, true, OnOk, OnErr};
ghost use Rattle.sacn_node.specs.Cores.{core_lost};
ghost use Rattle.sacn_node.specs.Calls.{step, Tick, with_reading};
ghost use Rattle.sacn_node.specs.Showings.{IsShowingOf, news_of};
ghost use Rattle.sacn_edge.specs.Additions.{Adds};
ghost use Rattle.sacn_edge.specs.PortLines.{FailsAmong};
ghost use Rattle.sacn_gateway.specs.Interfaces.{Pairwise};
ghost use Rattle.sacn_gateway.specs.GatewayNodes.{AreShown, HasBegun, IsMoved, IsLooked, IsNodeServed, news_text, news_texts, FailsAtOne, Sleeps, AllSleep};

use crate::hearing::Notes;
use crate::interface::{Interface, first_wake, serve_interfaces};
use sacn_edge::{Out, WriteFailed, write_ports};
use sacn_machine::Device;
use sacn_node::{NodeCore, NodeTaken, Showing};
use sacn_packets::Reading;

/// A node of a gateway: its core, what it shows, and the interfaces of its ports.
#[derive(Drop)]
pub struct GatewayNode<'a, D> {
    core: NodeCore,
    showing: Showing,
    interfaces: Vec<Interface<'a, D>>,
}

impl<'a, D: Device> GatewayNode<'a, D> {
    /// A node with these interfaces. One for a port that the node hasn't is never offered anything.
    pub fn new(core: NodeCore, interfaces: Vec<Interface<'a, D>>) -> GatewayNode<'a, D>
        ensures core { result.core ≡ core }
        ensures interfaces { result.interfaces ≡ interfaces.entry }
    {
        let showing = Showing::new(&core);
        GatewayNode {
            core,
            showing,
            interfaces,
        }
    }

    /// Its interfaces.
    pub fn into_interfaces(self) -> Vec<Interface<'a, D>>
        ensures { result ≡ self.entry.interfaces }
    {
        self.interfaces
    }

    /// None of its ports was looked at.
    fn begin(&mut self)
        ensures { HasBegun self.old self.new }
    {
        self.showing = Showing::new(&self.core);
    }

    /// Gives it what a datagram was read as.
    fn take(&mut self, now: u64, reading: &Reading<'_>) -> NodeTaken
        requires { IsShowingOf self.old.showing self.old.core }
        ensures { IsMoved (with_reading now reading.now) self.old self.new }
    {
        self.showing.take(&mut self.core, now, reading).taken
    }

    /// Moves its clock.
    fn tick(&mut self, now: u64)
        requires { IsShowingOf self.old.showing self.old.core }
        ensures { IsMoved (step (Tick now)) self.old self.new }
    {
        self.showing.tick(&mut self.core, now);
    }

    /// Looks at its ports.
    fn look(&mut self)
        requires { IsShowingOf self.old.showing self.old.core }
        ensures { IsLooked self.old self.new }
    {
        self.showing.look(&mut self.core);
    }

    /// Offers each of its interfaces the packet of its port's frame, where it is due.
    fn serve<N: Notes>(&mut self, now: u64, notes: &mut N)
        ensures { IsNodeServed D.told now self.old self.new }
    {
        serve_interfaces(
            self.interfaces.as_mut_slice(),
            now,
            self.showing.ports(),
            notes,
        );
    }

    /// Writes the lines of a turn, after a look.
    fn write<O: Out>(&self, out: &mut O) -> Result<(), WriteFailed>
        requires { O.failed out.old ≡ false }
        ensures ok { OnOk result ((O.failed out.new ≡ false)
            × Adds (O.Tells out.old) (O.Tells out.new) (news_text self.now)) }
        ensures err { OnErr result ((O.failed out.new ≡ true)
            × FailsAmong self.now.core.core.moment (news_of self.now.showing)
            (O.Tells out.old) (O.Tells out.new)) }
    {
        write_ports(out, self.core.moment(), self.showing.news())
    }

    /// The moment up to which may be waited for it: no later than this, nor than when it loses a source.
    fn loss_wake(&self, latest: u64) -> u64
        ensures latest { result ≤ latest }
        ensures lost { (t : ℕ) → t < result → core_lost t self.now.core.core ≡ 0 }
    {
        match self.core.wakes() {
            Some(wakes) => wakes.min(latest),
            None => latest,
        }
    }

    /// The moment up to which may be waited for it: no later than this, nor than when it loses a source or has a packet of an interface
    /// due.
    fn wake(&self, now: u64, latest: u64) -> u64
        ensures latest { result ≤ latest }
        ensures asleep { Sleeps now latest result self.now }
    {
        first_wake(self.interfaces.as_slice(), now, self.loss_wake(latest))
    }
}

/// What became of a datagram at several nodes: what became of it at the first that has its universe.
fn first_taken(first: NodeTaken, next: NodeTaken) -> NodeTaken {
    match first {
        NodeTaken::OtherUniverse => next,
        taken => taken,
    }
}

/// None of the ports of these nodes was looked at.
pub(crate) fn begin_nodes<D: Device>(nodes: &mut [GatewayNode<'_, D>])
    ensures { Pairwise HasBegun nodes.old nodes.new }
{
    for node in nodes.iter_mut() {
        node.begin();
    }
}

/// Gives each of these nodes what a datagram was read as.
pub(crate) fn take_nodes<D: Device>(
    nodes: &mut [GatewayNode<'_, D>],
    now: u64,
    reading: &Reading<'_>,
) -> NodeTaken
    requires { AreShown nodes.old }
    ensures { Pairwise (IsMoved (with_reading now reading.now)) nodes.old nodes.new }
{
    let mut taken = NodeTaken::OtherUniverse;
    for node in nodes.iter_mut() {
        taken = first_taken(taken, node.take(now, reading));
    }
    taken
}

/// Moves the clock of each of these nodes.
pub(crate) fn tick_nodes<D: Device>(nodes: &mut [GatewayNode<'_, D>], now: u64)
    requires { AreShown nodes.old }
    ensures { Pairwise (IsMoved (step (Tick now))) nodes.old nodes.new }
{
    for node in nodes.iter_mut() {
        node.tick(now);
    }
}

/// Looks at the ports of each of these nodes.
pub(crate) fn look_at_nodes<D: Device>(nodes: &mut [GatewayNode<'_, D>])
    requires { AreShown nodes.old }
    ensures { Pairwise IsLooked nodes.old nodes.new }
{
    for node in nodes.iter_mut() {
        node.look();
    }
}

/// Writes the lines of a turn of each of these nodes, which were looked at.
pub(crate) fn write_nodes<O: Out, D: Device>(
    out: &mut O,
    nodes: &[GatewayNode<'_, D>],
) -> Result<(), WriteFailed>
    requires { O.failed out.old ≡ false }
    ensures ok { OnOk result ((O.failed out.new ≡ false)
        × Adds (O.Tells out.old) (O.Tells out.new) (news_texts nodes.now)) }
    ensures err { OnErr result ((O.failed out.new ≡ true)
        × FailsAtOne nodes.now (O.Tells out.old) (O.Tells out.new)) }
{
    for node in nodes {
        node.write(out)?;
    }
    Ok(())
}

/// Offers each interface of each of these nodes the packet of its port's frame, where it is due.
pub(crate) fn serve_nodes<D: Device, N: Notes>(
    nodes: &mut [GatewayNode<'_, D>],
    now: u64,
    notes: &mut N,
)
    ensures { Pairwise (IsNodeServed D.told now) nodes.old nodes.new }
{
    for node in nodes.iter_mut() {
        node.serve(now, notes);
    }
}

/// The moment up to which may be waited for these nodes: no later than this, nor than when one loses a source or has a packet of an
/// interface due.
pub(crate) fn nodes_wake<D: Device>(nodes: &[GatewayNode<'_, D>], now: u64, latest: u64) -> u64
    ensures latest { result ≤ latest }
    ensures nodes { AllSleep now latest result nodes.now }
{
    let mut wake = latest;
    for node in nodes {
        wake = node.wake(now, wake);
    }
    wake
}

/// Hands on the ports of each node of which the latest look may have found another frame.
pub(crate) fn note_frames<N: Notes, D: Device>(
    notes: &mut N,
    now: u64,
    nodes: &[GatewayNode<'_, D>],
) {
    for node in nodes {
        let ports = node.showing.news();
        if !ports.is_empty() {
            notes.note_frames(now, ports);
        }
    }
}
