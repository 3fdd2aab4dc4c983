//! One receive of a gateway, and what of it goes to its nodes.
ghost use Rattle.std.specs.Prelude.{◌≡◌, ◌≤◌, ◌||◌, not, [], ◌∷◌, map, is_some};
ghost use Rattle.std.specs.List.{list_any};
ghost use Rattle.sacn_node.specs.Calls.{step};
ghost use Rattle.sacn_node.specs.Showings.{same};
ghost use Rattle.sacn_edge.specs.Additions.{Extends};
ghost use Rattle.sacn_gateway.specs.GatewayNodes.{AreShown, IsMoved};
ghost use Rattle.sacn_gateway.specs.Interfaces.{Pairwise};
ghost use Rattle.sacn_edge.specs.NodeText.{call_at};
ghost use Rattle.sacn_gateway.specs.Backlogs.{is_late};
ghost use Rattle.sacn_machine.specs.Hearings.{hearing_in, From, came_of, is_datagram};
ghost use Rattle.sacn_gateway.specs.GatewayTurns.{is_admitted, heard_of, backlog_with};

use crate::backlog::Backlog;
use crate::nodes::{GatewayNode, take_nodes, tick_nodes};
use sacn_edge::BUFFER_OCTETS;
use sacn_machine::{Arrival, Device, DeviceFault, Octets4, Receiver};
use sacn_node::{NodeTaken, PortFrame};
use sacn_packets::{Reading, read_packet};
use std::net::{Ipv4Addr, SocketAddrV4};

/// Why a datagram doesn't go to the nodes.
#[derive(Clone, Copy)]
pub enum PassedOver {
    /// It may have waited longer than the network data loss time, while the process was stopped or blocked.
    Late,
    /// It comes from an address that isn't listened to.
    OtherSender,
}

/// What looks on while a gateway runs, for diagnosis. Nothing that it does changes the gateway's text, nor what interfaces
/// are offered.
pub trait Notes {
    /// A datagram went to each node, with where it came from, what it was read as, and what became of it at the first node that
    /// has its universe.
    fn note_taken(
        &mut self,
        now: u64,
        sender: SocketAddrV4,
        reading: &Reading<'_>,
        taken: NodeTaken,
    );

    /// A datagram didn't.
    fn note_passed_over(&mut self, now: u64, sender: Octets4, why: PassedOver);

    /// The device failed in a receive.
    fn note_failure(&mut self, now: u64);

    /// What became of an interface: why it failed, or that it works again. It isn't noted again until that changes.
    fn note_interface(&mut self, port: u8, name: &str, fault: Option<DeviceFault>);

    /// The ports, ascending, where the frame of one may be another than after the turn before: those whose frame is have `news`.
    fn note_frames(&mut self, _now: u64, _ports: &[PortFrame]) {}

    /// A turn's lines are written, and its frames offered.
    fn note_turn(&mut self, now: u64);

    /// The moment at which it has something to do, where nothing comes; `u64::MAX` where it never has.
    fn wakes(&self) -> u64;
}

/// What a receive brought, and what is known after it.
#[derive(Clone, Copy)]
pub(crate) struct Step {
    pub(crate) now: u64,
    pub(crate) arrival: Arrival,
    /// What is known of what waits.
    pub(crate) waits: Backlog,
    /// A datagram was there, so that there may be another.
    pub(crate) is_more: bool,
}

#[tactic(auto, unfolding(sacn_node::specs::Showings::same))]
fn is_same(a: &Octets4, b: &Octets4) -> bool
    ensures { result ≡ same a.now b.now }
{
    a == b
}

/// Whether a sender is one of these.
fn is_among(senders: &[Octets4], sender: &Octets4) -> bool
    ensures { result ≡ list_any (λ s. same s sender.now) senders.now }
{
    senders.iter().any(|known| is_same(known, sender))
}

/// Whether a sender is listened to; where the list is empty, each is.
fn admits(senders: &[Octets4], sender: &Octets4) -> bool
    ensures { result ≡ is_admitted senders.now sender.now }
{
    senders.len() == 0 || is_among(senders, sender)
}

/// Why a datagram that came at a reading doesn't go to the node.
fn why_passed(senders: &[Octets4], waits: Backlog, now: u64, sender: &Octets4) -> Option<PassedOver>
    ensures { is_some result ≡ (is_late waits now || not (is_admitted senders.now sender.now)) }
{
    if waits.is_late(now) {
        return Some(PassedOver::Late);
    }
    if admits(senders, sender) {
        None
    } else {
        Some(PassedOver::OtherSender)
    }
}

/// Gives each node what came at this moment, unless it is passed over.
fn give<N: Notes, D: Device>(
    nodes: &mut [GatewayNode<'_, D>],
    notes: &mut N,
    senders: &[Octets4],
    waits: Backlog,
    now: u64,
    sender: Octets4,
    port: u16,
    octets: &[u8],
)
    requires { AreShown nodes.old }
    ensures { Pairwise
        (IsMoved (step (call_at now (heard_of senders.now waits now (From sender octets.now)))))
        nodes.old nodes.new }
{
    match why_passed(senders, waits, now, &sender) {
        None => {
            let reading = read_packet(octets);
            let taken = take_nodes(nodes, now, &reading);
            let sender = SocketAddrV4::new(Ipv4Addr::from(sender), port);
            notes.note_taken(now, sender, &reading, taken);
        }
        Some(why) => {
            notes.note_passed_over(now, sender, why);
            tick_nodes(nodes, now);
        }
    }
}

/// Receives once, and gives each node what came, where it goes there; where nothing does, its clock is moved.
pub(crate) fn hear<G: Receiver, N: Notes, D: Device>(
    receiver: &mut G,
    nodes: &mut [GatewayNode<'_, D>],
    notes: &mut N,
    senders: &[Octets4],
    waits: Backlog,
    buffer: &mut [u8; BUFFER_OCTETS],
) -> Step
    requires { AreShown nodes.old }
    ensures told { Extends (G.told receiver.old) (G.told receiver.new)
        (hearing_in result.now result.arrival buffer.new ∷ []) }
    ensures nodes { Pairwise (IsMoved (step (call_at result.now
        (heard_of senders.now waits result.now (came_of result.arrival buffer.new)))))
        nodes.old nodes.new }
    ensures waits { result.waits
        ≡ backlog_with waits result.now (came_of result.arrival buffer.new) }
    ensures more { result.is_more ≡ is_datagram (came_of result.arrival buffer.new) }
{
    let receipt = receiver.receive(buffer);
    let now = receipt.now;
    let port = receiver.sender_port();
    let arrival = receipt.arrival;
    match arrival {
        Arrival::Datagram { octets, sender } => {
            let datagram = &buffer[..octets];
            give(nodes, notes, senders, waits, now, sender, port, datagram);
            Step {
                now,
                arrival,
                waits: waits.with_datagram(now),
                is_more: true,
            }
        }
        Arrival::Nothing => {
            tick_nodes(nodes, now);
            Step {
                now,
                arrival,
                waits: Backlog::none(now),
                is_more: false,
            }
        }
        Arrival::Failed => {
            notes.note_failure(now);
            tick_nodes(nodes, now);
            Step {
                now,
                arrival,
                waits,
                is_more: false,
            }
        }
    }
}
