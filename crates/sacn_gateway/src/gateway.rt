//! The gateway's loop.
ghost use Rattle.std.specs.Prelude.{◌≡◌, ℕ, ◌≤◌, ◌<◌, ◌+◌, ◌-◌, ◌||◌, not, nat_lt, ◌∷◌, List, length, false, true, OnOk, OnErr};
ghost use Rattle.sacn_edge.specs.Additions.{Adds, Extends};
ghost use Rattle.sacn_edge.specs.NodeText.{node_after};
ghost use Rattle.sacn_machine.specs.Hearings.{Hearing, in_order, all_heard};
ghost use Rattle.sacn_machine.specs.declared.limits.TheConstants.{LONGEST_WAIT};
ghost use Rattle.sacn_gateway.specs.GatewayTurns.{turns_of, backlog_after};
ghost use Rattle.sacn_gateway.specs.GatewayNodes.{AllSleep, AreShown, IsAsAlone, IsMoved, cores_of};
ghost use Rattle.sacn_gateway.specs.GatewaysText.{OneStopsIn, gateways_text};
ghost use Rattle.sacn_gateway.specs.declared.limits.TheConstants.{TURN_SPAN};
ghost use Rattle.sacn_gateway.specs.Interfaces.{Pairwise};
ghost use Rattle.sacn_gateway.specs.GatewayRun.{IsWhole, AreWhole, latest_reading, AllBefore, IsRun};

use crate::backlog::Backlog;
use crate::hearing::{Notes, hear};
use crate::limits::TURN_SPAN;
use crate::nodes::{
    GatewayNode, begin_nodes, look_at_nodes, nodes_wake, note_frames, serve_nodes, write_nodes,
};
use sacn_edge::{BUFFER_OCTETS, Out, WriteFailed};
use sacn_machine::limits::{LONGEST_WAIT, MAX_BURST};
use sacn_machine::{Device, Octets4, Receiver};

/// How long a gateway runs: at most so many turns, and no turn after the first that ends at the moment or later.
#[derive(Clone, Copy)]
pub struct Span {
    pub turns: u64,
    /// Milliseconds of the receiver's clock.
    pub until: u64,
}

/// What is known after all that waited was taken.
#[derive(Clone, Copy)]
struct Drained {
    now: u64,
    waits: Backlog,
}

/// Whether a turn that began at a reading ends after a receive at this one, where a datagram was there or not.
fn is_over(is_more: bool, now: u64, first: u64) -> bool
    ensures { result ≡ (not is_more || not (nat_lt (now - first) TURN_SPAN)) }
{
    !is_more || now.saturating_sub(first) >= TURN_SPAN
}

/// Takes all that waits, or as much as a turn may.
fn drain<G: Receiver, N: Notes, D: Device>(
    receiver: &mut G,
    nodes: &mut [GatewayNode<'_, D>],
    notes: &mut N,
    senders: &[Octets4],
    waits: Backlog,
    buffer: &mut [u8; BUFFER_OCTETS],
) -> Drained
    requires { AreShown nodes.old }
    ensures { (hs : List Hearing) × IsWhole hs
        × Extends (G.told receiver.old) (G.told receiver.new) (in_order hs)
        × Pairwise (IsMoved (λ n. node_after n (turns_of senders.now waits hs))) nodes.old nodes.new
        × (result.waits ≡ backlog_after waits hs)
        × (result.now ≡ latest_reading hs) }
{
    let mut step = hear(receiver, nodes, notes, senders, waits, buffer);
    let first = step.now;
    for _count in 1..MAX_BURST {
        if is_over(step.is_more, step.now, first) {
            return Drained {
                now: step.now,
                waits: step.waits,
            };
        }
        step = hear(receiver, nodes, notes, senders, step.waits, buffer);
    }
    Drained {
        now: step.now,
        waits: step.waits,
    }
}

/// The moment up to which a gateway may wait after a turn: not past that at which one of its nodes loses a source or has a packet of an
/// interface due, nor past the end of its run, and no longer than half a second, so that a stop of the process is seen.
fn next_wait<D: Device>(nodes: &[GatewayNode<'_, D>], now: u64, until: u64) -> u64
    ensures long { result ≤ now + LONGEST_WAIT }
    ensures end { result ≤ until }
    ensures nodes { (latest : ℕ) × (latest ≤ now + LONGEST_WAIT) × AllSleep now latest result nodes.now }
{
    nodes_wake(nodes, now, now.saturating_add(LONGEST_WAIT).min(until))
}

/// Runs a gateway of some nodes, each of which hears all that the gateway hears. In each turn it waits until a datagram is there or
/// something is to be done, then receives until nothing is there any more, at most `MAX_BURST` times, each time reading the clock before,
/// and no more after the first reading that is 20 ms after the turn's first. A datagram goes to each
/// node at its reading, unless it comes from another sender than these (an empty list admits all), or nothing was found
/// waiting for more than 2500 ms, so that it may be older than the network data loss time. Then, node by node, for each
/// port in ascending number it writes a line, where the port's frame isn't that of the last line written for it, or
/// none was. At last it offers each interface the packet of its port's frame: where the device took another one last, or this
/// one half a second ago, or not all of the latest; a device that failed, a second after that.
///
/// `WriteFailed` where `out` has failed; the run then ends, and nothing further is heard, written or offered.
pub fn run_gateway<G: Receiver, N: Notes, O: Out, D: Device>(
    receiver: &mut G,
    notes: &mut N,
    out: &mut O,
    nodes: &mut [GatewayNode<'_, D>],
    senders: &[Octets4],
    span: Span,
) -> Result<(), WriteFailed>
    requires { O.failed out.old ≡ false }

    // What is written of each node, and what its interfaces are offered, is what a gateway of this node alone would write and offer
    // over what was heard.
    ensures ok { OnOk result ((turns : List (List Hearing))
        × IsRun span.turns span.until turns
        × AreWhole turns
        × Extends (G.told receiver.old) (G.told receiver.new) (all_heard turns)
        × Adds (O.Tells out.old) (O.Tells out.new)
        (gateways_text (cores_of nodes.old) senders.now turns)
        × Pairwise (IsAsAlone D.told senders.now turns turns) nodes.old nodes.new) }
    ensures works { OnOk result (O.failed out.new ≡ false) }

    // What is written is that up to a line of the last turn, of which a part is; of that turn nothing is offered.
    ensures err { OnErr result ((hs : List Hearing) × (turns : List (List Hearing))
        × AllBefore span.until turns
        × (length turns < span.turns)
        × AreWhole (hs ∷ turns)
        × Extends (G.told receiver.old) (G.told receiver.new) (all_heard (hs ∷ turns))
        × OneStopsIn (cores_of nodes.old) senders.now hs turns (O.Tells out.old) (O.Tells out.new)
        × Pairwise (IsAsAlone D.told senders.now (hs ∷ turns) turns) nodes.old nodes.new) }
    ensures failed { OnErr result (O.failed out.new ≡ true) }
{
    begin_nodes(nodes);
    let mut buffer = [0; BUFFER_OCTETS];
    let mut waits = Backlog::none(0);
    let mut wake = 0;
    for _turn in 0..span.turns {
        receiver.wait(wake);
        let drained = drain(receiver, nodes, notes, senders, waits, &mut buffer);
        waits = drained.waits;
        let now = drained.now;
        look_at_nodes(nodes);
        write_nodes(out, nodes)?;
        serve_nodes(nodes, now, notes);
        note_frames(notes, now, nodes);
        notes.note_turn(now);
        if now >= span.until {
            return Ok(());
        }
        wake = next_wait(nodes, now, span.until).min(notes.wakes());
    }
    Ok(())
}
