//! The node's loop.
ghost use Rattle.std.specs.Prelude.{◌≡◌, ◌≤◌, ◌<◌, ◌+◌, ◌-◌, ◌^◌, ◌∷◌, [], List, length, false, true, ℕ, if◌then◌else◌, OnOk, IfOk, OnErr};
ghost use Rattle.sacn_node.specs.Calls.{step};
ghost use Rattle.sacn_node.specs.Showings.{IsShowingOf, ports_of};
ghost use Rattle.sacn_edge.specs.Additions.{Adds, Extends};
ghost use Rattle.sacn_edge.specs.Hearings.{Hears, heard_of, is_datagram, is_failure};
ghost use Rattle.sacn_edge.specs.NodeText.{Turn, call_at, node_after, node_text};
ghost use Rattle.sacn_edge.specs.NodeRun.{Turned, report_of, StopsIn};

use crate::clock::Clock;
use crate::link::{BUFFER_OCTETS, Link, Received};
use crate::out::Out;
use crate::port_lines::write_ports;
use crate::report::NodeReport;
use crate::text::WriteFailed;
use sacn_node::{NodeCore, Showing};

/// What a turn read and received.
#[derive(Clone, Copy)]
struct Hearing {
    now: u64,
    received: Received,
}

/// Reads the clock, receives once, and gives the node what came; where nothing did, its clock is moved.
fn hear<L: Link, C: Clock>(
    link: &mut L,
    clock: &mut C,
    core: &mut NodeCore,
    showing: &mut Showing,
    buffer: &mut [u8; BUFFER_OCTETS],
) -> Hearing
    requires { IsShowingOf showing.old core.old }
    ensures clock { Extends (C.readings clock.old) (C.readings clock.new) (result.now ∷ []) }
    ensures link { Hears (L.told link.old) (L.told link.new)
        (heard_of result.received buffer.new ∷ []) }
    ensures core { core.new
        ≡ step (call_at result.now (heard_of result.received buffer.new)) core.old }
    ensures showing { IsShowingOf showing.new core.new }
    ensures ports { ports_of showing.new ≡ ports_of showing.old }
{
    let now = clock.now();
    let received = link.receive(buffer);
    match received {
        Received::Datagram(len) => {
            showing.take_octets(core, now, &buffer[..len]);
        }
        Received::Nothing => {
            showing.tick(core, now);
        }
        Received::Failed => {
            showing.tick(core, now);
        }
    }
    Hearing { now, received }
}

/// Counts one receive.
fn count(report: &mut NodeReport, received: Received)
    requires { report.old.received + report.old.failed < 2 ^ 64 - 1 }
    ensures received { (buffer : List ℕ) → report.new.received
        ≡ report.old.received + (if is_datagram (heard_of received buffer) then 1 else 0) }
    ensures failed { (buffer : List ℕ) → report.new.failed
        ≡ report.old.failed + (if is_failure (heard_of received buffer) then 1 else 0) }
    ensures few { report.new.received + report.new.failed
        ≤ report.old.received + report.old.failed + 1 }
{
    match received {
        Received::Datagram(_) => report.received += 1,
        Received::Nothing => {}
        Received::Failed => report.failed += 1,
    }
}

/// Runs a node for so many turns. In each it reads the clock, receives once, and gives a datagram that came
/// to the node at that reading; then for each port in ascending number it writes a line, where the port's
/// frame isn't that of the last line written for it, or none was. A failed receive counts as a turn.
///
/// The result counts the datagrams received and the receives that failed. `WriteFailed` where `out` has
/// failed; the run then ends, and nothing further is read, received or written.
pub fn run_node<L: Link, C: Clock, O: Out>(
    link: &mut L,
    clock: &mut C,
    out: &mut O,
    core: &mut NodeCore,
    turns: u64,
) -> Result<NodeReport, WriteFailed>
    requires { O.failed out.old ≡ false }

    // Each turn has one reading and one receive, and what is written is the node's text over them.
    ensures ok { IfOk result (λ report. (ts : List Turn) × (length ts ≡ turns)
        × Turned (C.readings clock.old) (C.readings clock.new) (L.told link.old)
        (L.told link.new) ts × Adds (O.Tells out.old) (O.Tells out.new) (node_text core.old ts)
        × (core.new ≡ node_after core.old ts) × (report ≡ report_of ts)) }
    ensures works { OnOk result (O.failed out.new ≡ false) }

    // What is written is the node's text up to a line of the last turn, of which a part is.
    ensures err { OnErr result ((t : Turn) × (ts : List Turn) × (length ts < turns)
        × Turned (C.readings clock.old) (C.readings clock.new) (L.told link.old)
        (L.told link.new) (t ∷ ts) × StopsIn core.old t ts (O.Tells out.old) (O.Tells out.new)
        × (core.new ≡ node_after core.old (t ∷ ts))) }
    ensures failed { OnErr result (O.failed out.new ≡ true) }
{
    let mut report = NodeReport {
        received: 0,
        failed: 0,
    };
    let mut showing = Showing::new(core);
    let mut buffer = [0; BUFFER_OCTETS];
    for _turn in 0..turns {
        let hearing = hear(link, clock, core, &mut showing, &mut buffer);
        count(&mut report, hearing.received);
        showing.look(core);
        write_ports(out, core.moment(), showing.news())?;
    }
    Ok(report)
}
