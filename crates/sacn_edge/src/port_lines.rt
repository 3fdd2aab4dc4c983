//! The lines of a turn.
ghost use Rattle.std.specs.Prelude.{◌≡◌, false, true, Some, OnOk, OnErr};
ghost use Rattle.sacn_edge.specs.Additions.{Adds, AddsPart};
ghost use Rattle.sacn_edge.specs.PortLines.{FailsAmong, frame_text, port_text, ports_text};

use crate::line::line_of;
use crate::out::Out;
use crate::text::{WriteFailed, write_text};
use sacn_node::PortFrame;
use sacn_packets::FRAME_OCTETS;

/// Writes the line of a port, where the latest look found another frame than the one before.
fn write_port<O: Out>(out: &mut O, moment: u64, port: &PortFrame) -> Result<(), WriteFailed>
    requires { O.failed out.old ≡ false }
    ensures ok { OnOk result ((O.failed out.new ≡ false)
        × Adds (O.Tells out.old) (O.Tells out.new) (port_text moment port.now)) }
    ensures err { OnErr result ((O.failed out.new ≡ true)
        × AddsPart (O.Tells out.old) (O.Tells out.new) (port_text moment port.now)) }
{
    match port.news() {
        Some(frame) => write_frame(out, port.port, moment, frame),
        None => Ok(()),
    }
}

/// Writes the line of a frame. Out of line, so that the room of a line is made ready only where one is written.
#[inline(never)]
fn write_frame<O: Out>(
    out: &mut O,
    port: u8,
    moment: u64,
    frame: &[u8; FRAME_OCTETS],
) -> Result<(), WriteFailed>
    requires { O.failed out.old ≡ false }
    ensures ok { OnOk result ((O.failed out.new ≡ false)
        × Adds (O.Tells out.old) (O.Tells out.new) (frame_text port moment (Some frame.now))) }
    ensures err { OnErr result ((O.failed out.new ≡ true)
        × AddsPart (O.Tells out.old) (O.Tells out.new) (frame_text port moment (Some frame.now))) }
{
    let line = line_of(port, moment, frame);
    write_text(out, line.as_slice())
}

/// Writes the lines of a turn, with the node's moment: of each port whose frame is another one than at the look before.
///
/// `WriteFailed` where `out` has failed; no later port's line is written then.
pub fn write_ports<O: Out>(out: &mut O, moment: u64, ports: &[PortFrame]) -> Result<(), WriteFailed>
    requires { O.failed out.old ≡ false }
    ensures ok { OnOk result ((O.failed out.new ≡ false)
        × Adds (O.Tells out.old) (O.Tells out.new) (ports_text moment ports.now)) }
    ensures err { OnErr result ((O.failed out.new ≡ true)
        × FailsAmong moment ports.now (O.Tells out.old) (O.Tells out.new)) }
{
    for port in ports {
        write_port(out, moment, port)?;
    }
    Ok(())
}
