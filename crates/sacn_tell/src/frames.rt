//! The frames of a node's ports.

ghost use Rattle.std.specs.Prelude.{Some, OnOk};
ghost use Rattle.sacn_tell.specs.Causes.{reason_of};
ghost use Rattle.sacn_tell.specs.Shows.{frame_told, port_told, ports_told};
ghost use Rattle.sacn_tell.specs.Tellings.{Tells};

use crate::cause::Cause;
use crate::fault::TellFault;
use crate::options::Form;
use crate::teller::Teller;
use sacn_edge::line_of;
use sacn_node::PortFrame;
use sacn_packets::FRAME_OCTETS;
use std::io::Write;

/// Tells the frames of these ports, each where the latest look found it new. `moment` is the node's,
/// which stands in the line that a node's loop writes.
pub fn tell_ports<O: Write>(
    now: u64,
    cause: &Cause<'_>,
    moment: u64,
    ports: &[PortFrame],
    teller: &mut Teller<'_, O>,
) -> Result<(), TellFault>
    ensures { OnOk result (Tells O.contents teller.old teller.new
        (ports_told teller.old.form now (reason_of cause.now) moment ports.now)) }
{
    for port in ports {
        tell_port(now, cause, moment, port, teller)?;
    }
    Ok(())
}

// Tells the frame of a port, where it is new.
fn tell_port<O: Write>(
    now: u64,
    cause: &Cause<'_>,
    moment: u64,
    port: &PortFrame,
    teller: &mut Teller<'_, O>,
) -> Result<(), TellFault>
    ensures { OnOk result (Tells O.contents teller.old teller.new
        (port_told teller.old.form now (reason_of cause.now) moment port.now)) }
{
    match port.news() {
        Some(frame) => tell_frame(now, cause, moment, port, frame, teller),
        None => Ok(()),
    }
}

// Tells a frame of a port: for people with the line that a node's loop writes, for programs as an object that has the slots, for
// which no line is made.
fn tell_frame<O: Write>(
    now: u64,
    cause: &Cause<'_>,
    moment: u64,
    port: &PortFrame,
    frame: &[u8; FRAME_OCTETS],
    teller: &mut Teller<'_, O>,
) -> Result<(), TellFault>
    ensures { OnOk result (Tells O.contents teller.old teller.new
        (frame_told teller.old.form now (reason_of cause.now) moment port.now (Some frame.now))) }
{
    match teller.form {
        Form::Text => {
            let line = line_of(port.port, moment, frame);
            teller.tell_frame(now, port, cause, line.as_slice())
        }
        Form::Json => teller.tell_frame(now, port, cause, &[]),
    }
}
