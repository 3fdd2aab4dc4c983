//! Texts printed to a writer.

ghost use Rattle.std.specs.Prelude.{◌≡◌, IfErr, OnOk, None, false};
ghost use Rattle.sacn_discovery.specs.Collection.{nothing_known};
ghost use Rattle.sacn_text.specs.Decoding as decoding;
ghost use Rattle.sacn_text.specs.Decoding.{decoded, octets_of};
ghost use Rattle.sacn_text.specs.Simulating as simulating;
ghost use Rattle.sacn_text.specs.Printing.{Has, has_failed};

use crate::decode::decode_text;
use crate::fault::{DecodeFault, SimFault};
use crate::marked_writer::MarkedWriter;
use crate::simulate::sim_text;
use std::alloc::Global;
use std::io::Write;

/// What printing came to.
#[derive(Drop)]
pub struct Printed<W, F> {
    /// The writer, which has what was printed after what it had. It isn't flushed.
    pub out: MarkedWriter<W>,
    /// Nothing, or why printing ended.
    pub ended: Result<(), F>,
}

/// Prints the texts of the datagrams, up to the first that is no packet: a writer that always tells what it has then has them.
/// `WriteFailed` comes only where a write to the writer gave an error or took nothing.
pub fn print_packets<W: Write + Drop>(
    alloc: Global,
    datagrams: &[Vec<u8>],
    writer: W,
) -> Printed<W, DecodeFault>
    ensures ok { OnOk result.ended
        (((decoded nothing_known 0 (octets_of datagrams.now)).refused ≡ None) × Has W.contents
        writer result.out.writer (decoded nothing_known 0 (octets_of datagrams.now)).text) }
    ensures err { IfErr result.ended
        (λ fault. decoding.Stops fault (has_failed result.out) (Has W.contents writer
        result.out.writer) (decoded nothing_known 0 (octets_of datagrams.now))) }
{
    let mut out = MarkedWriter::new(writer);
    let ended = decode_text(alloc, datagrams, &mut out);
    Printed { out, ended }
}

/// Prints a line for each look of a world that is run by a schedule, up to the first event that the world refuses: a writer that
/// always tells what it has then has them. `WriteFailed` comes only where a write to the writer gave an error or took nothing.
pub fn print_looks<W: Write + Drop>(
    alloc: Global,
    world: &str,
    schedule: &str,
    writer: W,
) -> Printed<W, SimFault>
    ensures ok { OnOk result.ended
        (simulating.Ends false (Has W.contents writer result.out.writer) world.now schedule.now) }
    ensures err { IfErr result.ended
        (λ fault. simulating.Stops fault (has_failed result.out) (Has W.contents writer
        result.out.writer) world.now schedule.now) }
{
    let mut out = MarkedWriter::new(writer);
    let ended = sim_text(alloc, world, schedule, &mut out);
    Printed { out, ended }
}
