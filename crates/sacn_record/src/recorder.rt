//! Recordings written.

ghost use Rattle.std.specs.Prelude.{◌≡◌, ◌≤◌, [], length, Some, OnOk, OnErr};
ghost use Rattle.std.specs.Io.KnownBytes.{Appends};
ghost use Rattle.sacn_record.specs.Recordings.{beginning, datagram_block, recording_of, taken_of};
ghost use Rattle.sacn_record.specs.Laws.{Fits};
ghost use Rattle.sacn_record.specs.Writing.{AppendsFront, Records};

use crate::blocks::{LONGEST_BEGINNING, LONGEST_BLOCK, put_beginning, put_datagram};
use crate::heard::Heard;
use arrayvec::ArrayVec;
use std::io::{self, ErrorKind, Write};

/// Writes what stands before the first datagram: the recording of none yet. `program` names the program that records, with its version, in at most
/// `LONGEST_PROGRAM` octets.
///
/// Errors: those of the writer, which then has the first octets of it, however many.
pub fn begin<W: Write>(writer: &mut W, program: &str) -> io::Result<()>
    requires { length program.now ≤ 64 }
    ensures all { OnOk result
        (Appends (W.contents writer.old) (W.contents writer.new) (beginning program.now)) }
    ensures front { OnErr result
        (AppendsFront (W.contents writer.old) (W.contents writer.new) (beginning program.now)) }
    ensures recording { W.contents writer.old ≡ Some []
        → OnOk result (W.contents writer.new ≡ Some (recording_of program.now [])) }
{
    let mut octets: ArrayVec<u8, LONGEST_BEGINNING> = ArrayVec::new();
    put_beginning(&mut octets, program);
    write_octets(writer, octets.as_slice())
}

/// Writes a datagram that was heard. What a recording was before is then a recording of this datagram too, as its last.
///
/// Errors: those of the writer, which then has the first octets of the datagram's block, however many.
pub fn record<W: Write>(writer: &mut W, heard: &Heard<'_>) -> io::Result<()>
    requires { length heard.now.payload.now ≤ 2048 }
    ensures all { OnOk result (Appends (W.contents writer.old) (W.contents writer.new)
        (datagram_block (taken_of heard.now))) }
    ensures front { OnErr result (AppendsFront (W.contents writer.old) (W.contents writer.new)
        (datagram_block (taken_of heard.now))) }
    ensures recording { Records result (W.contents writer.old) (W.contents writer.new)
        (taken_of heard.now) }
    ensures fits { Fits (taken_of heard.now) }
{
    let mut octets: ArrayVec<u8, LONGEST_BLOCK> = ArrayVec::new();
    put_datagram(&mut octets, heard);
    write_octets(writer, octets.as_slice())
}

// Writes octets, by as many writes as it takes.
fn write_octets<W: Write>(writer: &mut W, octets: &[u8]) -> io::Result<()>
    ensures all { OnOk result
        (Appends (W.contents writer.old) (W.contents writer.new) octets.now) }
    ensures front { OnErr result
        (AppendsFront (W.contents writer.old) (W.contents writer.new) octets.now) }
{
    let mut rest = octets;
    for _ in 0..u64::MAX {
        if rest.is_empty() {
            return Ok(());
        }
        match writer.write(rest) {
            Ok(0) => return Err(ErrorKind::WriteZero.into()),
            Ok(n) => rest = &rest[n..],
            Err(error) if error.kind() == ErrorKind::Interrupted => continue,
            Err(error) => return Err(error),
        }
    }
    Err(ErrorKind::WriteZero.into())
}
