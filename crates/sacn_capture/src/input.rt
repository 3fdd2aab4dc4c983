//! A file as octets: read in full or skipped, with the place in it.

ghost use Rattle.std.specs.Prelude.{◌≡◌, ◌+◌, ◌-◌, ◌^◌, ◌≤◌, ◌↔◌, length, take, drop, min, IfErr, IfOk, IfSome, IsTrue, OnOk, []};
ghost use Rattle.std.specs.Io.KnownBytes.{Consumes, Keeps};
ghost use Rattle.sacn_capture.specs.Check.{map_ok};
ghost use Rattle.sacn_capture.specs.Files.{octets as so_many};
ghost use Rattle.sacn_capture.specs.Inputs.{LeavesOut, Passes, ReadsInput, TellsEnd, IsShort, place_of};

use crate::faults::FaultKind;
use std::io::{BufRead, ErrorKind};

/// Octets are skipped in pieces of this many.
const PIECE: u64 = 512;

/// What fills a block up to four octets, with a short option before it, is at most this long.
const FEW: usize = 16;

/// A reader, and how many octets it has given.
#[derive(Drop)]
pub struct Input<R> {
    pub reader: R,
    pub at: u64,
}

impl<R: BufRead> Input<R> {
    /// Whether the file has ended. Error: Device.
    pub fn is_ended(&mut self) -> Result<bool, FaultKind>
        ensures told { TellsEnd (place_of R.Read.remaining self.old)
            (place_of R.Read.remaining self.new) result }
        ensures place { self.new.at ≡ self.old.at }
        ensures kept { OnOk result
            (Keeps (R.Read.remaining self.old.reader) (R.Read.remaining self.new.reader)) }
        ensures end { IfOk result (λ ended. IsTrue ended
            → IfSome (R.Read.remaining self.old.reader) (λ octets. octets ≡ [])) }
    {
        Ok(self.reader.fill_buf()?.is_empty())
    }

    /// Reads as many octets as the buffer has. Errors: CutShort where the file ends before, Device.
    pub fn fill(&mut self, buffer: &mut [u8]) -> Result<(), FaultKind>
        ensures octets { OnOk result (Consumes (R.Read.remaining self.old.reader)
            (R.Read.remaining self.new.reader) buffer.new) }
        ensures place { OnOk result
            (self.new.at ≡ min (self.old.at + length buffer.new) (2 ^ 64 - 1)) }
        ensures exact { ReadsInput R.Read.remaining (so_many (length buffer.old)) self.old self.new
            (map_ok (λ _. buffer.new) result) }
    {
        read_full(&mut self.reader, buffer)?;
        self.at = self.at.saturating_add(buffer.len() as u64);
        Ok(())
    }

    /// Reads so many octets to the buffer's front. Errors: CutShort where the file ends before, Device.
    pub fn fill_front(&mut self, buffer: &mut [u8], count: usize) -> Result<(), FaultKind>
        requires { count ≤ length buffer.old }
        ensures octets { OnOk result (Consumes (R.Read.remaining self.old.reader)
            (R.Read.remaining self.new.reader) (take count buffer.new)) }
        ensures len { length buffer.new ≡ length buffer.old }
        ensures exact { ReadsInput R.Read.remaining (so_many count) self.old self.new
            (map_ok (λ _. take count buffer.new) result) }
    {
        self.fill(&mut buffer[..count])
    }

    /// Reads octets to the buffer's end, from a place on. Errors: CutShort where the file ends before, Device.
    pub fn fill_from(&mut self, buffer: &mut [u8], from: usize) -> Result<(), FaultKind>
        requires { from ≤ length buffer.old }
        ensures front { take from buffer.new ≡ take from buffer.old }
        ensures len { length buffer.new ≡ length buffer.old }
        ensures exact { ReadsInput R.Read.remaining (so_many (length buffer.old - from)) self.old
            self.new (map_ok (λ _. drop from buffer.new) result) }
    {
        self.fill(&mut buffer[from..])
    }

    /// Leaves out so many octets. Errors: CutShort where the file ends before, Device.
    pub fn skip(&mut self, count: u64) -> Result<(), FaultKind>
        ensures octets { OnOk result (LeavesOut (R.Read.remaining self.old.reader)
            (R.Read.remaining self.new.reader) count) }
        ensures place { OnOk result (self.new.at ≡ min (self.old.at + count) (2 ^ 64 - 1)) }
        ensures exact { Passes count (place_of R.Read.remaining self.old)
            (place_of R.Read.remaining self.new) result }
    {
        leave_out(&mut self.reader, count)?;
        self.at = self.at.saturating_add(count);
        Ok(())
    }
}

// Fills the buffer, by as many reads as it takes.
fn read_full<R: BufRead>(reader: &mut R, buffer: &mut [u8]) -> Result<(), FaultKind>
    ensures octets { OnOk result
        (Consumes (R.Read.remaining reader.old) (R.Read.remaining reader.new) buffer.new) }
    ensures len { length buffer.new ≡ length buffer.old }
    ensures short { IfErr result (IsShort (R.Read.remaining reader.old) (length buffer.old)) }
{
    let mut at = 0;
    for _ in 0..u64::MAX {
        if at >= buffer.len() {
            return Ok(());
        }
        match reader.read(&mut buffer[at..]) {
            Ok(0) => return Err(FaultKind::CutShort),
            Ok(n) => at += n,
            Err(error) if error.kind() == ErrorKind::Interrupted => continue,
            Err(error) => return Err(error.into()),
        }
    }
    Err(FaultKind::Device)
}

fn leave_out<R: BufRead>(reader: &mut R, count: u64) -> Result<(), FaultKind>
    ensures octets { OnOk result
        (LeavesOut (R.Read.remaining reader.old) (R.Read.remaining reader.new) count) }
    ensures short { IfErr result (IsShort (R.Read.remaining reader.old) count) }
{
    let mut left = count;
    while left > 0 {
        let step = left.min(PIECE);
        leave_piece(reader, step as usize)?;
        left -= step;
    }
    Ok(())
}

// At most a piece. Few octets, as behind most packets of a pcapng file, go to a room of their own size, so that no whole piece is
// cleared for them; the piece would serve as well.
fn leave_piece<R: BufRead>(reader: &mut R, count: usize) -> Result<(), FaultKind>
    requires { count ≤ 512 }
    ensures octets { OnOk result
        (LeavesOut (R.Read.remaining reader.old) (R.Read.remaining reader.new) count) }
    ensures short { IfErr result (IsShort (R.Read.remaining reader.old) count) }
{
    if count <= FEW {
        let mut few = [0; FEW];
        return leave_front(reader, &mut few, count);
    }
    let mut piece = [0; PIECE as usize];
    leave_front(reader, &mut piece, count)
}

fn leave_front<R: BufRead>(reader: &mut R, piece: &mut [u8], count: usize) -> Result<(), FaultKind>
    requires { count ≤ length piece.old }
    ensures octets { OnOk result
        (LeavesOut (R.Read.remaining reader.old) (R.Read.remaining reader.new) count) }
    ensures short { IfErr result (IsShort (R.Read.remaining reader.old) count) }
{
    read_full(reader, &mut piece[..count])
}
