//! The room that a frame, or the body of a block, is read into.

ghost use Rattle.std.specs.Prelude.{◌≡◌, ◌≤◌, length, take, vec_len, IfErr, IfOk, OnOk};
ghost use Rattle.std.specs.Io.KnownBytes.{Consumes};
ghost use Rattle.sacn_capture.specs.declared.faults.FaultKind.TheVariants.{OutOfMemory};
ghost use Rattle.sacn_capture.specs.Check.{map_ok};
ghost use Rattle.sacn_capture.specs.Files.{octets as so_many};
ghost use Rattle.sacn_capture.specs.Frames.{IsWithin, seen_among, sent_of};
ghost use Rattle.sacn_capture.specs.Inputs.{ReadsInput};
ghost use Rattle.sacn_capture.specs.Placement.{content_in};

use crate::faults::FaultKind;
use crate::frame::{Datagram, Sighting, lent, look};
use crate::input::Input;
use crate::links::{LinkType, Passed};
use std::alloc::Global;
use std::io::BufRead;

/// The longest frame that is kept, and the longest description of an interface, in octets.
pub const LONGEST_KEPT: usize = 65_535;

/// Where a frame is: at the front of the room, or left out.
#[derive(Clone, Copy)]
pub enum Frame {
    Kept(LinkType, usize),
    LeftOut(Passed),
}

/// Room for 65,535 octets.
#[derive(Drop)]
pub struct Buffer {
    pub octets: Vec<u8>,
    ghost room: { vec_len octets ≡ 65535 },
}

impl Buffer {
    /// Error: OutOfMemory.
    pub fn new(alloc: Global) -> Result<Self, FaultKind>
        ensures { IfErr result (λ kind. kind ≡ OutOfMemory) }
    {
        let octets = vec![in alloc; 0; LONGEST_KEPT]?;
        Ok(Buffer { octets })
    }

    /// Reads so many octets to the front. Errors: CutShort where the file ends before, Device.
    pub fn fill<R: BufRead>(&mut self, input: &mut Input<R>, len: usize) -> Result<(), FaultKind>
        requires { len ≤ 65535 }
        ensures octets { OnOk result (Consumes (R.Read.remaining input.old.reader)
            (R.Read.remaining input.new.reader) (take len self.new.octets.items)) }
        ensures exact { ReadsInput R.Read.remaining (so_many len) input.old input.new
            (map_ok (λ _. take len self.new.octets.items) result) }
    {
        read_front(input, &mut self.octets, len)
    }

    /// So many octets at the front.
    pub fn front(&self, len: usize) -> &[u8]
        requires { len ≤ 65535 }
        ensures { result.now ≡ take len self.now.octets.items }
    {
        &self.octets[..len]
    }

    /// A look at a frame. What `lent` then gives out of the room is what stands in it. In line in each reader of a recording, of which a
    /// program may have two.
    #[inline(always)]
    pub fn look(&self, frame: Frame) -> Result<Sighting, Passed>
        ensures seen { map_ok (seen_among self.now.octets.items) result
            ≡ content_in frame self.now.octets.items }
        ensures within { IfOk result (IsWithin 65535) }
    {
        look_at(frame, &self.octets)
    }

    /// The datagram that a look saw.
    pub fn lent(&self, sighting: Sighting) -> Datagram<'_>
        requires { IsWithin 65535 sighting }
        ensures { sent_of result ≡ seen_among self.now.octets.items sighting }
    {
        lent(sighting, &self.octets)
    }
}

// So many octets, read to the buffer's front.
fn read_front<R: BufRead>(
    input: &mut Input<R>,
    buffer: &mut Vec<u8>,
    len: usize,
) -> Result<(), FaultKind>
    requires { len ≤ vec_len buffer.old }
    ensures octets { OnOk result (Consumes (R.Read.remaining input.old.reader)
        (R.Read.remaining input.new.reader) (take len buffer.new.items)) }
    ensures len { vec_len buffer.new ≡ vec_len buffer.old }
    ensures exact { ReadsInput R.Read.remaining (so_many len) input.old input.new
        (map_ok (λ _. take len buffer.new.items) result) }
{
    input.fill_front(buffer, len)
}

// A look at a frame, which is at the buffer's front where it was kept. In line, once in the reading of a file and once in that of
// standard input.
#[inline(always)]
fn look_at(frame: Frame, buffer: &[u8]) -> Result<Sighting, Passed>
    ensures seen { map_ok (seen_among buffer.now) result ≡ content_in frame buffer.now }
    ensures within { IfOk result (IsWithin (length buffer.now)) }
{
    match frame {
        Frame::Kept(link, len) => {
            if len > buffer.len() {
                return Err(Passed::TooLong);
            }
            look(link, &buffer[..len])
        }
        Frame::LeftOut(passed) => Err(passed),
    }
}
