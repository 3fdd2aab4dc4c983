//! The blocks of a pcapng file that have a frame or describe an interface, read.

ghost use Rattle.std.specs.Prelude.{◌≡◌, ◌+◌, ◌-◌, ◌≤◌, length, take, IfOk, OnOk};
ghost use Rattle.sacn_capture.specs.Check.{map_ok};
ghost use Rattle.sacn_capture.specs.declared.buffer.Frame.TheVariants.{LeftOut};
ghost use Rattle.sacn_capture.specs.Files.{octets as so_many, gives, ◌▷◌};
ghost use Rattle.sacn_capture.specs.Inputs.{LeavesOut, Passes};
ghost use Rattle.sacn_capture.specs.Pcapng.{interface_of};
ghost use Rattle.sacn_capture.specs.Recordings.{described_by, enhanced_behind, enhanced_piece, frame_content, interface_at, interface_body, interface_end, interface_piece, interface_size, packet_behind, simple_behind, simple_piece};
ghost use Rattle.sacn_capture.specs.Placement.{content_in};
ghost use Rattle.sacn_capture.specs.Streams.{TakesFrame, Reads, ReadsPiece, file_place, state_of};

use crate::buffer::{Frame, LONGEST_KEPT};
use crate::clock::{milliseconds_of, shifted};
use crate::faults::FaultKind;
use crate::headers::{end_of_block, skip_to_end};
use crate::interface::Described;
use crate::links::{LinkType, Passed};
use crate::octets::ByteOrder;
use crate::pcapng::{
    BLOCK_FRAME, ENHANCED_HEAD, EnhancedHead, SIMPLE_HEAD, enhanced_in, interface_in, simple_in,
};
use crate::pieces::{MAX_INTERFACES, Pieces};
use std::io::BufRead;

impl<R: BufRead> Pieces<R> {
    // An interface of the section.
    pub fn described(&mut self, order: ByteOrder, size: u32) -> Result<Option<Frame>, FaultKind>
        requires { 12 ≤ size }
        ensures { ReadsPiece R.Read.remaining
            (interface_piece order size (state_of self.old)) self.old self.new result }
    {
        let len = self.interface_len(size)?;
        self.described_in(order, size, len)
    }

    // The octets that describe an interface in a block of `size` octets.
    fn interface_len(&self, size: u32) -> Result<usize, FaultKind>
        requires { 12 ≤ size }
        ensures len { result ≡ interface_size size (length (state_of self.now).interfaces) }
        ensures few { IfOk result (λ len. len ≤ 65535) }
    {
        let len = (size - BLOCK_FRAME) as usize;
        if len > LONGEST_KEPT {
            return Err(FaultKind::Length);
        }
        if self.interfaces.len() >= MAX_INTERFACES {
            return Err(FaultKind::Interface);
        }
        Ok(len)
    }

    // An interface described in so many octets.
    fn described_in(
        &mut self,
        order: ByteOrder,
        size: u32,
        len: usize,
    ) -> Result<Option<Frame>, FaultKind>
        requires { len ≤ 65535 }
        ensures { ReadsPiece R.Read.remaining
            (described_by len order size (state_of self.old)) self.old self.new result }
    {
        self.buffer.fill(&mut self.input, len)?;
        self.added(order, size, len)
    }

    // An interface whose description was read, and its block's end.
    fn added(&mut self, order: ByteOrder, size: u32, len: usize) -> Result<Option<Frame>, FaultKind>
        requires { len ≤ 65535 }
        ensures { ReadsPiece R.Read.remaining (interface_body order size (state_of self.old)
            (take len self.old.buffer.octets.items)) self.old self.new result }
    {
        let interface = interface_in(order, self.buffer.front(len))?;
        self.pushed(order, size, interface)
    }

    // An interface, and its block's end.
    fn pushed(
        &mut self,
        order: ByteOrder,
        size: u32,
        interface: Described,
    ) -> Result<Option<Frame>, FaultKind>
        ensures { ReadsPiece R.Read.remaining (interface_end order size (state_of self.old)
            (interface_of interface)) self.old self.new result }
    {
        end_of_block(&mut self.input, order, size)?;
        self.interfaces.push(interface)?;
        Ok(None)
    }

    // The frame of an enhanced packet block.
    pub fn enhanced(&mut self, order: ByteOrder, size: u32) -> Result<Option<Frame>, FaultKind>
        ensures { ReadsPiece R.Read.remaining
            (enhanced_piece order size (state_of self.old)) self.old self.new result }
    {
        let mut octets = [0; ENHANCED_HEAD];
        self.input.fill(&mut octets)?;
        self.packet(order, size, enhanced_in(order, size, &octets)?)
    }

    // The frame of an enhanced packet, whose head was read.
    fn packet(
        &mut self,
        order: ByteOrder,
        size: u32,
        head: EnhancedHead,
    ) -> Result<Option<Frame>, FaultKind>
        requires { head.captured + 32 ≤ size }
        ensures { ReadsPiece R.Read.remaining
            (enhanced_behind order size (state_of self.old) head) self.old self.new result }
    {
        let interface = self.interface_at(head.interface as usize)?;
        let moment = shifted(
            interface.shift,
            milliseconds_of(head.ticks, interface.units),
        );
        let rest = size - 32 - head.captured;
        self.packet_frame(
            interface.link,
            head.captured,
            Some(moment),
            rest,
            order,
            size,
        )
    }

    // The interface of a number in its section.
    fn interface_at(&self, index: usize) -> Result<Described, FaultKind>
        ensures { map_ok interface_of result ≡ interface_at (state_of self.now) index }
    {
        self.interfaces
            .get(index)
            .copied()
            .ok_or(FaultKind::Interface)
    }

    // The frame of a simple packet block, which is of the section's first interface.
    pub fn simple(&mut self, order: ByteOrder, size: u32) -> Result<Option<Frame>, FaultKind>
        ensures { ReadsPiece R.Read.remaining
            (simple_piece order size (state_of self.old)) self.old self.new result }
    {
        let interface = self.interface_at(0)?;
        self.of_first(order, size, interface)
    }

    // The frame of a simple packet of an interface.
    fn of_first(
        &mut self,
        order: ByteOrder,
        size: u32,
        interface: Described,
    ) -> Result<Option<Frame>, FaultKind>
        ensures { ReadsPiece R.Read.remaining (simple_behind order size (state_of self.old)
            (interface_of interface)) self.old self.new result }
    {
        let mut octets = [0; SIMPLE_HEAD];
        self.input.fill(&mut octets)?;
        let captured = simple_in(order, size, interface.longest, &octets)?;
        let rest = size - 16 - captured;
        self.packet_frame(interface.link, captured, self.moment, rest, order, size)
    }

    // A packet's frame, the rest of its block, and the block's end.
    fn packet_frame(
        &mut self,
        link: Option<LinkType>,
        captured: u32,
        moment: Option<u64>,
        rest: u32,
        order: ByteOrder,
        size: u32,
    ) -> Result<Option<Frame>, FaultKind>
        ensures { ReadsPiece R.Read.remaining (packet_behind link captured moment rest order size
            (state_of self.old)) self.old self.new result }
    {
        let frame = self.take_frame(link, captured)?;
        skip_to_end(&mut self.input, rest, order, size)?;
        self.moment = moment;
        Ok(Some(frame))
    }

    // A frame of so many octets, read into the buffer where it is kept.
    pub fn take_frame(&mut self, link: Option<LinkType>, captured: u32) -> Result<Frame, FaultKind>
        ensures frame { IfOk result
            (λ frame. TakesFrame link captured frame (R.Read.remaining self.old.input.reader)
            (R.Read.remaining self.new.input.reader) self.new.buffer.octets.items) }
        ensures state { state_of self.new ≡ state_of self.old }
        ensures exact { Reads R.Read.remaining
            (so_many captured ▷ λ frame. gives (frame_content link frame)) self.old self.new
            (map_ok (λ frame. content_in frame self.new.buffer.octets.items) result) }
    {
        let Some(link) = link else {
            return self.leave_out(captured, Passed::OtherLink);
        };
        let len = captured as usize;
        if len > LONGEST_KEPT {
            return self.leave_out(captured, Passed::TooLong);
        }
        self.buffer.fill(&mut self.input, len)?;
        Ok(Frame::Kept(link, len))
    }

    // A frame that isn't kept.
    fn leave_out(&mut self, captured: u32, passed: Passed) -> Result<Frame, FaultKind>
        ensures frame { IfOk result (λ frame. frame ≡ LeftOut passed) }
        ensures octets { OnOk result (LeavesOut (R.Read.remaining self.old.input.reader)
            (R.Read.remaining self.new.input.reader) captured) }
        ensures buffer { self.new.buffer.octets.items ≡ self.old.buffer.octets.items }
        ensures state { state_of self.new ≡ state_of self.old }
        ensures exact { Passes captured (file_place R.Read.remaining self.old)
            (file_place R.Read.remaining self.new) result }
    {
        self.input.skip(u64::from(captured))?;
        Ok(Frame::LeftOut(passed))
    }
}
