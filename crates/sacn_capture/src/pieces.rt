//! A recording as a stream of pieces: the records of a pcap file, the blocks of a pcapng file.

ghost use Rattle.std.specs.Prelude.{◌≡◌, ◌≤◌, IfErr, IfOk, IfSome, IsSome, OnOk, true, []};
ghost use Rattle.std.specs.Io.KnownBytes.{Keeps};
ghost use Rattle.sacn_capture.specs.Check.{map_ok};
ghost use Rattle.sacn_capture.specs.declared.headers.Format.TheVariants.{Pcap};
ghost use Rattle.sacn_capture.specs.Files.{Does, octets as so_many, place_at, ◌▷◌};
ghost use Rattle.sacn_capture.specs.Inputs.{TellsEnd};
ghost use Rattle.sacn_capture.specs.Recordings.{block_behind, block_piece, opening, other_behind, piece, record_behind, record_piece, section_piece};
ghost use Rattle.sacn_capture.specs.Streams.{IsBegun, opened_place, ReadsFrame, ReadsRecord, Reads, ReadsPiece, file_place, state_of};

use crate::buffer::{Buffer, Frame};
use crate::faults::FaultKind;
use crate::headers::{Format, first_header, section, skip_to_end};
use crate::input::Input;
use crate::interface::Described;
use crate::octets::ByteOrder;
use crate::pcap::{PcapHeader, RECORD_HEAD, pcap_record_head};
use crate::pcapng::{BLOCK_FRAME, BLOCK_HEAD, BlockHead, BlockKind, is_section, pcapng_block_head};
use std::alloc::Global;
use std::io::BufRead;

/// The most interfaces of a section.
pub const MAX_INTERFACES: usize = 256;

/// A recording that is read, piece by piece, in memory that doesn't grow with it.
#[derive(Drop)]
pub struct Pieces<R> {
    pub input: Input<R>,
    pub format: Format,
    /// What the section has described so far.
    pub interfaces: Vec<Described>,
    pub buffer: Buffer,
    /// The moment of the last frame, none before the first that has one.
    pub moment: Option<u64>,
}

impl<R: BufRead + Drop> Pieces<R> {
    /// A recording, whose first header is read.
    pub fn open(alloc: Global, reader: R) -> Result<Self, FaultKind>
        ensures begun { IfOk result IsBegun }
        ensures exact { Does opening (place_at 0 (R.Read.remaining reader))
            (opened_place R.Read.remaining result) (map_ok (λ pieces. pieces.format) result) }
    {
        let buffer = Buffer::new(alloc)?;
        let interfaces = Vec::with_capacity(alloc, MAX_INTERFACES)?;
        let mut input = Input { reader, at: 0 };
        let format = first_header(&mut input)?;
        Ok(Pieces {
            input,
            format,
            interfaces,
            buffer,
            moment: None,
        })
    }
}

impl<R: BufRead> Pieces<R> {
    /// Whether no octet is left. Error: Device.
    pub fn is_ended(&mut self) -> Result<bool, FaultKind>
        ensures end { IfOk result (λ ended. ended ≡ true
            → IfSome (R.Read.remaining self.old.input.reader) (λ octets. octets ≡ [])) }
        ensures kept { OnOk result (Keeps (R.Read.remaining self.old.input.reader)
            (R.Read.remaining self.new.input.reader)) }
        ensures told { TellsEnd (file_place R.Read.remaining self.old)
            (file_place R.Read.remaining self.new) result }
        ensures state { state_of self.new ≡ state_of self.old }
    {
        self.input.is_ended()
    }

    /// The frame in the piece that comes next, or none where it is a block without one.
    ///
    /// Errors: what is wrong with the piece.
    pub fn next(&mut self) -> Result<Option<Frame>, FaultKind>
        ensures record { (header : PcapHeader)
            → self.old.format ≡ Pcap header → IfOk result (λ found. IfSome found (λ frame.
            ReadsRecord header frame self.new.moment (R.Read.remaining self.old.input.reader)
            (R.Read.remaining self.new.input.reader) self.new.buffer.octets.items)) }
        ensures some { (header : PcapHeader) → self.old.format ≡ Pcap header
            → IfOk result (λ found. IsSome found) }
        ensures exact { ReadsPiece R.Read.remaining
            (piece (state_of self.old)) self.old self.new result }
    {
        match self.format {
            Format::Pcap(header) => self.record(header),
            Format::Pcapng(order) => self.block(order),
        }
    }

    // A record of a pcap file.
    fn record(&mut self, header: PcapHeader) -> Result<Option<Frame>, FaultKind>
        ensures some { IfOk result (λ found. IsSome found) }
        ensures record { IfOk result (λ found. IfSome found (λ frame.
            ReadsRecord header frame self.new.moment (R.Read.remaining self.old.input.reader)
            (R.Read.remaining self.new.input.reader) self.new.buffer.octets.items)) }
        ensures exact { ReadsPiece R.Read.remaining
            (record_piece header (state_of self.old)) self.old self.new result }
    {
        let mut octets = [0; RECORD_HEAD];
        self.input.fill(&mut octets)?;
        self.framed(header, &octets)
    }

    // The frame behind a record's head.
    fn framed(&mut self, header: PcapHeader, octets: &[u8]) -> Result<Option<Frame>, FaultKind>
        ensures some { IfOk result (λ found. IsSome found) }
        ensures frame { IfOk result (λ found. IfSome found (λ frame. ReadsFrame
            header octets.now frame self.new.moment (R.Read.remaining self.old.input.reader)
            (R.Read.remaining self.new.input.reader) self.new.buffer.octets.items)) }
        ensures exact { ReadsPiece R.Read.remaining
            (record_behind header (state_of self.old) octets.now) self.old self.new result }
    {
        let head = pcap_record_head(header.stamp, octets)?;
        let frame = self.take_frame(Some(header.link), head.captured)?;
        self.moment = Some(head.moment);
        Ok(Some(frame))
    }

    // A block of a pcapng file.
    fn block(&mut self, order: ByteOrder) -> Result<Option<Frame>, FaultKind>
        ensures { ReadsPiece R.Read.remaining (so_many 8 ▷ λ head.
            block_behind order (state_of self.old) head) self.old self.new result }
    {
        let mut octets = [0; BLOCK_HEAD];
        self.input.fill(&mut octets)?;
        self.behind(order, octets)
    }

    // What stands behind a block's head.
    fn behind(
        &mut self,
        order: ByteOrder,
        octets: [u8; BLOCK_HEAD],
    ) -> Result<Option<Frame>, FaultKind>
        ensures { ReadsPiece R.Read.remaining
            (block_behind order (state_of self.old) octets) self.old self.new result }
    {
        if is_section(&octets) {
            return self.section(octets);
        }
        self.other(order, octets)
    }

    // A block that is no section header.
    fn other(
        &mut self,
        order: ByteOrder,
        octets: [u8; BLOCK_HEAD],
    ) -> Result<Option<Frame>, FaultKind>
        ensures { ReadsPiece R.Read.remaining
            (other_behind order (state_of self.old) octets) self.old self.new result }
    {
        let head = pcapng_block_head(order, &octets)?;
        self.by_kind(order, head)
    }

    // A section header: the interfaces before it are forgotten.
    fn section(&mut self, octets: [u8; BLOCK_HEAD]) -> Result<Option<Frame>, FaultKind>
        ensures { ReadsPiece R.Read.remaining
            (section_piece (state_of self.old) octets) self.old self.new result }
    {
        let order = section(&mut self.input, octets)?;
        self.format = Format::Pcapng(order);
        self.interfaces.clear();
        Ok(None)
    }

    fn by_kind(&mut self, order: ByteOrder, head: BlockHead) -> Result<Option<Frame>, FaultKind>
        requires { 12 ≤ head.length }
        ensures { ReadsPiece R.Read.remaining
            (block_piece order head.length (state_of self.old) head.kind) self.old self.new result }
    {
        match head.kind {
            BlockKind::Interface => self.described(order, head.length),
            BlockKind::Enhanced => self.enhanced(order, head.length),
            BlockKind::Simple => self.simple(order, head.length),
            BlockKind::Other => {
                let rest = head.length - BLOCK_FRAME;
                skip_to_end(&mut self.input, rest, order, head.length)?;
                Ok(None)
            }
        }
    }
}
