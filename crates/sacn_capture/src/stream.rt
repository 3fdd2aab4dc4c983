//! A recording as a stream of frames.

ghost use Rattle.std.specs.Prelude.{◌≡◌, IfErr, IfNone, IfOk, IfSome, Err, None, Some, [], option_map};
ghost use types.Logic.{sem};
ghost use Rattle.std.specs.Io.BufRead.{Rests};
ghost use Rattle.sacn_capture.specs.contracts.stream.Capture.{the_row};
ghost use Rattle.sacn_capture.specs.Check.{map_ok};
ghost use Rattle.sacn_capture.specs.Counting.{none_counted, count_frame};
ghost use Rattle.sacn_capture.specs.Frames.{IsWithin, seen_among, sent_of};
ghost use Rattle.sacn_capture.specs.Placement.{content_in};
ghost use Rattle.sacn_capture.specs.Streams.{passed_in, Gives, GivesFirst, GivesNext, GivesRecord, IsPcap, Opens, ReadsRecord, StepReads, Steps, counts_of, frame_shown, left_in, place_of_reading, shown_of, stopped_by, to_come};

use crate::buffer::Frame;
use crate::faults::{CaptureFault, FaultKind};
use crate::frame::{Datagram, Sighting};
use crate::frame_counts::FrameCounts;
use crate::links::Passed;
use crate::pcap::PcapHeader;
use crate::pieces::Pieces;
use std::alloc::Global;
use std::io::BufRead;

/// A frame of a recording.
#[derive(Clone, Copy)]
pub struct Record<'a> {
    /// When it was taken, in milliseconds since 1970. A simple packet of pcapng has no moment: it takes that of the frame
    /// before it, and has none before the first that has one.
    pub moment: Option<u64>,
    /// The datagram in it, or why it was passed over.
    pub content: Result<Datagram<'a>, Passed>,
}

/// A recording that is read, frame by frame, in memory that doesn't grow with it.
#[derive(Drop)]
pub struct Capture<R> {
    pub(crate) pieces: Pieces<R>,
    /// Where the header, the block or the record begins that is read.
    pub(crate) mark: u64,
    pub(crate) counts: FrameCounts,
    pub(crate) stopped: Option<CaptureFault>,
}

impl<R: BufRead + Drop> Capture<R> {
    /// A recording, whose first header is read.
    ///
    /// Where the reader tells its octets, all that they give by the file's format is then to come.
    ///
    /// Errors, at octet 0: OutOfMemory, Device, and those of `pcap_header` and `section_in`.
    pub fn open(alloc: Global, reader: R) -> Result<Self, CaptureFault>
        ensures begun { IfOk result
            (λ capture. (counts_of capture ≡ none_counted) × (stopped_by capture ≡ None)) }
        ensures place { IfErr result (λ fault. fault.at ≡ 0) }
        ensures told { Opens R.Read.remaining (R.Read.remaining reader) result }
    {
        let pieces = Pieces::open(alloc, reader).map_err(|kind| CaptureFault { at: 0, kind })?;
        Ok(Capture {
            pieces,
            mark: 0,
            counts: FrameCounts::new(),
            stopped: None,
        })
    }
}

/// What one piece of a recording gives.
#[derive(Clone, Copy)]
enum Step {
    /// There is none: the file has ended.
    Ended,
    Found(Frame),
    /// A block without a frame.
    Nothing,
}

impl<R: BufRead> Capture<R> {
    /// The next frame, or none at the file's end.
    ///
    /// Where the reader tells its octets, the calls give one after another what those octets give by the file's format
    /// (`recording` of `specs/Recordings.antt`): its frames in order, and at last its end, or what is wrong and where. What
    /// a call leaves to come is what the next call begins with; `laws::calls_give_the_recording` says it of any number of calls.
    /// A frame that is given is counted, and nothing else is.
    ///
    /// Errors: what is wrong with the file, and where the header, the block or the record begins that is; Device and
    /// OutOfMemory, which no octet tells. What was read before stays valid; each later call gives the same fault.
    pub fn next(&mut self) -> Result<Option<Record<'_>>, CaptureFault>
        ensures stopped { IfSome (stopped_by self.old) (λ fault. result ≡ Err fault) }
        ensures end { (header : PcapHeader) → IsPcap header self.old → IfOk result (λ found.
            IfNone found (IfSome (left_in R.Read.remaining self.old) (λ octets. octets ≡ []))) }
        ensures given { (header : PcapHeader) → IsPcap header self.old
            → IfOk result (λ found. IfSome found (λ given. GivesRecord header given.moment
            (map_ok sent_of given.content) (left_in R.Read.remaining self.old))) }
        ensures* rests { sem 𝓛 (Rests (the_row R.row) self.entry (λ new. GivesNext R.Read.remaining
            (map_ok (λ found. option_map shown_of found) result) self.old new)) }
        ensures told { GivesFirst (map_ok (λ found. option_map shown_of found) result)
            (to_come R.Read.remaining self.old) }
    {
        match self.advance()? {
            Some(frame) => {
                let seen = self.count(frame);
                Ok(Some(self.record_of(seen)))
            }
            None => Ok(None),
        }
    }

    /// What the frames so far were.
    pub fn counts(&self) -> FrameCounts
        ensures { result ≡ counts_of self.now }
    {
        self.counts
    }

    /// How many octets of the file were read.
    pub fn offset(&self) -> u64
        ensures { result ≡ place_of_reading self.now }
    {
        self.pieces.input.at
    }

    // Reads on to the next frame, which is then in the buffer; none at the file's end.
    fn advance(&mut self) -> Result<Option<Frame>, CaptureFault>
        ensures stopped { IfSome (stopped_by self.old) (λ fault. result ≡ Err fault) }
        ensures end { (header : PcapHeader) → IsPcap header self.old → IfOk result (λ found.
            IfNone found (IfSome (left_in R.Read.remaining self.old) (λ octets. octets ≡ []))) }
        ensures given { (header : PcapHeader)
            → IsPcap header self.old → IfOk result (λ found. IfSome found (λ frame.
            ReadsRecord header frame self.new.pieces.moment (left_in R.Read.remaining self.old)
            (left_in R.Read.remaining self.new) self.new.pieces.buffer.octets.items)) }
        ensures counts { self.new.counts ≡ self.old.counts }
        ensures told { Gives
            (map_ok (λ found. option_map (λ frame. frame_shown frame self.new.pieces) found) result)
            (to_come R.Read.remaining self.old) (to_come R.Read.remaining self.new) }
    {
        if let Some(fault) = self.stopped {
            return Err(fault);
        }
        for _ in 0..u64::MAX {
            match self.step() {
                Ok(Step::Ended) => return Ok(None),
                Ok(Step::Found(frame)) => return Ok(Some(frame)),
                Ok(Step::Nothing) => {}
                Err(kind) => return Err(self.stop(kind)),
            }
        }
        Err(self.stop(FaultKind::Device))
    }

    // Reads a piece.
    fn step(&mut self) -> Result<Step, FaultKind>
        requires { self.old.stopped ≡ None }
        ensures going { self.new.stopped ≡ None }
        ensures counts { self.new.counts ≡ self.old.counts }
        ensures record { (header : PcapHeader) → IsPcap header self.old
            → IfOk result (λ step. StepReads header step (left_in R.Read.remaining self.old)
            (left_in R.Read.remaining self.new) self.new.pieces) }
        ensures told { Steps result self.new.mark self.new.pieces
            (to_come R.Read.remaining self.old) (to_come R.Read.remaining self.new) }
    {
        self.mark = self.pieces.input.at;
        if self.pieces.is_ended()? {
            return Ok(Step::Ended);
        }
        match self.pieces.next()? {
            Some(frame) => Ok(Step::Found(frame)),
            None => Ok(Step::Nothing),
        }
    }

    // The reading ends here.
    fn stop(&mut self, kind: FaultKind) -> CaptureFault
        ensures fault { result ≡ record { at = self.old.mark; kind = kind } }
        ensures stopped { self.new.stopped ≡ Some (record { at = self.old.mark; kind = kind }) }
        ensures counts { self.new.counts ≡ self.old.counts }
    {
        let fault = CaptureFault {
            at: self.mark,
            kind,
        };
        self.stopped = Some(fault);
        fault
    }

    // One more frame, and what stands in it: the one look at it counts it, and lends nothing yet.
    fn count(&mut self, frame: Frame) -> Result<Sighting, Passed>
        ensures pieces { self.new.pieces ≡ self.old.pieces }
        ensures stopped { self.new.stopped ≡ self.old.stopped }
        ensures counts { self.new.counts
            ≡ count_frame (passed_in frame self.old.pieces) self.old.counts }
        ensures seen { map_ok (seen_among self.old.pieces.buffer.octets.items) result
            ≡ content_in frame self.old.pieces.buffer.octets.items }
        ensures within { IfOk result (IsWithin 65535) }
    {
        let seen = self.pieces.buffer.look(frame);
        match seen {
            Ok(_) => self.counts.count(None),
            Err(passed) => self.counts.count(Some(passed)),
        }
        seen
    }

    // The frame that was read last, by what a look at it saw.
    fn record_of(&self, seen: Result<Sighting, Passed>) -> Record<'_>
        requires { IfOk seen (IsWithin 65535) }
        ensures content { map_ok sent_of result.content
            ≡ map_ok (seen_among self.now.pieces.buffer.octets.items) seen }
        ensures moment { result.moment ≡ self.now.pieces.moment }
    {
        let content = match seen {
            Ok(sighting) => Ok(self.pieces.buffer.lent(sighting)),
            Err(passed) => Err(passed),
        };
        Record {
            moment: self.pieces.moment,
            content,
        }
    }
}
