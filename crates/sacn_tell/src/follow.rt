//! A recording followed to its end.

ghost use Rattle.std.specs.Prelude.{◌≡◌, IfErr, IfOk, IfSome, OnOk, Some, max};
ghost use Rattle.sacn_capture.specs.Frames.{sent_of};
ghost use Rattle.sacn_capture.specs.Recordings.{recording};
ghost use Rattle.sacn_capture.specs.Counting.{none_counted};
ghost use Rattle.sacn_capture.specs.Streams.{counts_of, shown_of, to_come};
ghost use Rattle.sacn_packets.specs.PacketReading.{reading_packet};
ghost use Rattle.sacn_network.specs.Networks.{new_network};
ghost use Rattle.sacn_tell.specs.Faults.{IsFaultOf, IsOfTelling};
ghost use Rattle.sacn_tell.specs.Following.{IsTaken};
ghost use Rattle.sacn_tell.specs.KeptLists.{after_reading, listed_in, listed_with, none_listed};
ghost use Rattle.sacn_tell.specs.Story.{Hears, IsAccountOf, IsHeard, at_moment, at_stamp, progress_at_start, call_of, elsewhere, no_clock, sender_of};

use crate::fault::ExplainFault;
use crate::follower::Follower;
use crate::options::Options;
use crate::report::Report;
use sacn_capture::{Capture, CaptureFault, Datagram, Record};
use sacn_monitor::Endpoint;
use sacn_node::NodeSetup;
use std::alloc::Global;
use std::io::{BufRead, Write};

/// The clock of a recording, moved frame by frame.
#[derive(Clone, Copy)]
pub struct Timeline {
    /// The recording's origin: the moment of the first frame that has one, in milliseconds since 1970.
    pub first: Option<u64>,
    /// The latest moment, in milliseconds from the origin.
    pub now: u64,
    /// The frames with an earlier moment than one before. They are taken at the latest moment so far.
    pub went_back: u64,
}

/// Tells what happened in a recording, and what it amounts to: a line for each thing that happened, in order, moments in
/// milliseconds from its first frame, and then tables of sources and universes. With a node's setup the node's frames are told
/// too, from its start at the first frame on, each with its cause.
///
/// The report accounts for exactly the recording's datagrams, where its octets are known: its counts are those of a monitor that
/// was handed each datagram to the port, once and in order, at its moment from the first frame, or at the greatest moment before
/// it where that is later, and of every other frame the moment alone.
///
/// Errors: OutOfMemory; Capture where the recording is wrong, with its first fault, or where its reader fails, and then all before
/// that place was told, with the tables; Device where a line can't be written.
pub fn explain<R: BufRead + Drop, O: Write>(
    alloc: Global,
    capture: R,
    options: &Options<'_>,
    setup: Option<&NodeSetup>,
    out: &mut O,
) -> Result<Report, ExplainFault>
    ensures told { IfSome (R.Read.remaining capture)
        (λ file. IfOk result (λ report. IsAccountOf options.now.port (recording file) report)) }
    ensures fault { IfSome (R.Read.remaining capture)
        (λ file. IfErr result (IsFaultOf (recording file))) }
{
    let mut capture = Capture::open(alloc, capture)?;
    let mut follower = Follower::new(alloc, *options, setup, out)?;
    tell_all(&mut capture, &mut follower, options.port)
}

// Tells a recording to its end, or to what is wrong with it, and then the tables.
fn tell_all<R: BufRead + Drop, O: Write>(
    capture: &mut Capture<R>,
    follower: &mut Follower<'_, O>,
    port: u16,
) -> Result<Report, ExplainFault>
    requires nothing { follower.old.network ≡ new_network }
    requires lists { listed_in follower.old.listings ≡ none_listed }
    requires frames { counts_of capture.old ≡ none_counted }
    ensures told { IfSome (to_come R.Read.remaining capture.old)
        (λ told. IfOk result (λ report. IsAccountOf port told report)) }
    ensures fault { IfSome (to_come R.Read.remaining capture.old)
        (λ told. IfErr result (λ fault. IsFaultOf told fault)) }
{
    let progress = follow(capture, follower, port)?;
    let report = Report {
        frames: capture.counts(),
        tally: *follower.tally(),
        pages_passed: follower.pages_passed(),
        other_ports: progress.other_ports,
        went_back: progress.timeline.went_back,
        streams: follower.streams().len(),
        length: progress.timeline.now,
    };
    follower.finish(&report)?;
    match progress.stopped {
        Some(fault) => Err(ExplainFault::from(fault)),
        None => Ok(report),
    }
}

/// How far a recording was followed.
#[derive(Clone, Copy)]
struct Progress {
    timeline: Timeline,
    other_ports: u64,
    /// What is wrong with the recording.
    stopped: Option<CaptureFault>,
}

// Follows a recording to its end, or to what is wrong with it.
fn follow<R: BufRead + Drop, O: Write>(
    capture: &mut Capture<R>,
    follower: &mut Follower<'_, O>,
    port: u16,
) -> Result<Progress, ExplainFault>
    requires nothing { follower.old.network ≡ new_network }
    requires lists { listed_in follower.old.listings ≡ none_listed }
    requires frames { counts_of capture.old ≡ none_counted }
    ensures told { IfSome (to_come R.Read.remaining capture.old) (λ told. IfOk result
        (λ progress. IsHeard port told progress (record {
          frames = counts_of capture.new;
          book = follower.new.network.monitor;
          listed = listed_in follower.new.listings;
        }))) }
    ensures fault { IfErr result IsOfTelling }
{
    let mut progress = Progress::begin();
    for _ in 0..u64::MAX {
        match capture.next() {
            Ok(Some(frame)) => progress.take(&frame, port, follower)?,
            Ok(None) => return Ok(progress),
            Err(fault) => return Ok(progress.stop(fault)),
        }
    }
    // No device holds so many frames.
    Err(ExplainFault::Device)
}

impl Progress {
    // Nothing was followed yet.
    fn begin() -> Self
        ensures { result ≡ progress_at_start }
    {
        Progress {
            timeline: Timeline::begin(),
            other_ports: 0,
            stopped: None,
        }
    }

    // The recording is wrong here.
    fn stop(self, fault: CaptureFault) -> Self
        ensures { result.stopped ≡ Some fault }
    {
        Progress {
            stopped: Some(fault),
            ..self
        }
    }

    // A frame.
    fn take<O: Write>(
        &mut self,
        frame: &Record<'_>,
        port: u16,
        follower: &mut Follower<'_, O>,
    ) -> Result<(), ExplainFault>
        ensures stopped { self.new.stopped ≡ self.old.stopped }
        ensures timeline { self.new.timeline ≡ at_moment frame.now.moment self.old.timeline }
        ensures elsewhere { self.new.other_ports
            ≡ elsewhere port (shown_of frame.now).content self.old.other_ports }
        ensures moment { follower.new.network.monitor.moment
            ≡ max follower.old.network.monitor.moment self.new.timeline.now }
        ensures taken { OnOk result (Hears follower.old.network.monitor.moment
            (call_of port self.new.timeline.now (shown_of frame.now).content)
            follower.old.network.monitor follower.new.network.monitor) }
        ensures listed { OnOk result (listed_in follower.new.listings ≡ listed_with (call_of port
            self.new.timeline.now (shown_of frame.now).content) (listed_in follower.old.listings)) }
        ensures fault { IfErr result IsOfTelling }
    {
        self.timeline.advance(frame.moment);
        let now = self.timeline.now;
        match &frame.content {
            Ok(datagram) if datagram.destination_port == port => hear(now, datagram, follower),
            Ok(_) => {
                self.other_ports = self.other_ports.saturating_add(1);
                follower.tick(now)
            }
            Err(_) => follower.tick(now),
        }
    }
}

// A datagram to the port.
fn hear<O: Write>(
    now: u64,
    datagram: &Datagram<'_>,
    follower: &mut Follower<'_, O>,
) -> Result<(), ExplainFault>
    ensures moment { follower.new.network.monitor.moment
        ≡ max follower.old.network.monitor.moment now }
    ensures taken { OnOk result (IsTaken (max follower.old.network.monitor.moment now)
        (sender_of (sent_of datagram.now)) (sent_of datagram.now).payload
        follower.old.network.monitor follower.new.network.monitor) }
    ensures listed { OnOk result (listed_in follower.new.listings ≡ after_reading
        (reading_packet (sent_of datagram.now).payload) (listed_in follower.old.listings)) }
    ensures fault { IfErr result IsOfTelling }
{
    let sender = Endpoint {
        address: datagram.sender,
        port: datagram.sender_port,
    };
    follower.take(now, sender, datagram.payload)
}

impl Timeline {
    /// The clock before the first frame.
    pub fn begin() -> Self
        ensures { result ≡ no_clock }
    {
        Timeline {
            first: None,
            now: 0,
            went_back: 0,
        }
    }

    /// Moves to the moment of a frame, in milliseconds since 1970. One without a moment is where the clock stands.
    pub fn advance(&mut self, moment: Option<u64>)
        ensures { self.new ≡ at_moment moment self.old }
    {
        if let Some(moment) = moment {
            self.move_to(moment);
        }
    }

    // Moves to a moment.
    fn move_to(&mut self, moment: u64)
        ensures { self.new ≡ at_stamp moment self.old }
    {
        let first = self.first.unwrap_or(moment);
        self.first = Some(first);
        let now = moment.saturating_sub(first);
        if moment < first || now < self.now {
            self.went_back = self.went_back.saturating_add(1);
        }
        self.now = self.now.max(now);
    }
}
