//! A recording followed to its end, and its incidents told.

use crate::live::LiveDigest;
use sacn_capture::{Capture, CaptureFault, Datagram, FrameCounts, Record};
use sacn_monitor::Endpoint;
use sacn_packets::read_packet;
use sacn_tell::{ExplainFault, Options, Report, TellFault, Timeline};
use std::alloc::Global;
use std::io::{BufRead, Write};

/// What is told.
#[derive(Clone, Copy)]
pub enum Parts {
    /// The incidents alone; where there are some, lines for people have an empty one behind them.
    Incidents,
    /// The incidents, and behind them the tables of sources and universes.
    All,
}

/// Tells what each source did in a recording, once for all its universes: an incident a line, in the order in which they began,
/// moments in milliseconds from the first frame.
///
/// Errors: OutOfMemory; Capture where the recording is wrong, with its first fault, or where its reader fails, and then all before
/// that place was told, with the tables; Device where a line can't be written.
pub fn tell_digest<R: BufRead + Drop, O: Write>(
    alloc: Global,
    reader: R,
    options: &Options<'_>,
    parts: Parts,
    out: &mut O,
) -> Result<(), ExplainFault> {
    let mut capture = Capture::open(alloc, reader)?;
    let mut digest = Digest::new(alloc, *options, out)?;
    let stopped = follow(&mut capture, &mut digest, options.port)?;
    digest.finish(parts, capture.counts())?;
    match stopped {
        Some(fault) => Err(ExplainFault::from(fault)),
        None => Ok(()),
    }
}

// Follows a recording to its end, or to what is wrong with it.
fn follow<R: BufRead + Drop, O: Write>(
    capture: &mut Capture<R>,
    digest: &mut Digest<'_, O>,
    port: u16,
) -> Result<Option<CaptureFault>, ExplainFault> {
    for _ in 0..u64::MAX {
        match capture.next() {
            Ok(Some(frame)) => digest.take(&frame, port)?,
            Ok(None) => return Ok(None),
            Err(fault) => return Ok(Some(fault)),
        }
    }
    // No device holds so many frames.
    Err(ExplainFault::Device)
}

/// What is known of a recording that is followed.
#[derive(Drop)]
struct Digest<'a, O> {
    live: LiveDigest<'a, O>,
    timeline: Timeline,
    other_ports: u64,
}

impl<'a, O: Write> Digest<'a, O> {
    // Nothing was followed yet.
    fn new(alloc: Global, options: Options<'a>, out: &'a mut O) -> Result<Self, ExplainFault> {
        Ok(Digest {
            live: LiveDigest::new(alloc, options, out)?,
            timeline: Timeline::begin(),
            other_ports: 0,
        })
    }

    // A frame. What had ended by silence comes before it, and what passed by then is told while the accounts are as they were.
    fn take(&mut self, frame: &Record<'_>, port: u16) -> Result<(), TellFault> {
        self.timeline.advance(frame.moment);
        let now = self.timeline.now;
        self.live.tick(now)?;
        match &frame.content {
            Ok(datagram) if datagram.destination_port == port => self.hear(now, datagram),
            Ok(_) => {
                self.other_ports = self.other_ports.saturating_add(1);
                Ok(())
            }
            Err(_) => Ok(()),
        }
    }

    // A datagram to the port.
    fn hear(&mut self, now: u64, datagram: &Datagram<'_>) -> Result<(), TellFault> {
        let sender = Endpoint {
            address: datagram.sender,
            port: datagram.sender_port,
        };
        self.live.take(now, sender, &read_packet(datagram.payload))
    }

    // The recording has ended.
    fn finish(&mut self, parts: Parts, frames: FrameCounts) -> Result<(), TellFault> {
        self.live.finish()?;
        match parts {
            Parts::Incidents => self.live.part(),
            Parts::All => self.tell_tables(frames),
        }
    }

    fn tell_tables(&mut self, frames: FrameCounts) -> Result<(), TellFault> {
        let report = Report {
            frames,
            tally: *self.live.monitor().tally(),
            pages_passed: self.live.pages_passed(),
            other_ports: self.other_ports,
            went_back: self.timeline.went_back,
            streams: self.live.monitor().streams().len(),
            length: self.timeline.now,
        };
        self.live.tell_tables(&report)
    }
}
