//! A recording in a file.
use crate::tape_choice::{Chosen, TapeChoice};
use sacn_capture::{Capture, CaptureFault, FaultKind, Record};
use sacn_replay::RecordReader;
use std::alloc::{AllocError, Global};
use std::fs::OpenFile;
use std::io::{self, BufReader, ErrorKind, Seek, SeekFrom};
use std::rt::Files;

/// The octets of a recording that are read at once.
const ROOM: usize = 65_536;

/// The datagrams of a recording in a file that are played by a choice. A faulty file is played up to its fault. Memory doesn't grow with
/// the file.
#[derive(Drop)]
pub struct FileTape<R: Files> {
    alloc: Global,
    file: R::File,
    capture: Option<Capture<BufReader<R::File>>>,
    choice: TapeChoice,
    /// The moment of the first datagram to the port that has one, in milliseconds since 1970.
    first: Option<u64>,
    /// How many data packets of other universes than the choice's were read.
    others: u64,
    /// Whether the next datagram was read: its octets, and its moment, None where there is no further one.
    is_read: bool,
    moment: Option<u64>,
    octets: Vec<u8>,
    fault: Option<CaptureFault>,
}

// A fault that no octet tells.
fn fault_of(kind: ErrorKind) -> CaptureFault {
    let kind = match kind {
        ErrorKind::OutOfMemory => FaultKind::OutOfMemory,
        _ => FaultKind::Device,
    };
    CaptureFault { at: 0, kind }
}

// What came of a look at a frame.
enum Kept {
    /// It carries a datagram that is played, which is kept; its moment, in milliseconds since 1970.
    Datagram(Option<u64>),
    /// It carries another one to the port; its moment, and whether that is a data packet.
    Other(Option<u64>, bool),
    Nothing,
}

// Keeps the octets of a frame's datagram, where it is played.
fn keep(
    record: &Record<'_>,
    choice: &TapeChoice,
    octets: &mut Vec<u8>,
) -> Result<Kept, AllocError> {
    let datagram = match record.content {
        Ok(datagram) if datagram.destination_port == choice.port => datagram,
        _ => return Ok(Kept::Nothing),
    };
    match choice.of(datagram.payload) {
        Chosen::Played => {
            octets.clear();
            octets.extend_from_slice(datagram.payload)?;
            Ok(Kept::Datagram(record.moment))
        }
        Chosen::OtherUniverse => Ok(Kept::Other(record.moment, true)),
        Chosen::NoData => Ok(Kept::Other(record.moment, false)),
    }
}

impl<R: Files> FileTape<R> {
    /// The recording in a file, from the first datagram on that is played by this choice.
    ///
    /// Errors: those of `Capture::open`, and of the machine's files.
    pub fn open(alloc: Global, file: R::File, choice: TapeChoice) -> Result<Self, CaptureFault> {
        let mut tape = FileTape {
            alloc,
            file,
            capture: None,
            choice,
            first: None,
            others: 0,
            is_read: false,
            moment: None,
            octets: Vec::new(alloc),
            fault: None,
        };
        tape.begin()?;
        tape.read();
        Ok(tape)
    }

    /// What is wrong with the file, where it was read up to a fault.
    pub fn fault(&self) -> Option<CaptureFault> {
        self.fault
    }

    /// The moment of its first datagram to the port, in milliseconds since 1970.
    pub fn first(&self) -> Option<u64> {
        self.first
    }

    /// How many data packets of other universes than the choice's were read so far.
    pub fn others(&self) -> u64 {
        self.others
    }

    /// Whether there is a datagram to play.
    pub fn has_datagram(&self) -> bool {
        self.moment.is_some()
    }

    fn reader(&mut self) -> io::Result<BufReader<R::File>> {
        let mut file = self.file.try_clone()?;
        file.seek(SeekFrom::Start(0))?;
        BufReader::with_capacity(self.alloc, ROOM, file)
    }

    // Begins at the first frame.
    fn begin(&mut self) -> Result<(), CaptureFault> {
        self.capture = None;
        let reader = self.reader().map_err(|error| fault_of(error.kind()))?;
        self.capture = Some(Capture::open(self.alloc, reader)?);
        Ok(())
    }

    // Reads on to the next datagram.
    fn read(&mut self) {
        self.is_read = true;
        match self.find() {
            Ok(found) => self.moment = found,
            Err(fault) => {
                self.moment = None;
                self.fault = Some(fault);
            }
        }
        if self.moment.is_none() {
            self.octets.clear();
        }
        self.choice.universes.rewrite(self.octets.as_mut_slice());
    }

    // The next datagram's moment, in milliseconds since the first one's; one without a moment has that of the first.
    fn find(&mut self) -> Result<Option<u64>, CaptureFault> {
        for _ in 0..u64::MAX {
            match self.look()? {
                None => return Ok(None),
                Some(Kept::Nothing) => {}
                Some(Kept::Other(moment, is_data)) => self.pass_over(moment, is_data),
                Some(Kept::Datagram(moment)) => return Ok(Some(self.since_first(moment))),
            }
        }
        Ok(None)
    }

    // Passes over a datagram that isn't played.
    fn pass_over(&mut self, moment: Option<u64>, is_data: bool) {
        let _ = self.since_first(moment);
        if is_data {
            self.others = self.others.saturating_add(1);
        }
    }

    // Looks at the next frame; None at the end.
    fn look(&mut self) -> Result<Option<Kept>, CaptureFault> {
        let Some(capture) = &mut self.capture else {
            return Ok(None);
        };
        match capture.next()? {
            None => Ok(None),
            Some(record) => match keep(&record, &self.choice, &mut self.octets) {
                Ok(kept) => Ok(Some(kept)),
                Err(_) => Err(fault_of(ErrorKind::OutOfMemory)),
            },
        }
    }

    fn since_first(&mut self, moment: Option<u64>) -> u64 {
        self.first = self.first.or(moment);
        match (moment, self.first) {
            (Some(moment), Some(first)) => moment.saturating_sub(first),
            _ => 0,
        }
    }
}

impl<R: Files> RecordReader for FileTape<R> {
    fn moment(&mut self) -> Option<u64> {
        if !self.is_read {
            self.read();
        }
        self.moment
    }

    fn octets(&self) -> &[u8] {
        self.octets.as_slice()
    }

    fn pass(&mut self) {
        self.is_read = false;
    }

    fn rewind(&mut self) {
        self.is_read = false;
        if let Err(fault) = self.begin() {
            self.fault = Some(fault);
        }
    }
}
