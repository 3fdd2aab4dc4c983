//! An output whose reader may go, as `head` does once it has its lines.
use sacn_commands::ending::Ending;
use std::io::{ErrorKind, Result, Write};

/// An output, and whether its reader has gone.
#[derive(Drop)]
pub struct Piped<O> {
    out: O,
    reader_has_gone: bool,
}

impl<O: Write> Piped<O> {
    /// An output whose reader is there.
    pub fn new(out: O) -> Self {
        Piped {
            out,
            reader_has_gone: false,
        }
    }

    /// Whether a write met a pipe that nobody reads.
    pub fn reader_has_gone(&self) -> bool {
        self.reader_has_gone
    }

    /// How a run ends: what nobody reads any more is no failure.
    pub fn ending(&self, told: std::result::Result<(), Ending>) -> std::result::Result<(), Ending> {
        match told {
            Err(Ending::DeviceWrite) if self.reader_has_gone => Ok(()),
            told => told,
        }
    }

    // Notes what came of a write.
    fn note<T>(&mut self, written: &Result<T>) {
        if let Err(error) = written {
            self.reader_has_gone |= error.kind() == ErrorKind::BrokenPipe;
        }
    }
}

impl<O: Write> Write for Piped<O> {
    fn write(&mut self, octets: &[u8]) -> Result<usize> {
        let written = self.out.write(octets);
        self.note(&written);
        written
    }

    fn flush(&mut self) -> Result<()> {
        let flushed = self.out.flush();
        self.note(&flushed);
        flushed
    }
}
