//! A writer that knows whether anything was written to it, as a sink.
ghost use Rattle.std.specs.Prelude.{◌≡◌, List, Some, IsSome, false};
ghost use Rattle.sacn_text.specs.Printing.{has_failed};

use sacn_edge::Out;
use std::io::{self, Write};

/// A writer that knows whether anything was written to it. It tells the octets that the writer below tells.
///
/// As a sink it makes one `write` of the writer below for each `put`. An error, or 0 octets taken, is a failure.
#[derive(Drop)]
pub struct MarkedWriter<W> {
    /// The writer below, which has what was written.
    pub writer: W,
    is_marked: bool,
    failed: bool,
}

impl<W: Write> MarkedWriter<W> {
    /// A writer to which nothing was written yet.
    pub fn new(writer: W) -> MarkedWriter<W>
        ensures writer { result.writer ≡ writer }
        ensures unmarked { result.is_marked ≡ false }
        ensures works { has_failed result ≡ false }
    {
        MarkedWriter {
            writer,
            is_marked: false,
            failed: false,
        }
    }

    /// Whether a write was tried.
    pub fn is_marked(&self) -> bool
        ensures { result ≡ self.now.is_marked }
    {
        self.is_marked
    }
}

impl<W: Write> Write for MarkedWriter<W> {
    ghost contents = { λ m. W.contents m.writer };

    fn write(&mut self, buf: &[u8]) -> io::Result<usize> {
        self.is_marked = true;
        self.writer.write(buf)
    }

    fn flush(&mut self) -> io::Result<()> {
        self.writer.flush()
    }
}

impl<W: Write> Out for MarkedWriter<W> {
    ghost failed = { has_failed };

    ghost Tells = { λ m xs. ((w : W) → IsSome (W.contents w)) × (W.contents m.writer ≡ Some xs) };

    fn put(&mut self, bytes: &[u8]) -> usize {
        self.is_marked = true;
        match self.writer.write(bytes) {
            Ok(n) => {
                self.failed = n == 0;
                n
            }
            Err(_) => {
                self.failed = true;
                0
            }
        }
    }

    fn has_failed(&self) -> bool {
        self.failed
    }
}
