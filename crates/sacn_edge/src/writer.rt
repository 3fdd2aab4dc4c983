//! A sink over a writer of std.
ghost use Rattle.std.specs.Prelude.{◌≡◌, List, Some, IsSome, false};
ghost use Rattle.sacn_edge.specs.Writers.{has_failed};

use crate::out::Out;
use std::io::Write;

/// An `Out` over any `Write`: one `write` for each `put`. An error, or 0 octets taken, is a failure.
/// It tells the octets that its writer tells.
#[derive(Drop)]
pub struct WriterOut<W> {
    /// The writer, which has what was taken.
    pub writer: W,
    failed: bool,
}

impl<W: Write> WriterOut<W> {
    /// A sink over this writer, which has not failed.
    pub fn new(writer: W) -> WriterOut<W>
        ensures works { has_failed result ≡ false }
        ensures writer { result.writer ≡ writer }
    {
        WriterOut {
            writer,
            failed: false,
        }
    }
}

impl<W: Write> Out for WriterOut<W> {
    ghost failed = { has_failed };

    ghost Tells = { λ o xs. ((w : W) → IsSome (W.contents w)) × (W.contents o.writer ≡ Some xs) };

    fn put(&mut self, bytes: &[u8]) -> usize {
        match self.writer.write(bytes) {
            Ok(n) => {
                self.failed = n == 0;
                n
            }
            Err(_) => {
                self.failed = true;
                0
            }
        }
    }

    fn has_failed(&self) -> bool {
        self.failed
    }
}
