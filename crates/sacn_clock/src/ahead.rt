//! A recording's front, read ahead.
use sacn_capture::Capture;
use std::alloc::Global;
use std::io::{Read, Result};

/// The most octets, about, in which the first moment of a recording is looked for.
pub const MOST_AHEAD: usize = 4_194_304;

/// The octets that are read at once.
const PIECE: usize = 65_536;

/// An input that was read ahead: all of it is still to come.
#[derive(Drop)]
pub struct Ahead<I> {
    alloc: Global,
    front: Vec<u8>,
    /// How many octets of the front were given.
    given: usize,
    input: I,
}

impl<I: Read> Ahead<I> {
    /// An input of which nothing was read.
    pub fn new(alloc: Global, input: I) -> Self {
        Ahead {
            alloc,
            front: Vec::new(alloc),
            given: 0,
            input,
        }
    }

    /// The moment of a recording's first frame that has one, in milliseconds since 1970 (UTC), for which it is read ahead as
    /// far as need be; None where it has no such frame, or is no recording up to it. It waits where its input does.
    ///
    /// Errors: those of reading.
    pub fn first_moment(&mut self) -> Result<Option<u64>> {
        for _ in 0..MOST_AHEAD {
            if let Some(moment) = moment_in(self.alloc, self.front.as_slice()) {
                return Ok(Some(moment));
            }
            if self.front.len() >= MOST_AHEAD || !self.read_piece()? {
                break;
            }
        }
        Ok(None)
    }

    // Reads a piece more. Returns whether there was one.
    fn read_piece(&mut self) -> Result<bool> {
        let len = self.front.len();
        self.front.resize(len.saturating_add(PIECE), 0)?;
        let read = self.input.read(&mut self.front.as_mut_slice()[len..]);
        let count = match &read {
            Ok(count) => *count,
            Err(_) => 0,
        };
        self.front.truncate(len.saturating_add(count));
        read?;
        Ok(count > 0)
    }
}

// The moment of the first frame that has one, where that stands whole in these octets.
fn moment_in(alloc: Global, octets: &[u8]) -> Option<u64> {
    let mut capture = Capture::open(alloc, octets).ok()?;
    for _ in 0..octets.len() {
        let frame = capture.next().ok()??;
        if frame.moment.is_some() {
            return frame.moment;
        }
    }
    None
}

impl<I: Read> Read for Ahead<I> {
    fn read(&mut self, buf: &mut [u8]) -> Result<usize> {
        let left = &self.front.as_slice()[self.given.min(self.front.len())..];
        if left.is_empty() {
            return self.input.read(buf);
        }
        let count = left.len().min(buf.len());
        buf[..count].copy_from_slice(&left[..count]);
        self.given = self.given.saturating_add(count);
        Ok(count)
    }
}
