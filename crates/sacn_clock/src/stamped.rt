//! An output that puts a time into each line.
ghost use Rattle.std.specs.Prelude.{◌≤◌, IfOk, length};

use crate::line_moment::timed_object;
use crate::moments::Moments;
use crate::times::{clock_text, time_text};
use crate::zone::LocalZone;
use memchr::memchr;
use std::io::{Result, Write};

/// How a line has its time.
#[derive(Clone, Copy)]
pub enum Timing<'z> {
    /// Not at all.
    Unstamped,
    /// In front, as the time of day of a zone.
    Clock(&'z LocalZone),
    /// As the member `time` of an object of JSON, behind its `ms`.
    Member,
}

/// An output that puts a time into each line. The member of an object wants a line that is written at once.
#[derive(Drop)]
pub struct Stamped<'z, O, M> {
    out: O,
    moments: M,
    timing: Timing<'z>,
    /// Some of a line was written, and not its end.
    is_within: bool,
}

impl<'z, O: Write, M: Moments> Stamped<'z, O, M> {
    pub fn new(out: O, moments: M, timing: Timing<'z>) -> Self {
        Stamped {
            out,
            moments,
            timing,
            is_within: false,
        }
    }

    // Writes up to the end of a line, with a time at its beginning.
    #[inline(never)]
    fn write_timed(&mut self, octets: &[u8]) -> Result<usize>
        ensures { IfOk result (λ count. count ≤ length octets.now) }
    {
        if octets.is_empty() {
            return Ok(0);
        }
        let piece = first_line(octets);
        let was_within = self.is_within;
        // (where the write fails the line counts as written)
        self.is_within = !piece.ends_with(b"\n");
        if was_within {
            self.out.write_all(piece)?;
        } else {
            self.begin(piece)?;
        }
        Ok(piece.len())
    }

    // Begins a line.
    fn begin(&mut self, piece: &[u8]) -> Result<()> {
        match self.timing {
            Timing::Unstamped => self.out.write_all(piece),
            Timing::Clock(zone) => {
                let moment = self.moments.moment_of(piece);
                let text = clock_text(moment, &zone.zone());
                self.out.write_all(text.as_str().as_bytes())?;
                self.out.write_all(piece)
            }
            Timing::Member => self.write_object(piece),
        }
    }

    // An object, with its time where it says its moment.
    fn write_object(&mut self, line: &[u8]) -> Result<()> {
        let Some(object) = timed_object(line) else {
            return self.out.write_all(line);
        };
        self.out.write_all(object.before)?;
        self.out.write_all(object.digits)?;
        let moment = self.moments.moment_of(line);
        self.write_member(moment)?;
        self.out.write_all(object.behind)
    }

    fn write_member(&mut self, moment: Option<u64>) -> Result<()> {
        match moment.and_then(time_text) {
            Some(text) => {
                self.out.write_all(b",\"time\":\"")?;
                self.out.write_all(text.as_str().as_bytes())?;
                self.out.write_all(b"\"")
            }
            None => self.out.write_all(b",\"time\":null"),
        }
    }
}

// What stands up to the end of the first line, that end with it.
fn first_line(octets: &[u8]) -> &[u8]
    ensures { length result.now ≤ length octets.now }
{
    match memchr(b'\n', octets) {
        Some(end) => &octets[..end + 1],
        None => octets,
    }
}

impl<'z, O: Write, M: Moments> Write for Stamped<'z, O, M> {
    // (A frame's line is written in many pieces, and mostly without a time: so this test stands in the code of what writes.)
    #[inline(always)]
    fn write(&mut self, octets: &[u8]) -> Result<usize> {
        match self.timing {
            Timing::Unstamped => self.out.write(octets),
            Timing::Clock(_) | Timing::Member => self.write_timed(octets),
        }
    }

    fn flush(&mut self) -> Result<()> {
        self.out.flush()
    }
}
