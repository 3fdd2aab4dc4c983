//! A simulation, printed into room of its own.
use crate::Outcome;
use arrayvec::ArrayVec;
use fixtures::texts::{SCHEDULE, WORLD};
use sacn_edge::WriterOut;
use sacn_text::{SimFault, sim_text};
use std::alloc::Global;
use std::io::{self, Write};

/// The lines of the example's looks.
const LINES: &[u8] = b"0 1 0 dark
0 1 3499 1@255
0 1 900 1@255
0 1 3500 dark
0 2 3500 noport
";

/// A page of fixed size, so that writing takes no memory.
#[derive(Drop)]
struct Page {
    octets: ArrayVec<u8, 128>,
}

impl Write for Page {
    fn write(&mut self, buf: &[u8]) -> io::Result<usize> {
        match self.octets.try_extend_from_slice(buf) {
            Ok(()) => Ok(buf.len()),
            Err(_) => Ok(0),
        }
    }

    fn flush(&mut self) -> io::Result<()> {
        Ok(())
    }
}

fn simulate(alloc: Global) -> (Result<(), SimFault>, ArrayVec<u8, 128>) {
    let mut out = WriterOut::new(Page {
        octets: ArrayVec::new(),
    });
    let answer = sim_text(alloc, WORLD, SCHEDULE, &mut out);
    (answer, out.writer.octets)
}

/// `sim_text`: where memory is refused, what is written is a prefix of the lines.
pub fn calls_made(alloc: Global) -> Outcome {
    let (answer, text) = simulate(alloc);
    match answer {
        Ok(()) if text.as_slice() == LINES => Outcome::Done,
        Err(SimFault::OutOfMemory) if !LINES.starts_with(text.as_slice()) => Outcome::Wrong(
            "what a refused simulation wrote",
        ),
        Err(SimFault::OutOfMemory) => match simulate(alloc) {
            (Ok(()), again) if again.as_slice() == LINES => Outcome::Refused,
            _ => Outcome::Wrong("a simulation that can't be run again"),
        },
        _ => Outcome::Wrong("a simulation"),
    }
}
