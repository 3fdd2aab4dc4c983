//! Standard output and standard error that never hold up what writes to them.
use crate::clock::RigClock;
use crate::output::{Lines, Note, Output, Sink};
use crate::sys::{STDERR, STDOUT, is_terminal, takes_octets, write_some};
use std::alloc::{AllocError, Global};
use std::cell::RefCell;
use std::io::{Error, ErrorKind, Result, Write};
use std::os::fd::RawFd;
use std::rt::Clock as MachineClock;

/// The most octets of a write to a pipe or a file: as many as a pipe that is ready takes whole (PIPE_BUF).
const PIPE_PIECE: usize = 4096;

/// The most octets of a write to a terminal, which may be ready for few.
const TERMINAL_PIECE: usize = 128;

/// An open descriptor of the process.
#[derive(Clone, Copy)]
pub struct Descriptor {
    fd: RawFd,
    most: usize,
}

impl Descriptor {
    fn of(fd: RawFd) -> Descriptor {
        let most = if is_terminal(fd) {
            TERMINAL_PIECE
        } else {
            PIPE_PIECE
        };
        Descriptor { fd, most }
    }
}

impl Sink for Descriptor {
    fn is_ready(&mut self, millis: i32) -> bool {
        takes_octets(self.fd, millis)
    }

    fn most(&self) -> usize {
        self.most
    }

    fn take(&mut self, octets: &[u8]) -> std::result::Result<usize, ErrorKind> {
        write_some(self.fd, octets)
    }
}

/// Standard output and standard error of a loop that lights or watches a rig.
#[derive(Drop)]
pub struct Outputs {
    out: RefCell<Output<Descriptor>>,
    err: RefCell<Output<Descriptor>>,
}

/// One of two outputs that several hold. What is flushed is both: a loop that writes to one alone keeps the other going.
#[derive(Drop)]
pub struct Outlet<'a> {
    to: &'a RefCell<Output<Descriptor>>,
    beside: &'a RefCell<Output<Descriptor>>,
}

impl Outputs {
    /// The two outputs. The lines are those of standard output; those of standard error are for people.
    pub fn new(alloc: Global, lines: Lines) -> std::result::Result<Outputs, AllocError> {
        Ok(Outputs {
            out: RefCell::new(Output::new(alloc, Descriptor::of(STDOUT), lines)?),
            err: RefCell::new(Output::new(alloc, Descriptor::of(STDERR), Lines::Plain)?),
        })
    }

    /// Standard output.
    pub fn out(&self) -> Outlet<'_> {
        Outlet {
            to: &self.out,
            beside: &self.err,
        }
    }

    /// Standard error.
    pub fn err(&self) -> Outlet<'_> {
        Outlet {
            to: &self.err,
            beside: &self.out,
        }
    }

    /// From now on standard output is a screen: what is written there is whole drawings, each up to a flush. Lines of standard error wait until
    /// the screen is left, where they would stand over it.
    pub fn begin_screen(&self) {
        if let Ok(mut out) = self.out.try_borrow_mut() {
            out.draw();
        }
        if let Ok(mut err) = self.err.try_borrow_mut() {
            err.note_lines(is_terminal(STDERR));
        }
    }

    /// From now on standard output may be a line for people without its end, too: a prompt, which a flush ends.
    pub fn begin_prompts(&self) {
        if let Ok(mut out) = self.out.try_borrow_mut() {
            out.prompt();
        }
    }

    /// From now on standard output is lines for people, and lines of standard error are written as they come.
    pub fn leave_screen(&self) {
        if let Ok(mut out) = self.out.try_borrow_mut() {
            out.leave_screen();
        }
        if let Ok(mut err) = self.err.try_borrow_mut() {
            err.leave_screen();
        }
    }

    /// The newest line of standard error since the screen began or this was asked last.
    pub fn take_note(&self) -> Option<Note> {
        match self.err.try_borrow_mut() {
            Ok(mut err) => err.take_note(),
            Err(_) => None,
        }
    }

    /// Hands on what waits. Returns whether something still waits for standard output.
    pub fn pump_screen(&self) -> bool {
        let _ = self.out().flush();
        is_pending(&self.out)
    }

    /// Hands on what waits. Returns whether something still waits.
    pub fn pump(&self) -> bool {
        let _ = self.out().flush();
        is_pending(&self.out) || is_pending(&self.err)
    }

    /// Waits for what waits to go out, at most a fifth of a second each, and two seconds where standard output was a screen. Says
    /// on standard error how many lines of standard output are given up.
    pub fn finish<R: MachineClock>(&self, clock: &mut RigClock<'_, R>) {
        let left = finish(&self.out, clock);
        if left > 0 {
            let _ = writeln!(self.err(), "{left} lines of standard output not written");
        }
        finish(&self.err, clock);
    }
}

fn is_pending(output: &RefCell<Output<Descriptor>>) -> bool {
    match output.try_borrow() {
        Ok(output) => output.is_pending(),
        Err(_) => false,
    }
}

fn finish<R: MachineClock>(
    output: &RefCell<Output<Descriptor>>,
    clock: &mut RigClock<'_, R>,
) -> u64 {
    match output.try_borrow_mut() {
        Ok(mut output) => output.finish(clock),
        Err(_) => 0,
    }
}

fn flush(output: &RefCell<Output<Descriptor>>) -> Result<()> {
    match output.try_borrow_mut() {
        Ok(mut output) => output.flush(),
        Err(_) => Err(Error::from(ErrorKind::Other)),
    }
}

impl<'a> Write for Outlet<'a> {
    fn write(&mut self, octets: &[u8]) -> Result<usize> {
        match self.to.try_borrow_mut() {
            Ok(mut output) => output.write(octets),
            Err(_) => Err(Error::from(ErrorKind::Other)),
        }
    }

    fn flush(&mut self) -> Result<()> {
        let _ = flush(self.beside);
        flush(self.to)
    }
}
