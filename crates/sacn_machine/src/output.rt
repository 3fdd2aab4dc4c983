//! Outputs that never hold up what writes to them.
//!
//! An [`Output`] keeps the lines that its sink doesn't take now. What finds no room is lost by whole lines, and how many is told once
//! there is room. Nothing here waits but [`Output::finish`].
ghost use Rattle.std.specs.Prelude.{◌≤◌, length, IfOk};

use crate::room::{FrameLine, MAX_FRAMES, NewestFrames, ROOM_OCTETS, Room};
use arrayvec::{ArrayString, ArrayVec};
use memchr::memchr;
use sacn_edge::Clock;
use std::alloc::{AllocError, Global};
use std::fmt::Write as _;
use std::io::{Error, ErrorKind, Result, Write};

/// The most pieces that are handed on at one call: those of a full room, where each is of 64 octets.
const MAX_PIECES: usize = 1024;

/// How long the end of a run waits for what waits to go out, in milliseconds.
const END_WAIT: u64 = 200;

/// How long it waits where that gives a terminal back from a screen, in milliseconds.
const SCREEN_END_WAIT: u64 = 2000;

/// What takes octets, and can be asked whether it does so now.
pub trait Sink {
    /// Waits until octets are taken or refused at once, for at most so many milliseconds. Returns whether they are.
    fn is_ready(&mut self, millis: i32) -> bool;

    /// The most octets that are taken at once where the sink is ready.
    fn most(&self) -> usize;

    /// Takes some of these octets, from the first on. Returns how many.
    fn take(&mut self, octets: &[u8]) -> std::result::Result<usize, ErrorKind>
        ensures { IfOk result (λ n. n ≤ length octets.now) };
}

/// What the lines of an output are.
#[derive(Clone, Copy, PartialEq, Eq)]
pub enum Lines {
    /// Lines for people. Where there is no room, the newest are lost.
    Plain,
    /// JSON objects, lost as plain lines.
    Objects,
    /// Frames of ports. Where there is no room, the newest of each port is kept for when there is.
    Frames,
    /// Drawings of a screen, each without LF up to a flush, and lines for people behind them. A drawing that finds no room is lost, and isn't counted.
    Drawings,
}

/// The most octets of a note that is shown on a screen.
pub const NOTE_OCTETS: usize = 256;

/// A line that is shown on a screen, without its LF, cut behind a letter where it is longer than that.
pub type Note = ArrayVec<u8, NOTE_OCTETS>;

/// What becomes of lines beside what they are written to.
#[derive(Clone, Copy, PartialEq, Eq)]
enum Noting {
    /// Nothing.
    Unnoted,
    /// The newest is noted.
    Copied,
    /// The newest is noted, and all wait until the screen is left.
    Held,
}

/// An output whose lines wait where its sink doesn't take them.
#[derive(Drop)]
pub struct Output<S> {
    sink: S,
    lines: Lines,
    room: Room,
    frames: NewestFrames,
    // The line that is being written, without what is beyond its room.
    line: Vec<u8>,
    is_long: bool,
    noting: Noting,
    // The newest line, where lines are noted and it wasn't taken.
    note: Option<Note>,
    // The time of day in front of the newest line that was lost.
    lost_at: ClockFront,
    // How long the end waits, in milliseconds.
    end_wait: u64,
}

/// The octets of a time of day in front of a line, `HH:MM:SS.mmm `.
pub const CLOCK_OCTETS: usize = 13;

/// A time of day in front of a line, or nothing.
pub type ClockFront = ArrayString<CLOCK_OCTETS>;

/// Whether a line has the time of day in front of it, or the dashes of one that isn't known.
fn has_clock(line: &[u8]) -> bool {
    match line {
        [first, _, b':', _, _, b':', _, _, b'.', _, _, _, b' ', ..] => {
            *first == b'-' || first.is_ascii_digit()
        }
        _ => false,
    }
}

/// The time of day in front of a line, where it has one.
fn clock_of(line: &[u8]) -> ClockFront {
    if !has_clock(line) {
        return ArrayString::new();
    }
    match first_letters(line) {
        Some(front) => front,
        None => ArrayString::new(),
    }
}

// The letters that a time of day takes.
fn first_letters(line: &[u8]) -> Option<ClockFront> {
    let text = std::str::from_utf8(line.get(..CLOCK_OCTETS)?).ok()?;
    ArrayString::from(text).ok()
}

/// A line without the time of day in front of it, where it has one.
fn behind_clock(line: &[u8]) -> Option<&[u8]> {
    if has_clock(line) {
        line.get(CLOCK_OCTETS..)
    } else {
        Some(line)
    }
}

/// The port of a frame's line.
fn port_of(line: &[u8]) -> Option<u8> {
    let line = behind_clock(line)?;
    let end = line.iter().position(|octet| *octet == b' ')?;
    let digits = std::str::from_utf8(&line[..end]).ok()?;
    digits.parse::<u8>().ok()
}

fn frame_line(line: &[u8]) -> Option<FrameLine> {
    let port = port_of(line)?;
    let mut octets = ArrayVec::new();
    octets.try_extend_from_slice(line).ok()?;
    Some(FrameLine { port, octets })
}

/// The line that tells how many lines were lost, behind this time of day.
fn loss_line(lines: Lines, front: &ClockFront, count: u64) -> ArrayString<80> {
    let mut text = ArrayString::new();
    let _ = match lines {
        Lines::Objects => writeln!(text, "{{\"event\":\"not_written\",\"lines\":{count}}}"),
        _ => writeln!(text, "{front}{count} lines not written"),
    };
    text
}

/// Where the letters of a text end that stand within so many octets. (Of a letter's octets, up to four, all but the first begin with
/// the bits 10.)
fn end_of_letters(text: &[u8], most: usize) -> usize {
    for back in 0..4 {
        let end = most.saturating_sub(back);
        match text.get(end) {
            Some(octet) if *octet & 0xc0 == 0x80 => {}
            _ => return end,
        }
    }
    most
}

/// What a screen shows of a line.
fn note_of(line: &[u8]) -> Note {
    let line = match line {
        [words @ .., b'\n'] => words,
        words => words,
    };
    let end = end_of_letters(line, NOTE_OCTETS).min(line.len());
    let mut note = ArrayVec::new();
    let _ = note.try_extend_from_slice(&line[..end]);
    note
}

impl<S: Sink + Drop> Output<S> {
    /// An output to which nothing was written. Once it is there it takes no memory.
    pub fn new(alloc: Global, sink: S, lines: Lines) -> std::result::Result<Output<S>, AllocError> {
        Ok(Output {
            sink,
            lines,
            room: Room::new(alloc)?,
            frames: NewestFrames::new(),
            line: Vec::with_capacity(alloc, ROOM_OCTETS)?,
            is_long: false,
            noting: Noting::Unnoted,
            note: None,
            lost_at: ArrayString::new(),
            end_wait: END_WAIT,
        })
    }

    /// From now on what is written is drawings of a screen. The end then waits longer, so that the terminal is given back.
    pub fn draw(&mut self) {
        self.lines = Lines::Drawings;
        self.end_wait = SCREEN_END_WAIT;
    }

    /// From now on a flush ends a line without LF, as one of drawings.
    pub fn prompt(&mut self) {
        self.lines = Lines::Drawings;
    }

    /// From now on the newest line is noted for a screen. Where lines would be written over it they wait until it is left.
    pub fn note_lines(&mut self, is_over_screen: bool) {
        self.noting = if is_over_screen {
            Noting::Held
        } else {
            Noting::Copied
        };
    }

    /// From now on what is written is lines for people, as they come, and none is noted.
    pub fn leave_screen(&mut self) {
        self.lines = Lines::Plain;
        self.noting = Noting::Unnoted;
    }

    /// The newest line, where one was noted since this was asked last.
    pub fn take_note(&mut self) -> Option<Note> {
        self.note.take()
    }

    /// Adds octets to the line that is being written.
    fn gather(&mut self, octets: &[u8]) {
        let left = ROOM_OCTETS.saturating_sub(self.line.len());
        if octets.len() > left || self.line.extend_from_slice(octets).is_err() {
            self.is_long = true;
        }
    }

    fn end_line(&mut self) {
        if self.noting != Noting::Unnoted {
            self.note = Some(note_of(self.line.as_slice()));
        }
        if self.is_long {
            self.room.count_loss();
        } else if self.lines == Lines::Frames {
            self.add_frame();
        } else {
            self.room.add_line(self.line.as_slice());
        }
        if self.room.has_lost() {
            self.lost_at = clock_of(self.line.as_slice());
        }
        self.line.clear();
        self.is_long = false;
    }

    /// Gives a drawing room, where there is: one that is lost isn't told, since the next one is whole again.
    fn end_drawing(&mut self) {
        if !self.is_long && self.room.has_room(self.line.len()) {
            self.room.add_line(self.line.as_slice());
        }
        self.line.clear();
        self.is_long = false;
    }

    /// Gives a frame's line room, or keeps it in place of an earlier one of its port.
    fn add_frame(&mut self) {
        if self.frames.len() == 0 && self.room.has_room(self.line.len()) {
            self.room.add_line(self.line.as_slice());
            return;
        }
        let earlier = self.frames.len();
        let is_kept = match frame_line(self.line.as_slice()) {
            Some(line) => self.frames.hold(line),
            None => false,
        };
        if !is_kept || self.frames.len() == earlier {
            self.room.count_loss();
        }
    }

    /// Gives the frame that waits the longest room, where there is. Returns whether there was.
    fn move_frame(&mut self) -> bool {
        let Some(line) = self.frames.first() else {
            return false;
        };
        if !self.room.has_room(line.octets.len()) {
            return false;
        }
        self.room.add_line(line.octets.as_slice());
        self.frames.drop_first();
        true
    }

    /// Tells what was lost, and gives frames that wait room, where there is.
    fn settle(&mut self) {
        if let Some(count) = self.room.take_loss() {
            let line = loss_line(self.lines, &self.lost_at, count);
            self.room.add_line(line.as_str().as_bytes());
        }
        for _ in 0..MAX_FRAMES {
            if !self.move_frame() {
                return;
            }
        }
    }

    /// Hands on a piece of what waits, where the sink is ready for it within so many milliseconds. Returns whether it took some.
    fn hand_on(&mut self, millis: i32) -> std::result::Result<bool, ErrorKind> {
        self.settle();
        if self.noting == Noting::Held || self.room.is_empty() || !self.sink.is_ready(millis) {
            return Ok(false);
        }
        let front = self.room.front();
        let most = front.len().min(self.sink.most());
        match self.sink.take(&front[..most]) {
            Ok(0) => Err(ErrorKind::WriteZero),
            Ok(count) => {
                self.room.take(count);
                Ok(true)
            }
            Err(ErrorKind::WouldBlock) => Ok(false),
            Err(ErrorKind::Interrupted) => Ok(false),
            Err(kind) => Err(kind),
        }
    }

    /// Hands on what waits, as much as the sink takes at once.
    fn pump(&mut self) -> std::result::Result<(), ErrorKind> {
        for _ in 0..MAX_PIECES {
            if !self.hand_on(0)? {
                return Ok(());
            }
        }
        Ok(())
    }

    /// Whether something waits for the sink.
    pub fn is_pending(&self) -> bool {
        self.noting != Noting::Held && (!self.room.is_empty() || self.frames.len() > 0)
    }

    /// Waits for what waits to go out, at most a fifth of a second, and two seconds where a screen was drawn. Returns how many
    /// lines are given up.
    pub fn finish<C: Clock>(&mut self, clock: &mut C) -> u64 {
        let until = clock.now().saturating_add(self.end_wait);
        for _ in 0..MAX_PIECES {
            let left = until.saturating_sub(clock.now()).min(SCREEN_END_WAIT);
            match self.hand_on(left as i32) {
                Ok(true) if left > 0 => {}
                _ => break,
            }
        }
        self.room
            .count_left()
            .saturating_add(self.frames.len() as u64)
    }
}

impl<S: Sink + Drop> Write for Output<S> {
    fn write(&mut self, octets: &[u8]) -> Result<usize> {
        let Some(end) = memchr(b'\n', octets) else {
            self.gather(octets);
            return Ok(octets.len());
        };
        let count = end + 1;
        self.gather(&octets[..count]);
        self.end_line();
        match self.pump() {
            Ok(()) => Ok(count),
            Err(kind) => Err(Error::from(kind)),
        }
    }

    fn flush(&mut self) -> Result<()> {
        if self.lines == Lines::Drawings && !self.line.is_empty() {
            self.end_drawing();
        }
        match self.pump() {
            Ok(()) => Ok(()),
            Err(kind) => Err(Error::from(kind)),
        }
    }
}
