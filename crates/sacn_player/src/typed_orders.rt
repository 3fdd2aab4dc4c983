//! Orders that are typed or piped on standard input while a recording plays.
use crate::moments::behind;
use crate::order_line::{LineFault, PlayLine, PlayMoment, line_said};
use crate::said::{Answer, HELP, write_answer};
use sacn_edge::Clock;
use sacn_machine::sys::{NO_DESCRIPTOR, STDIN, wait_readable};
use sacn_machine::{InputState, RigClock, TypedInput};
use sacn_replay::{PlayOrder, PlayOrders, ReplayCore};
use std::alloc::Global;
use std::io::{self, Write};
use std::rt::Clock as MachineClock;

/// The most lines that are looked at for one order.
const MAX_LINES: usize = 1024;

/// Standard input that ends so soon, in milliseconds, and had nothing, counts as none: the recording plays to its end, as one that a service starts.
const NO_INPUT: u64 = 1000;

/// The orders of standard input, with their answers on an output. It tells nothing.
#[derive(Drop)]
pub struct TypedOrders<'a, R, O> {
    alloc: Global,
    clock: RigClock<'a, R>,
    out: O,
    input: TypedInput,
    line_number: usize,
    /// The time of day of the first datagram, in milliseconds since midnight; None where it isn't known.
    first: Option<u64>,
    // What the line says that is next. It is read ahead of its turn, so that the end of the orders is heard at once.
    ahead: Option<Result<PlayLine, LineFault>>,
    // What is answered once the latest order holds.
    answer: Option<Answer>,
    // What a status says of the datagrams that were played: that they were sent, or taken by a source.
    played: &'static str,
    is_absent: bool,
    has_ended: bool,
    write_failed: bool,
}

impl<'a, R: MachineClock, O: Write> TypedOrders<'a, R, O> {
    /// The orders of standard input, of which nothing was read yet, answered on this output. The clock is the player's, or a twin of it.
    pub fn new(alloc: Global, clock: RigClock<'a, R>, first: Option<u64>, out: O) -> Self {
        TypedOrders {
            alloc,
            clock,
            out,
            input: TypedInput::new(alloc),
            line_number: 0,
            first,
            ahead: None,
            answer: None,
            played: "sent",
            is_absent: false,
            has_ended: false,
            write_failed: false,
        }
    }

    /// The same, of a recording that is played as a source: a status says how many datagrams were taken.
    pub fn as_source(self) -> Self {
        TypedOrders {
            played: "taken",
            ..self
        }
    }

    /// Whether an answer couldn't be written. The playback then ends.
    pub fn write_failed(&self) -> bool {
        self.write_failed
    }

    fn note_write(&mut self, written: io::Result<()>) {
        if written.is_err() || self.out.flush().is_err() {
            self.write_failed = true;
            self.has_ended = true;
        }
    }

    fn say_fault(&mut self, fault: LineFault) {
        let written = writeln!(self.out, "line {}: {fault}", self.line_number);
        self.note_write(written);
    }

    // The end of standard input ends the playback, unless there was none from the start.
    fn end_input(&mut self, now: u64) {
        if !self.input.was_read && now < NO_INPUT {
            self.is_absent = true;
        }
        if !self.is_absent {
            self.has_ended = true;
        }
    }

    // Reads ahead where no line is next.
    fn read_ahead(&mut self, now: u64) {
        if self.has_ended || self.ahead.is_some() {
            return;
        }
        match self.input.next() {
            InputState::Nothing => {}
            InputState::Line => self.read_line(),
            InputState::OutOfMemory => {
                self.say_fault(LineFault::OutOfMemory);
                self.has_ended = true;
            }
            InputState::End => self.end_input(now),
        }
    }

    fn read_line(&mut self) {
        self.line_number = self.line_number.saturating_add(1);
        self.ahead = Some(line_said(self.alloc, self.input.line.line()));
        self.input.line.clear();
    }

    // The order of a line; None where it is something else, which is then done.
    fn take_line(&mut self, said: Result<PlayLine, LineFault>) -> Option<PlayOrder> {
        match said {
            Ok(line) => self.take_said(line),
            Err(fault) => {
                self.say_fault(fault);
                None
            }
        }
    }

    fn take_said(&mut self, line: PlayLine) -> Option<PlayOrder> {
        match line {
            PlayLine::Pause => self.answered(Answer::Paused, PlayOrder::Pause),
            PlayLine::Go => self.answered(Answer::Going, PlayOrder::Go),
            PlayLine::Speed(speed) => self.answered(Answer::Speed, PlayOrder::SetSpeed(speed)),
            PlayLine::At(place) => {
                let moment = self.moment_of(place)?;
                self.answered(Answer::At, PlayOrder::Seek(moment))
            }
            PlayLine::Status => {
                self.answer = Some(Answer::Status);
                None
            }
            PlayLine::Help => {
                let written = self.out.write_all(HELP);
                self.note_write(written);
                None
            }
            PlayLine::Quit => {
                self.has_ended = true;
                None
            }
            PlayLine::Nothing => None,
        }
    }

    fn answered(&mut self, answer: Answer, order: PlayOrder) -> Option<PlayOrder> {
        self.answer = Some(answer);
        Some(order)
    }

    // Where a place lies, in milliseconds behind the first datagram; a time of day comes within a day of that one's.
    fn moment_of(&mut self, place: PlayMoment) -> Option<u64> {
        match (place, self.first) {
            (PlayMoment::Behind(millis), _) => Some(millis),
            (PlayMoment::Day(millis), Some(first)) => Some(behind(first, millis)),
            (PlayMoment::Day(_), None) => {
                let written = writeln!(
                    self.out,
                    "line {}: this recording has no time of day",
                    self.line_number
                );
                self.note_write(written);
                None
            }
        }
    }
}

impl<'a, R: MachineClock, O: Write> PlayOrders for TypedOrders<'a, R, O> {
    fn wait(&mut self, until: u64) {
        if self.has_ended || self.ahead.is_some() || self.input.has_more() {
            return;
        }
        let millis = self.clock.millis_until(until);
        let input = if self.input.is_open {
            STDIN
        } else {
            NO_DESCRIPTOR
        };
        wait_readable(input, NO_DESCRIPTOR, NO_DESCRIPTOR, millis);
    }

    fn rest(&mut self, until: u64) {
        let millis = self.clock.millis_until(until);
        wait_readable(NO_DESCRIPTOR, NO_DESCRIPTOR, NO_DESCRIPTOR, millis);
    }

    fn next(&mut self, now: u64) -> Option<PlayOrder> {
        for _ in 0..MAX_LINES {
            if self.has_ended || self.answer.is_some() {
                return None;
            }
            self.read_ahead(now);
            let said = self.ahead.take()?;
            if let Some(order) = self.take_line(said) {
                return Some(order);
            }
        }
        None
    }

    fn look(&mut self, core: &ReplayCore) {
        if let Some(answer) = self.answer.take() {
            let written = write_answer(&mut self.out, answer, core, self.played);
            self.note_write(written);
        }
    }

    fn has_ended(&mut self) -> bool {
        let now = self.clock.now();
        self.read_ahead(now);
        self.has_ended || matches!(self.ahead, Some(Ok(PlayLine::Quit)))
    }
}
