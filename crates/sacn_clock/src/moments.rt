//! What knows the moments of lines.
use crate::line_moment::{millis_of_object, millis_of_text};
use std::cell::Cell;
use std::rt::Clock;
use std::time::SystemTime;

/// What knows the moments of lines.
pub trait Moments {
    /// The moment of a line, of which this is the front at least, in milliseconds since 1970 (UTC); None where it isn't known.
    fn moment_of(&mut self, line: &[u8]) -> Option<u64>;
}

/// The machine's clock, for what is told as it happens: the moment of a line is that at which it is written.
#[derive(Drop)]
pub struct WallClock<'a, R> {
    rt: &'a R,
}

impl<'a, R: Clock> WallClock<'a, R> {
    pub fn new(rt: &'a R) -> Self {
        WallClock { rt }
    }
}

impl<'a, R: Clock> Moments for WallClock<'a, R> {
    fn moment_of(&mut self, _line: &[u8]) -> Option<u64> {
        let now = SystemTime::now(self.rt).ok()?;
        let passed = now.duration_since(SystemTime::UNIX_EPOCH).ok()?;
        u64::try_from(passed.as_millis()).ok()
    }
}

/// How far what is told as it happens has come, in milliseconds since its start: set by who follows it, read by who writes.
#[derive(Drop)]
pub struct Present {
    now: Cell<u64>,
}

impl Present {
    /// It is at its start.
    pub fn new() -> Self {
        Present { now: Cell::new(0) }
    }

    /// It has come to this moment.
    pub fn set(&self, now: u64) {
        self.now.set(now);
    }

    // How long ago a moment was, in milliseconds; 0 where it is yet to come.
    fn since(&self, moment: u64) -> u64 {
        self.now.get().saturating_sub(moment)
    }
}

/// A clock for what is told some time after it happened: the moment of a line is as long before the clock's as the moment that the
/// line says is before the present. That of a line that says none is the clock's.
#[derive(Drop)]
pub struct Afterwards<'a, M> {
    clock: M,
    present: &'a Present,
}

impl<'a, M: Moments> Afterwards<'a, M> {
    pub fn new(clock: M, present: &'a Present) -> Self {
        Afterwards { clock, present }
    }
}

impl<'a, M: Moments> Moments for Afterwards<'a, M> {
    fn moment_of(&mut self, line: &[u8]) -> Option<u64> {
        let written = self.clock.moment_of(line)?;
        match millis_of(line) {
            Some(said) => written.checked_sub(self.present.since(said)),
            None => Some(written),
        }
    }
}

/// The clock of a recording, whose lines say their moments from its first frame: the moment of a line that says none is that of the line
/// before.
#[derive(Drop)]
pub struct Recorded {
    /// The moment of the first frame, in milliseconds since 1970 (UTC).
    first: Option<u64>,
    /// The latest moment that a line said, in milliseconds from the first frame.
    latest: u64,
}

impl Recorded {
    /// Where no frame was found nothing is known of moments.
    pub fn new(first: Option<u64>) -> Self {
        Recorded { first, latest: 0 }
    }
}

impl Moments for Recorded {
    fn moment_of(&mut self, line: &[u8]) -> Option<u64> {
        self.latest = millis_of(line).unwrap_or(self.latest);
        self.first?.checked_add(self.latest)
    }
}

// The moment that a line says, in milliseconds since the start.
fn millis_of(line: &[u8]) -> Option<u64> {
    match line {
        [b'{', ..] => millis_of_object(line),
        _ => millis_of_text(line),
    }
}
