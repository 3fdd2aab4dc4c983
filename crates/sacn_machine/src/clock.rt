//! The machine's clock.
ghost use Rattle.std.specs.Prelude.{◌≤ℤ◌, pos};

use sacn_edge::Clock;
use std::io::ErrorKind;
use std::rt::Clock as MachineClock;
use std::time::Instant;

/// A clock that reads the milliseconds since it was started. A reading that fails returns the one before. It tells
/// nothing.
#[derive(Drop)]
pub struct RigClock<'a, R> {
    rt: &'a R,
    start: Instant,
    last: u64,
}

impl<'a, R: MachineClock> RigClock<'a, R> {
    /// A clock that starts now.
    pub fn start(rt: &'a R) -> Result<RigClock<'a, R>, ErrorKind> {
        match Instant::now(rt) {
            Ok(start) => Ok(RigClock { rt, start, last: 0 }),
            Err(error) => Err(error.kind()),
        }
    }

    /// Another clock that was started with this one.
    pub fn twin(&self) -> RigClock<'a, R> {
        RigClock {
            rt: self.rt,
            start: self.start,
            last: self.last,
        }
    }

    /// The milliseconds to a moment, at most those of the longest wait of one call.
    pub fn millis_until(&mut self, until: u64) -> i32
        ensures { pos 0 ≤ℤ result }
    {
        until.saturating_sub(self.now()).min(MAX_MILLIS) as i32
    }
}

/// The longest wait of one call of the machine.
const MAX_MILLIS: u64 = 60_000;

impl<'a, R: MachineClock> Clock for RigClock<'a, R> {
    fn now(&mut self) -> u64 {
        let Ok(instant) = Instant::now(self.rt) else {
            return self.last;
        };
        if let Ok(moment) = u64::try_from(instant.duration_since(self.start).as_millis()) {
            self.last = moment;
        }
        self.last
    }
}
