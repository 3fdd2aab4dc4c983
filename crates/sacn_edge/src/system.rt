//! The machine's clock.

use crate::clock::Clock;
use std::rt::Clock as MachineClock;
use std::time::Instant;

/// A clock that reads the milliseconds since its first reading that succeeded. A reading that fails returns
/// the one before, and 0 at first. It tells nothing.
#[derive(Drop)]
pub struct SystemClock<'a, R> {
    rt: &'a R,
    start: Option<Instant>,
    last: u64,
}

impl<'a, R: MachineClock> SystemClock<'a, R> {
    /// A clock that was not read yet.
    pub fn new(rt: &'a R) -> SystemClock<'a, R> {
        SystemClock {
            rt,
            start: None,
            last: 0,
        }
    }
}

impl<'a, R: MachineClock> Clock for SystemClock<'a, R> {
    fn now(&mut self) -> u64 {
        let Ok(instant) = Instant::now(self.rt) else {
            return self.last;
        };
        match self.start {
            None => self.start = Some(instant),
            Some(start) => {
                if let Ok(moment) = u64::try_from(instant.duration_since(start).as_millis()) {
                    self.last = moment;
                }
            }
        }
        self.last
    }
}
