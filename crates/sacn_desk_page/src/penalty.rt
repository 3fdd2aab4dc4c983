//! How long the answer to a refused order waits.

use crate::limits::{DELAY_MEMORY, FIRST_DELAY, LAST_DELAY};

/// How long the next answer waits that refuses an order. Moments and times are milliseconds.
#[derive(Clone, Copy)]
pub struct Penalty {
    delay: u64,
    /// The moment of the latest refusal.
    latest: u64,
}

impl Penalty {
    /// No order was refused yet.
    pub fn new() -> Penalty {
        Penalty {
            delay: FIRST_DELAY,
            latest: 0,
        }
    }

    /// An order is refused at a moment. Returns how long the answer waits.
    pub fn next(&mut self, now: u64) -> u64 {
        if now.saturating_sub(self.latest) >= DELAY_MEMORY {
            self.delay = FIRST_DELAY;
        }
        let delay = self.delay;
        self.delay = delay.saturating_mul(2).min(LAST_DELAY);
        self.latest = now;
        delay
    }
}
