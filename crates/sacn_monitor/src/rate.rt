//! How many packets there were in a second, by whole seconds of the clock.

ghost use Rattle.std.specs.Prelude.{◌≡◌, ◌==◌, ◌+◌};
ghost use Rattle.sacn_monitor.specs.Rates.{second_of, first_rate, rate_after, last_second};

/// Milliseconds in a second.
const SECOND: u64 = 1000;

/// The packets of the latest second that had one, and of the second before it. Each count stops at 2^64 - 1.
#[derive(Clone, Copy, PartialEq, Eq)]
pub struct Rate {
    /// The latest second with a packet, in whole seconds of the clock.
    pub second: u64,
    /// The packets in it.
    pub count: u64,
    /// The packets in the second before it.
    pub before: u64,
}

impl Rate {
    /// One packet, at this moment.
    pub(crate) fn begin(moment: u64) -> Self
        ensures { result ≡ first_rate moment }
    {
        Rate {
            second: moment / SECOND,
            count: 1,
            before: 0,
        }
    }

    /// One packet more, at this moment.
    pub(crate) fn count(&mut self, moment: u64)
        ensures { self.new ≡ rate_after moment self.old }
    {
        let second = moment / SECOND;
        if second == self.second {
            self.count = self.count.saturating_add(1);
        } else {
            self.before = if self.is_next(second) { self.count } else { 0 };
            self.count = 1;
            self.second = second;
        }
    }

    /// The packets of the last whole second before a moment, in milliseconds.
    pub fn last_second(&self, moment: u64) -> u64
        ensures { result ≡ last_second moment self.now }
    {
        let second = moment / SECOND;
        if second == self.second {
            return self.before;
        }
        if self.is_next(second) { self.count } else { 0 }
    }

    // Whether it is the second after the latest with a packet.
    fn is_next(&self, second: u64) -> bool
        ensures { result ≡ (second == self.now.second + 1) }
    {
        self.second < second && second - self.second == 1
    }
}
