//! How fast packets come, by whole seconds of the clock.

ghost use Rattle.std.specs.Prelude.{◌≡◌, ◌==◌, ◌+◌};
ghost use Rattle.sacn_audit.specs.Audits.{first_pace, pace_after, is_too_fast};

use crate::limits::{MOST_IN_A_SECOND, SECOND};

/// Of the packets in a second no more are told apart than the first one that is too many, and one further.
const TOLD_APART: u8 = MOST_IN_A_SECOND + 2;

/// How many packets the latest second has.
#[derive(Clone, Copy, PartialEq, Eq)]
pub struct Pace {
    /// The second of the latest packet, in whole seconds of the clock.
    pub second: u64,
    /// The packets in it: 46 for 46 or more.
    pub count: u8,
    /// Whether the second before it had more than 44.
    pub follows_many: bool,
}

impl Pace {
    /// One packet, at this moment.
    pub(crate) fn begin(moment: u64) -> Self
        ensures { result ≡ first_pace moment }
    {
        Pace {
            second: moment / SECOND,
            count: 1,
            follows_many: false,
        }
    }

    /// One packet more, at this moment.
    pub(crate) fn count(&mut self, moment: u64)
        ensures { self.new ≡ pace_after moment self.old }
    {
        let second = moment / SECOND;
        if second == self.second {
            self.count = self.count.saturating_add(1).min(TOLD_APART);
        } else {
            self.follows_many = self.is_next(second) & (self.count > MOST_IN_A_SECOND);
            self.count = 1;
            self.second = second;
        }
    }

    /// Whether the latest packet is the first one too many of its second, and the second before it had too many, too.
    pub(crate) fn is_too_fast(&self) -> bool
        ensures { result ≡ is_too_fast self.now }
    {
        self.follows_many & (self.count == MOST_IN_A_SECOND + 1)
    }

    // Whether it is the second after the latest.
    fn is_next(&self, second: u64) -> bool
        ensures { result ≡ (second == self.now.second + 1) }
    {
        self.second < second && second - self.second == 1
    }
}
