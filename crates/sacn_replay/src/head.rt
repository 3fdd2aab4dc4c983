//! Which moment of a recording is played at which moment of the clock.

ghost use Rattle.std.specs.Prelude.{◌≡◌, ◌≤◌, min};
ghost use Rattle.sacn_replay.specs.Heads.{at_speed, begun_head, due, due_at, going, judged, last_moment, paused, played, played_from, rounded_up, ticked};

use crate::speed::Speed;
use crate::step::Step;
use sacn_sources::NETWORK_DATA_LOSS;

/// Thousandths in a speed of 1.
const THOUSANDTHS: u128 = 1000;

/// Which moment of a recording is played at which moment of the machine's clock. Both are in milliseconds, and may be anything up to
/// 2^64 - 1.
///
/// A call that changes what is played counts from the latest reading of the clock. A record of a moment before the one that is played
/// then is due at that reading.
#[derive(Clone, Copy, Debug, PartialEq, Eq)]
pub struct Playhead {
    /// The greatest reading of the clock so far.
    clock: u64,
    /// The reading at which `from` is played.
    began: u64,
    from: u64,
    speed: Speed,
    is_paused: bool,
}

impl Playhead {
    /// Plays from a moment of the recording on, at this reading of the clock.
    pub fn new(now: u64, from: u64, speed: Speed) -> Self
        ensures { result ≡ begun_head now from speed }
    {
        Playhead {
            clock: now,
            began: now,
            from,
            speed,
            is_paused: false,
        }
    }

    /// Reads the clock. One that goes back counts as the greatest reading so far.
    pub fn tick(&mut self, now: u64)
        ensures { self.new ≡ ticked now self.old }
    {
        self.clock = self.clock.max(now);
    }

    /// The greatest reading of the clock so far.
    pub fn clock(&self) -> u64
        ensures { result ≡ self.now.clock }
    {
        self.clock
    }

    /// The moment of the recording that is played now; at most 2^64 - 1.
    pub fn moment(&self) -> u64
        ensures { result ≡ played self.now }
    {
        let from = self.from;
        if self.is_paused {
            return from;
        }
        let elapsed = u128::from(self.clock.saturating_sub(self.began));
        let played = elapsed * u128::from(self.speed.thousandths()) / THOUSANDTHS;
        shortened(u128::from(from) + played)
    }

    /// How fast it plays.
    pub fn speed(&self) -> Speed
        ensures { result ≡ self.now.speed }
    {
        self.speed
    }

    /// Whether it is paused.
    pub fn is_paused(&self) -> bool
        ensures { result ≡ self.now.is_paused }
    {
        self.is_paused
    }

    /// The first reading of the clock at which a moment of the recording isn't early. `None` while it is paused, and where the clock
    /// ends before.
    pub fn due_at(&self, moment: u64) -> Option<u64>
        ensures { result ≡ due_at moment self.now }
    {
        let due = self.due(moment);
        if self.is_paused | (due > u128::from(u64::MAX)) {
            return None;
        }
        Some(due as u64)
    }

    /// What is to be done now with a record of this moment: it is waited for until it is due, sent up to 2500 ms later
    /// (E1.31, 6.7.1), and skipped after that.
    pub fn judge(&self, moment: u64) -> Step
        ensures { result ≡ judged moment self.now }
    {
        if self.is_paused {
            return Step::Rest;
        }
        let due = self.due(moment);
        let now = u128::from(self.clock);
        if now < due {
            Step::Wait(shortened(due))
        } else if now - due <= u128::from(NETWORK_DATA_LOSS) {
            Step::Send
        } else {
            Step::Skip
        }
    }

    /// Stays at the moment that is played now.
    pub fn pause(&mut self)
        ensures { self.new ≡ paused self.old }
    {
        self.seek(self.moment());
        self.is_paused = true;
    }

    /// Goes on from the moment that is played now.
    pub fn go(&mut self)
        ensures { self.new ≡ going self.old }
    {
        self.seek(self.moment());
        self.is_paused = false;
    }

    /// Goes on at another speed from the moment that is played now; one that is paused stays so.
    pub fn set_speed(&mut self, speed: Speed)
        ensures { self.new ≡ at_speed speed self.old }
    {
        self.seek(self.moment());
        self.speed = speed;
    }

    /// Plays another moment of the recording from now on; one that is paused stays there.
    pub fn seek(&mut self, moment: u64)
        ensures { self.new ≡ played_from moment self.old }
    {
        self.began = self.clock;
        self.from = moment;
    }

    // When a moment of the recording is due, if the clock gets there.
    pub(crate) fn due(&self, moment: u64) -> u128
        ensures { result ≡ due moment self.now }
    {
        let began = self.began;
        let ahead = u128::from(moment.saturating_sub(self.from)) * THOUSANDTHS;
        u128::from(began) + rounded_up(ahead, self.speed)
    }
}

// A quotient by a speed, rounded up.
#[tactic(auto, unfolding(crate::specs::Heads::rounded_up))]
fn rounded_up(ahead: u128, speed: Speed) -> u128
    ensures value { result ≡ rounded_up ahead speed }
    ensures bound { result ≤ ahead }
{
    ahead.div_ceil(u128::from(speed.thousandths()))
}

/// A moment, at most 2^64 - 1.
pub(crate) fn shortened(moment: u128) -> u64
    ensures { result ≡ min moment last_moment }
{
    if moment > u128::from(u64::MAX) {
        return u64::MAX;
    }
    moment as u64
}
