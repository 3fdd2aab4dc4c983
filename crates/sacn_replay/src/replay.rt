//! A recording as it is played, record by record.

ghost use Rattle.std.specs.Prelude.{◌≡◌};
ghost use Rattle.sacn_replay.specs.Steps.{after_go, after_pause, after_seek, after_speed, after_step, at_reading, begun_at, begun_core, end_step, is_after, next_step, past, rewound, step_at, turn_due};

use crate::counts::ReplayCounts;
use crate::head::{Playhead, shortened};
use crate::plan::ReplayPlan;
use crate::speed::Speed;
use crate::step::Step;

/// A turn of a loop takes so many milliseconds of the clock or more, so that records of one moment alone don't go out without a pause.
pub const SHORTEST_TURN: u64 = 1000;

/// A recording as it is played: it says of record after record what is to be done with it.
///
/// A player asks `next` with the record that is next in its file. After `Send`, `Skip` and `Pass` the one behind it is next, after
/// `Again` the first one. After any other step the player waits, and asks again with the same record. It asks on at each reading of
/// the clock until it has to wait, also before an order: what is due then, and not yet asked for, is due at the order.
///
/// A record whose moment lies before one in front of it is taken as being at the greatest moment so far; so is one of moment 0,
/// which serves for a record with no moment.
#[derive(Clone, Copy, Debug, PartialEq, Eq)]
pub struct ReplayCore {
    head: Playhead,
    plan: ReplayPlan,
    /// Records before this moment are passed over in this turn.
    first: u64,
    /// The greatest moment of the records of this turn so far.
    greatest: u64,
    /// The reading of the clock at which this turn began.
    turn: u64,
    /// Whether the file has to be rewound.
    rewinds: bool,
    counts: ReplayCounts,
}

impl ReplayCore {
    /// A player that begins at this reading of the clock.
    pub fn new(now: u64, plan: &ReplayPlan) -> Self
        ensures { result ≡ begun_core now plan.now }
    {
        ReplayCore {
            head: Playhead::new(now, plan.from, plan.speed),
            plan: *plan,
            first: plan.from,
            greatest: 0,
            turn: now,
            rewinds: false,
            counts: ReplayCounts::none(),
        }
    }

    /// What is to be done at this reading of the clock with the next record of the file, which has this moment; `None` where the file
    /// has no further one.
    pub fn next(&mut self, now: u64, moment: Option<u64>) -> Step
        ensures step { result ≡ next_step moment (at_reading now self.old) }
        ensures core { self.new ≡ after_step result moment (at_reading now self.old) }
    {
        self.head.tick(now);
        let step = self.next_step(moment);
        self.take(step, moment);
        step
    }

    /// Pauses the playback.
    pub fn pause(&mut self, now: u64)
        ensures { self.new ≡ after_pause (at_reading now self.old) }
    {
        self.head.tick(now);
        self.head.pause();
    }

    /// Goes on after a pause.
    pub fn go(&mut self, now: u64)
        ensures { self.new ≡ after_go (at_reading now self.old) }
    {
        self.head.tick(now);
        self.head.go();
    }

    /// Goes on at another speed.
    pub fn set_speed(&mut self, now: u64, speed: Speed)
        ensures { self.new ≡ after_speed speed (at_reading now self.old) }
    {
        self.head.tick(now);
        self.head.set_speed(speed);
    }

    /// Plays another moment of the recording, or its plan's first one where that lies after it. The file is rewound by the next step.
    pub fn seek(&mut self, now: u64, moment: u64)
        ensures { self.new ≡ after_seek moment (at_reading now self.old) }
    {
        self.head.tick(now);
        self.begin_turn(self.plan.from.max(moment));
        self.rewinds = true;
    }

    /// Where the playback is.
    pub fn head(&self) -> &Playhead
        ensures { result.now ≡ self.now.head }
    {
        &self.head
    }

    /// What was done so far.
    pub fn counts(&self) -> ReplayCounts
        ensures { result ≡ self.now.counts }
    {
        self.counts
    }

    // What is done next.
    fn next_step(&self, moment: Option<u64>) -> Step
        ensures { result ≡ next_step moment self.now }
    {
        if self.rewinds {
            return Step::Again;
        }
        match moment {
            Some(moment) => self.step_at(self.greatest.max(moment)),
            None => self.end_step(),
        }
    }

    // What is done with a record at a place.
    fn step_at(&self, place: u64) -> Step
        ensures { result ≡ step_at place self.now }
    {
        if place < self.first {
            return Step::Pass;
        }
        if self.is_after(place) {
            return self.end_step();
        }
        self.head.judge(place)
    }

    // Whether a place lies after what is played.
    fn is_after(&self, place: u64) -> bool
        ensures { result ≡ is_after self.now.plan.until place }
    {
        match self.plan.until {
            Some(last) => last < place,
            None => false,
        }
    }

    // What is done at the end of a turn.
    fn end_step(&self) -> Step
        ensures { result ≡ end_step self.now }
    {
        if self.head.is_paused() {
            return Step::Rest;
        }
        if !self.plan.is_loop {
            return Step::End;
        }
        let due = self.turn_due();
        if u128::from(self.head.clock()) < due {
            return Step::Wait(shortened(due));
        }
        Step::Again
    }

    // When the next turn is due.
    fn turn_due(&self) -> u128
        ensures { result ≡ turn_due self.now }
    {
        let end = self.plan.until.unwrap_or(self.greatest);
        let shortest = u128::from(self.turn) + u128::from(SHORTEST_TURN);
        self.head.due(end).max(shortest)
    }

    // What a player knows after a step.
    fn take(&mut self, step: Step, moment: Option<u64>)
        ensures { self.new ≡ after_step step moment self.old }
    {
        match step {
            Step::Send => {
                self.pass(moment);
                self.counts.sent = self.counts.sent.saturating_add(1);
            }
            Step::Skip => {
                self.pass(moment);
                self.counts.stale = self.counts.stale.saturating_add(1);
            }
            Step::Pass => {
                self.pass(moment);
                self.counts.passed = self.counts.passed.saturating_add(1);
            }
            Step::Again => self.rewind(),
            Step::Wait(_) | Step::End | Step::Rest => {}
        }
    }

    // A record is passed.
    fn pass(&mut self, moment: Option<u64>)
        ensures { self.new ≡ past moment self.old }
    {
        if let Some(moment) = moment {
            self.greatest = self.greatest.max(moment);
        }
    }

    // The file is rewound: by a seek, which began its turn, or since the turn is at its end.
    fn rewind(&mut self)
        ensures { self.new ≡ rewound self.old }
    {
        if self.rewinds {
            self.rewinds = false;
        } else {
            self.begin_turn(self.plan.from);
        }
    }

    // A turn begins, from a moment of the recording on.
    fn begin_turn(&mut self, moment: u64)
        ensures { self.new ≡ begun_at moment self.old }
    {
        self.head.seek(moment);
        self.first = moment;
        self.greatest = 0;
        self.turn = self.head.clock();
    }
}
