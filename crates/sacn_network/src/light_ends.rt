//! What ends by itself: streams that fall silent, and lights that go out while their sources are heard on.

ghost use Rattle.std.specs.Prelude.{◌≡◌, ◌&&◌, is_some, nat_lt};
ghost use Rattle.sacn_network.specs.LightEnds.{after_ends, after_light, after_outs, comes_by, ends_lose, ends_told, first_end, light_end_of, light_told, outs_told};
ghost use Rattle.sacn_network.specs.Losses.{lost_place};
ghost use Rattle.sacn_network.specs.Telling.{AreTold};

use crate::ledger::Ledger;
use crate::observer::Observer;
use crate::stirring::{comes_by, out_universe};
use sacn_monitor::MAX_STREAMS;

/// At so many moments at most a light goes out, where no packet comes: each source has one.
pub(crate) const MOST_LIGHTS: usize = MAX_STREAMS;

impl Ledger {
    /// The first moment at which something ends by itself; `u64::MAX` where nothing does.
    pub(crate) fn first_end(&self) -> u64
        ensures { result ≡ first_end self.now.monitor }
    {
        self.monitor.next_loss().min(self.monitor.next_light_end())
    }

    /// Tells what ends by itself up to a moment that is no earlier than the clock, each thing at its own moment, and moves the
    /// clock there. Returns whether a source was lost.
    pub(crate) fn tell_ends<O: Observer>(&mut self, until: u64, observer: &mut O) -> bool
        ensures lost { result ≡ ends_lose MOST_LIGHTS until self.old }
        ensures told { AreTold O.Notes (ends_told MOST_LIGHTS until self.old)
            observer.old observer.new }
        ensures ledger { self.new ≡ after_ends MOST_LIGHTS until self.old }
    {
        let mut is_lost = false;
        let mut steps = MOST_LIGHTS;
        while self.has_light_end(steps, until) {
            is_lost = self.tell_light(observer) | is_lost;
            steps -= 1;
        }
        self.tell_silence(until, observer) | is_lost
    }

    // Whether steps are left, and a light goes out by a moment.
    fn has_light_end(&self, steps: usize, until: u64) -> bool
        ensures { result ≡ nat_lt 0 steps && comes_by until (light_end_of self.now.monitor) }
    {
        (steps > 0) && comes_by(until, self.monitor.next_light_end())
    }

    // Tells the losses up to the moment at which the next light goes out, and then the contests of the universes on which one did.
    // Returns whether a source was lost.
    #[tactic(auto, unfolding(crate::specs::LightEnds::light_told, crate::specs::LightEnds::after_light))]
    fn tell_light<O: Observer>(&mut self, observer: &mut O) -> bool
        ensures lost { result ≡ is_some (lost_place (light_end_of self.old.monitor) self.old) }
        ensures told { AreTold O.Notes (light_told (light_end_of self.old.monitor) self.old)
            observer.old observer.new }
        ensures ledger { self.new ≡ after_light (light_end_of self.old.monitor) self.old }
    {
        let before = self.monitor.moment();
        let at = self.monitor.next_light_end();
        let is_lost = self.tell_silence(at, observer);
        self.tell_outs(before, observer);
        is_lost
    }

    // Tells the contests of the universes on which a light went out since a moment.
    fn tell_outs<O: Observer>(&mut self, before: u64, observer: &mut O)
        ensures told { AreTold O.Notes (outs_told before self.old.monitor.streams self.old)
            observer.old observer.new }
        ensures ledger { self.new ≡ after_outs before self.old.monitor.streams self.old }
    {
        let count = self.monitor.streams().len();
        for place in 0..count {
            let universe = out_universe(&self.monitor, place, before);
            self.tell_contest_in(universe, observer);
        }
    }
}
