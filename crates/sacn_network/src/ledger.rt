//! The accounts of a network, and what is told of each step.

ghost use Rattle.std.specs.Prelude.{◌≡◌, [], IfOk, is_some};
ghost use Rattle.sacn_monitor.specs.Books.{next_loss};
ghost use Rattle.sacn_network.specs.Contests.{contest_told, with_contest, contest_in, with_contest_in};
ghost use Rattle.sacn_network.specs.Losses.{after_end, after_loss, end_told, lost_place, loss_told, silence_told, silenced};
ghost use Rattle.sacn_network.specs.Networks.{new_network};
ghost use Rattle.sacn_network.specs.Packets.{after_noted, news_told, noted_told, now_told, stirred};
ghost use Rattle.sacn_network.specs.Telling.{AreTold};

use crate::observer::Observer;
use crate::occurrence::{Contest, Occurrence, What};
use crate::stirring::{stirred_universe, tells_nothing, universe_at};
use crate::universe_set::UniverseSet;
use sacn_monitor::{Endpoint, MAX_STREAMS, Monitor, News, Noted};
use std::alloc::{AllocError, Global};

/// So many steps tell whatever ends by silence by a moment: a loss of each stream, and then none.
pub(crate) const MOST_STEPS: usize = MAX_STREAMS + 1;

/// The accounts, which universes are contested, and which were heard.
#[derive(Drop)]
pub(crate) struct Ledger {
    pub(crate) monitor: Monitor,
    pub(crate) contested: UniverseSet,
    pub(crate) heard: UniverseSet,
}

impl Clone for Ledger {
    ghost is_clone = { λ ledger copy. copy ≡ ledger };

    fn clone(&self) -> Result<Ledger, AllocError> {
        Ok(Ledger {
            monitor: self.monitor.clone()?,
            contested: self.contested.clone()?,
            heard: self.heard.clone()?,
        })
    }
}

impl Ledger {
    /// That of a network of which nothing was heard.
    ///
    /// Errors: a request for memory was refused.
    pub(crate) fn new(alloc: Global) -> Result<Self, AllocError>
        ensures { IfOk result (λ n. n ≡ new_network) }
    {
        Ok(Ledger {
            monitor: Monitor::new(alloc)?,
            contested: UniverseSet::new(alloc)?,
            heard: UniverseSet::new(alloc)?,
        })
    }

    /// Tells what ends by silence up to a moment that is no earlier than the clock, and moves the clock there. Returns whether
    /// a source was lost.
    pub(crate) fn tell_silence<O: Observer>(&mut self, until: u64, observer: &mut O) -> bool
        ensures lost { result ≡ is_some (lost_place until self.old) }
        ensures told { AreTold O.Notes (silence_told MOST_STEPS until self.old)
            observer.old observer.new }
        ensures ledger { self.new ≡ silenced MOST_STEPS until self.old }
    {
        let mut steps = MOST_STEPS;
        while steps > 0 {
            if !self.tell_end(until, observer) {
                return steps < MOST_STEPS;
            }
            steps -= 1;
        }
        true
    }

    /// Tells what a datagram tells, by what was noted of it.
    #[tactic(auto, unfolding(crate::specs::Packets::noted_told, crate::specs::Packets::after_noted))]
    pub(crate) fn tell_noted<O: Observer>(
        &mut self,
        sender: Endpoint,
        noted: Noted,
        observer: &mut O,
    )
        ensures told { AreTold O.Notes (noted_told sender noted self.old)
            observer.old observer.new }
        ensures ledger { self.new ≡ after_noted noted self.old }
    {
        match noted {
            Noted::Refused(fault) => self.tell(What::Refused(sender, fault), observer),
            Noted::Page | Noted::Sync => (),
            Noted::Untracked => self.tell(What::Untracked(sender), observer),
            Noted::Heard(place, news) => {
                self.tell_news(place, &news, observer);
                let universe = stirred_universe(self.monitor.streams(), place, &news);
                self.tell_stirred(universe, observer);
            }
        }
    }

    // Tells the next loss, if it comes by a moment. Returns whether it does.
    #[tactic(auto, unfolding(crate::specs::Losses::lost_place, crate::specs::Losses::end_told, crate::specs::Losses::after_end))]
    fn tell_end<O: Observer>(&mut self, until: u64, observer: &mut O) -> bool
        ensures answer { result ≡ is_some (lost_place until self.old) }
        ensures told { AreTold O.Notes (end_told until self.old) observer.old observer.new }
        ensures ledger { self.new ≡ after_end until self.old }
    {
        let at = self.monitor.next_loss().min(until);
        let lost = self.monitor.tick(at);
        self.tell_loss(lost, observer);
        lost.is_some()
    }

    // Tells a loss, and then the contest of its universe.
    fn tell_loss<O: Observer>(&mut self, lost: Option<usize>, observer: &mut O)
        ensures told { AreTold O.Notes (loss_told lost self.old) observer.old observer.new }
        ensures ledger { self.new ≡ after_loss lost self.old }
    {
        if let Some(place) = lost {
            self.tell(What::Lost(place), observer);
            let universe = universe_at(self.monitor.streams(), place);
            self.tell_contest_in(universe, observer);
        }
    }

    // Tells that something happened now.
    fn tell<O: Observer>(&self, what: What, observer: &mut O)
        ensures { AreTold O.Notes (now_told what self.now) observer.old observer.new }
    {
        let at = self.monitor.moment();
        observer.observe(&Occurrence { at, what }, &self.monitor);
    }

    // Tells the news of a packet.
    #[tactic(auto, unfolding(crate::specs::Packets::news_told))]
    fn tell_news<O: Observer>(&self, place: usize, news: &News, observer: &mut O)
        ensures { AreTold O.Notes (news_told place news.now self.now) observer.old observer.new }
    {
        if !tells_nothing(news) {
            self.tell(What::Heard(place, *news), observer);
        }
    }

    // Tells the contest of a universe that a packet stirs, where one does. From then on the universe was heard.
    #[tactic(auto, unfolding(crate::specs::Packets::stirred, crate::specs::Contests::contest_told))]
    fn tell_stirred<O: Observer>(&mut self, universe: Option<u16>, observer: &mut O)
        ensures told { AreTold O.Notes (contest_in universe self.old) observer.old observer.new }
        ensures ledger { self.new ≡ stirred universe self.old }
    {
        if let Some(universe) = universe {
            self.heard.mark(universe, true);
            self.tell_contest(universe, observer);
        }
    }

    /// Tells the contest of a universe, where there is one.
    pub(crate) fn tell_contest_in<O: Observer>(&mut self, universe: Option<u16>, observer: &mut O)
        ensures told { AreTold O.Notes (contest_in universe self.old) observer.old observer.new }
        ensures ledger { self.new ≡ with_contest_in universe self.old }
    {
        if let Some(universe) = universe {
            self.tell_contest(universe, observer);
        }
    }

    // Tells the contest of a universe, where it has changed.
    #[tactic(auto, unfolding(crate::specs::Contests::contest_told, crate::specs::Contests::with_contest))]
    fn tell_contest<O: Observer>(&mut self, universe: u16, observer: &mut O)
        ensures told { AreTold O.Notes (contest_told universe self.old) observer.old observer.new }
        ensures ledger { self.new ≡ with_contest universe self.old }
    {
        let sources = self.monitor.rivals(universe);
        if !self.contested.mark(universe, sources >= 2) {
            return;
        }
        let priority = self.monitor.top_priority(universe);
        let contest = Contest {
            universe,
            sources,
            priority,
        };
        self.tell(What::Contest(contest), observer);
    }
}
