//! The one account of a network.

ghost use Rattle.std.specs.Prelude.{◌≡◌, IfOk, is_some, max};
ghost use Rattle.sacn_monitor.specs.Books.{silent_place};
ghost use Rattle.sacn_network.specs.LightEnds.{first_end};
ghost use Rattle.sacn_network.specs.Networks.{JoinsLater, LeavesNone, handed, new_network, note_of, take_told, taken, tick_told, ticked};
ghost use Rattle.sacn_network.specs.Sets.{has_bit, universes_in};
ghost use Rattle.sacn_network.specs.Telling.{AreTold};

use crate::ledger::Ledger;
use crate::observer::Observer;
use crate::stirring::soonest_loss;
use sacn_monitor::{Endpoint, Monitor, Noted};
use sacn_packets::Reading;
use std::alloc::{AllocError, Global};
use std::marker::Model;

/// The one account of what a network carries: each source on each universe, of up to `sacn_monitor::MAX_STREAMS` pairs, the
/// universes that are contested, and those that were heard.
///
/// Moments are in milliseconds. Each call uses the greatest moment that was handed in so far. No call but `new`, `clone` and `universes_heard` takes memory.
#[derive(Drop)]
pub struct Network {
    ledger: Ledger,
    /// Nothing ends by itself before this moment.
    wake: u64,
}

impl Model for Network {
    ghost use Rattle.std.specs.Prelude.{◌≤◌, length};
    ghost use Rattle.sacn_monitor.specs.declared.limits.TheConstants.{MAX_STREAMS};
    ghost use Rattle.sacn_network.specs.declared.ledger.Ledger.{Ledger};
    ghost use Rattle.sacn_network.specs.LightEnds.{first_end};

    ghost Value = { Ledger };

    ghost view = { λ n. n.ledger };

    ghost invariant = { λ n. (n.wake ≤ first_end n.ledger.monitor)
        × (length n.ledger.monitor.streams ≤ MAX_STREAMS) };
}

/// The same account again, with room of its own.
///
/// Errors: a request for memory was refused.
impl Clone for Network {
    ghost is_clone = { λ network copy. copy ≡ network };

    fn clone(&self) -> Result<Network, AllocError> {
        Ok(Network {
            ledger: self.ledger.clone()?,
            wake: self.wake,
        })
    }
}

impl Network {
    /// A network of which nothing was heard, with all room taken.
    ///
    /// Errors: a request for memory was refused.
    pub fn new(alloc: Global) -> Result<Self, AllocError>
        ensures { IfOk result (λ n. n ≡ new_network) }
    {
        Ok(Network {
            ledger: Ledger::new(alloc)?,
            wake: 0,
        })
    }

    /// Takes what a datagram was read as, after what had ended by silence, each thing at its own moment: the losses, each
    /// with the contest of its universe behind it where that has changed, and behind a moment's losses the contests of universes
    /// on which a light went out; then what the datagram tells, then the contest of its universe. Returns what was noted of it. A page and a sync packet tell nothing here.
    pub fn take<O: Observer>(
        &mut self,
        now: u64,
        sender: Endpoint,
        reading: &Reading<'_>,
        observer: &mut O,
    ) -> Noted
        ensures noted { result ≡ note_of now sender reading.now (ticked now self.old) }
        ensures clock { self.new.monitor.moment ≡ max self.old.monitor.moment now }
        ensures silent { LeavesNone (max self.old.monitor.moment now) (ticked now self.old) }
        ensures told { AreTold O.Notes (take_told now sender reading.now self.old)
            observer.old observer.new }
        ensures network { self.new ≡ taken now sender reading.now self.old }
    {
        self.tick(now, observer);
        let noted = self.hand(now, sender, reading);
        self.ledger.tell_noted(sender, noted, observer);
        noted
    }

    /// Moves the clock. What ends by silence up to then is told, each thing at its own moment. Returns whether a source was lost.
    /// However often the clock is moved on the way to a moment, the same is told by then, and the same is left.
    pub fn tick<O: Observer>(&mut self, now: u64, observer: &mut O) -> bool
        ensures lost { result
            ≡ is_some (silent_place (max self.old.monitor.moment now) self.old.monitor.streams) }
        ensures clock { self.new.monitor.moment ≡ max self.old.monitor.moment now }
        ensures silent { LeavesNone (max self.old.monitor.moment now) self.new }
        ensures told { AreTold O.Notes (tick_told now self.old) observer.old observer.new }
        ensures network { self.new ≡ ticked now self.old }
        ensures later { JoinsLater now self.old self.new }
    {
        let until = self.ledger.monitor.moment().max(now);
        if until < self.wake {
            self.ledger.monitor.tick(until);
            return false;
        }
        let is_lost = self.ledger.tell_ends(until, observer);
        self.wake = self.ledger.first_end();
        is_lost
    }

    /// The first moment at which something ends by itself, where no datagram comes; `u64::MAX` where nothing does.
    pub fn next_end(&self) -> u64
        ensures { result ≡ first_end self.now.monitor }
    {
        self.ledger.first_end()
    }

    /// The accounts of the sources on universes.
    pub fn monitor(&self) -> &Monitor
        ensures { result.now ≡ self.now.monitor }
    {
        &self.ledger.monitor
    }

    /// Whether two sources or more light a universe at its top priority, as it was told last.
    pub fn is_contested(&self, universe: u16) -> bool
        ensures { result ≡ has_bit self.now.contested universe }
    {
        self.ledger.contested.has(universe)
    }

    /// Whether a source was heard on a universe. One for which there was no room is none.
    pub fn was_heard(&self, universe: u16) -> bool
        ensures { result ≡ has_bit self.now.heard universe }
    {
        self.ledger.heard.has(universe)
    }

    /// The universes on which a source was heard, ascending. One for which there was no room is none.
    ///
    /// Errors: a growth was refused.
    pub fn universes_heard(&self, alloc: Global) -> Result<Vec<u16>, AllocError>
        ensures { IfOk result (λ universes. universes.items ≡ universes_in self.now.heard) }
    {
        self.ledger.heard.universes(alloc)
    }

    // Hands a datagram to the monitor, and sees to it that the loss of its source isn't missed.
    fn hand(&mut self, now: u64, sender: Endpoint, reading: &Reading<'_>) -> Noted
        ensures noted { result ≡ note_of now sender reading.now self.old }
        ensures network { self.new ≡ handed now sender reading.now self.old }
    {
        let noted = self.ledger.monitor.take_reading(now, sender, reading);
        let soonest = soonest_loss(self.ledger.monitor.streams(), &noted);
        self.wake = self.wake.min(soonest);
        noted
    }
}
