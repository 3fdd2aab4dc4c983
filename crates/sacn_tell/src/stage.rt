//! The frames of a node.

ghost use Rattle.std.specs.Prelude.{◌≡◌, ◌<◌, ℕ};
ghost use Rattle.sacn_node.specs.Cores.{core_lost};
ghost use Rattle.sacn_node.specs.Showings.{IsShowingOf, IsShowingOf-prop};

use crate::cause::Cause;
use crate::fault::TellFault;
use crate::frames::tell_ports;
use crate::teller::Teller;
use sacn_node::{NodeCore, NodeSetup, NodeTaken, Showing};
use sacn_packets::Reading;
use sacn_sources::NETWORK_DATA_LOSS;
use std::alloc::Global;
use std::io::Write;

/// A node that is given datagrams, and the frames of the latest look at it.
#[derive(Drop)]
pub struct Stage {
    core: NodeCore,
    showing: Showing,
    /// No source that the node holds is lost before this moment.
    wake: u64,
    ghost current: { IsShowingOf showing core } by { IsShowingOf-prop showing core },
    ghost awake: { (m : ℕ) → m < wake → core_lost m core.core ≡ 0 },
}

impl Stage {
    ghost use Rattle.std.specs.Prelude.{◌≤◌, ◌-◌, ◌^◌, IfNone, IfOk, IfSome, OnOk, map, true};
    ghost use Rattle.sacn_node.specs.Calls.{step, Tick, with_reading};
    ghost use Rattle.sacn_node.specs.Cores.{new_node};
    ghost use Rattle.sacn_node.specs.Setup.{port_numbers};
    ghost use Rattle.sacn_node.specs.Showings.{port_after, ports_of, unseen};
    ghost use Rattle.sacn_tell.specs.Causes.{reason_of};
    ghost use Rattle.sacn_tell.specs.Shows.{frames_told, start_told, started_node};
    ghost use Rattle.sacn_tell.specs.Staging.{may_change_frames};
    ghost use Rattle.sacn_tell.specs.Tellings.{Tells};

    /// A node of a setup, of which no frame was shown.
    pub fn new(alloc: Global, setup: &NodeSetup) -> Result<Self, TellFault>
        ensures core { IfOk result (λ s. s.core ≡ new_node setup.now.ports) }
        ensures ports { IfOk result
            (λ s. ports_of s.showing ≡ map unseen (port_numbers setup.now.ports)) }
    {
        let core = NodeCore::new(alloc, setup)?;
        let showing = Showing::new(&core);
        Ok(Stage {
            core,
            showing,
            wake: 0,
        })
    }

    /// A node of a setup, whose first frames are told.
    pub fn start<O: Write>(
        alloc: Global,
        setup: &NodeSetup,
        teller: &mut Teller<'_, O>,
    ) -> Result<Self, TellFault>
        ensures core { IfOk result (λ s. s.core ≡ started_node setup.now.ports) }
        ensures ports { IfOk result (λ s. ports_of s.showing ≡ map
            (port_after (started_node setup.now.ports)) (map unseen (port_numbers setup.now.ports))) }
        ensures told { OnOk result
            (Tells O.contents teller.old teller.new (start_told teller.old.form setup.now.ports)) }
    {
        let mut stage = Stage::new(alloc, setup)?;
        stage.tick(0);
        stage.show(0, &Cause::Start, teller)?;
        Ok(stage)
    }

    /// The node.
    pub fn node(&self) -> &NodeCore
        ensures { result.now ≡ self.now.core }
    {
        &self.core
    }

    /// Gives the node what a datagram was read as, and returns whether a frame may have changed.
    pub fn take(&mut self, now: u64, reading: &Reading<'_>) -> bool
        ensures answer { result ≡ may_change_frames now reading.now self.old.core.core }
        ensures core { self.new.core ≡ with_reading now reading.now self.old.core }
        ensures ports { ports_of self.new.showing ≡ ports_of self.old.showing }
    {
        let change = self.showing.take(&mut self.core, now, reading);
        self.wake = self.wake.min(now.saturating_add(NETWORK_DATA_LOSS));
        match change.taken {
            NodeTaken::FromTable(_) => true,
            _ => change.lost > 0,
        }
    }

    /// Moves the node's clock, which drops what is lost by then.
    pub fn tick(&mut self, now: u64)
        ensures core { self.new.core ≡ step (Tick now) self.old.core }
        ensures ports { ports_of self.new.showing ≡ ports_of self.old.showing }
    {
        self.showing.tick(&mut self.core, now);
    }

    /// Whether it is known without a look at the node that it loses no source by a moment.
    pub fn sleeps_past(&self, until: u64) -> bool
        ensures { result ≡ true → (m : ℕ) → m ≤ until → core_lost m self.now.core.core ≡ 0 }
    {
        until < self.wake
    }

    /// The moment at which the node loses a source next, where that comes by this one; the last moment of all never comes.
    pub fn loss_by(&mut self, until: u64) -> Option<u64>
        ensures past { IfSome result (λ at. at ≤ until) }
        ensures loses { IfSome result (λ at. 1 ≤ core_lost at self.old.core.core) }
        ensures first { IfSome result
            (λ at. (m : ℕ) → m < at → core_lost m self.old.core.core ≡ 0) }
        ensures none { IfNone result
            ((m : ℕ) → m ≤ until → m < 2 ^ 64 - 1 → core_lost m self.old.core.core ≡ 0) }
        ensures core { self.new.core ≡ self.old.core }
        ensures showing { self.new.showing ≡ self.old.showing }
    {
        if until < self.wake {
            return None;
        }
        let at = self.wakes();
        self.wake = at;
        if (until < at) | (at == u64::MAX) {
            return None;
        }
        Some(at)
    }

    // The first moment at which a source that is held is lost; `u64::MAX` where there is none.
    fn wakes(&self) -> u64
        ensures asleep { (m : ℕ) → m < result → core_lost m self.now.core.core ≡ 0 }
        ensures awake { result < 2 ^ 64 - 1 → 1 ≤ core_lost result self.now.core.core }
    {
        match self.core.wakes() {
            Some(moment) => moment,
            None => u64::MAX,
        }
    }

    /// Looks at the node's ports, and tells each frame that is another one than at the look before, with the cause.
    pub fn show<O: Write>(
        &mut self,
        now: u64,
        cause: &Cause<'_>,
        teller: &mut Teller<'_, O>,
    ) -> Result<(), TellFault>
        ensures core { self.new.core ≡ self.old.core }
        ensures ports { OnOk result
            (ports_of self.new.showing ≡ map (port_after self.old.core) (ports_of self.old.showing)) }
        ensures told { OnOk result (Tells O.contents teller.old teller.new (frames_told
            teller.old.form now (reason_of cause.now) self.old.core (ports_of self.old.showing))) }
    {
        self.showing.look(&mut self.core);
        let moment = self.core.moment();
        tell_ports(now, cause, moment, self.showing.ports(), teller)
    }
}
