//! Who is told what happens.

ghost use Rattle.std.specs.Prelude.{⊤};
ghost use Rattle.sacn_network.specs.Telling.{Told};

use crate::occurrence::Occurrence;
use sacn_monitor::Monitor;

/// Is told what happens on a network, in order, each thing once. One that can fail, as one that writes, keeps its failure.
pub trait Observer {
    /// What being told one thing makes of it: what it was, what it was told, and what it is then.
    ghost Notes: { Self → Told → Self → Type 0 } = { λ _ _ _. ⊤ };

    /// Something happened. `monitor` has the accounts as they are then.
    fn observe(&mut self, occurrence: &Occurrence, monitor: &Monitor)
        ensures told { Notes self.old (record {
          occurrence = occurrence.now;
          book = monitor.now;
        }) self.new };
}

/// Nobody is told.
#[derive(Clone, Copy)]
pub struct Unobserved;

impl Observer for Unobserved {
    fn observe(&mut self, _: &Occurrence, _: &Monitor) {}
}
