//! A clock that stands still while this program doesn't run.

ghost use Rattle.std.specs.Prelude.{◌≡◌, ◌≤◌, ◌+◌, ◌-◌, ◌∷◌, []};
ghost use Rattle.sacn_edge.specs.Additions.{Extends};
ghost use Rattle.sacn_machine.specs.Hearings.{hearing_of, FitsBuffer};
ghost use Rattle.sacn_watch.specs.Stops.{after_reading, reading};

use crate::listener::Listener;
use sacn_edge::BUFFER_OCTETS;
use sacn_machine::limits::LONGEST_WAIT;
use sacn_machine::{Receipt, Receiver};
use std::marker::Model;

/// The most milliseconds between two readings of the clock while a watch runs; no wait is longer than half of that. Where there are
/// more, the program was stopped.
pub const MOST_BETWEEN: u64 = 1000;

/// A clock that stands still while this program doesn't run: by a signal, a debugger, or a machine that was busy elsewhere. Its
/// readings are the milliseconds in which the program ran.
#[derive(Drop)]
pub struct RunningClock {
    /// The latest reading of the machine's clock.
    latest: u64,
    /// The milliseconds for which the program was stopped, in all.
    stopped: u64,
    /// Those of them that were told.
    told: u64,
}

impl Model for RunningClock {
    ghost use Rattle.std.specs.Prelude.{◌≤◌};
    ghost use Rattle.sacn_watch.specs.Stops.{RunningTime};

    ghost Value = { RunningTime };

    ghost view = { λ c. record { latest = c.latest; stopped = c.stopped; told = c.told } };

    ghost invariant = { λ c. (c.stopped ≤ c.latest) × (c.told ≤ c.stopped) };
}

impl RunningClock {
    /// A clock that was never stopped, of a machine's clock that reads 0.
    pub fn new() -> Self
        ensures { result ≡ record { latest = 0; stopped = 0; told = 0 } }
    {
        RunningClock {
            latest: 0,
            stopped: 0,
            told: 0,
        }
    }

    /// This clock's reading where the machine's clock reads `now`. It never goes back, never goes on by more than `MOST_BETWEEN` at
    /// once, and is the machine's but for the stops.
    pub fn read(&mut self, now: u64) -> u64
        ensures clock { self.new ≡ after_reading now self.old }
        ensures reading { result ≡ reading self.new }
        ensures forward { reading self.old ≤ result }
        ensures at_once { result ≤ reading self.old + MOST_BETWEEN }
        ensures all { result + self.new.stopped ≡ self.new.latest }
    {
        let passed = now.saturating_sub(self.latest);
        if passed > MOST_BETWEEN {
            self.stopped += passed;
        }
        self.latest = self.latest.max(now);
        self.latest - self.stopped
    }

    /// The machine's reading until which a wait for a reading of this clock goes, at most.
    pub fn machine_moment(&self, until: u64) -> u64 {
        let longest = self.latest.saturating_add(LONGEST_WAIT);
        until.saturating_add(self.stopped).min(longest)
    }

    /// For how many milliseconds the program was stopped since this was asked last.
    pub fn take_stop(&mut self) -> u64
        ensures stop { result ≡ self.old.stopped - self.old.told }
        ensures clock { self.new ≡ record self.old { told = self.old.stopped } }
    {
        let stop = self.stopped - self.told;
        self.told = self.stopped;
        stop
    }
}

/// A listener whose clock stands still while this program doesn't run. What came meanwhile is so taken at the reading before the
/// stop, the earliest at which it can have come, and a source that fell silent meanwhile is lost 2500 ms of running time later.
#[derive(Drop)]
pub struct RunningListener<L> {
    listener: L,
    clock: RunningClock,
}

impl<L: Listener> RunningListener<L> {
    /// A listener of whose clock nothing was read yet.
    pub fn new(listener: L) -> Self {
        RunningListener {
            listener,
            clock: RunningClock::new(),
        }
    }
}

impl<L: Listener> Receiver for RunningListener<L> {
    fn wait(&mut self, until: u64) {
        let until = self.clock.machine_moment(until);
        self.listener.wait(until);
    }

    fn sender_port(&self) -> u16 {
        self.listener.sender_port()
    }

    /// Hands on what the listener brings, at this clock's reading.
    fn receive(&mut self, buffer: &mut [u8; BUFFER_OCTETS]) -> Receipt
        ensures fits { FitsBuffer result.arrival }
        ensures heard { (r : Receipt) × Extends (L.Receiver.told self.old.listener)
            (L.Receiver.told self.new.listener) (hearing_of r buffer.new ∷ [])
            × (self.new.clock ≡ after_reading r.now self.old.clock)
            × (result.now ≡ reading self.new.clock) × (result.arrival ≡ r.arrival) }
    {
        let receipt = self.listener.receive(buffer);
        let now = self.clock.read(receipt.now);
        Receipt {
            now,
            arrival: receipt.arrival,
        }
    }
}

impl<L: Listener> Listener for RunningListener<L> {
    ghost Ended = { λ r. L.Ended r.listener };

    fn has_ended(&mut self) -> bool {
        self.listener.has_ended()
    }

    fn take_stop(&mut self) -> u64 {
        self.clock.take_stop()
    }
}
