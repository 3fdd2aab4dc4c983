//! A gateway that is looked at: its light comes before its viewers.
use crate::source_lines::{Spoken, endpoint_of};
use crate::timed::LateWrite;
use sacn_gateway::limits::TURN_SPAN;
use sacn_gateway::{Notes, PassedOver};
use sacn_machine::limits::MAX_BURST;
use sacn_machine::{DeviceFault, Octets4};
use sacn_node::NodeTaken;
use sacn_packets::Reading;
use sacn_watch::{WatchFault, Watcher};
use std::io::Write;
use std::net::SocketAddrV4;

/// How long viewers wait at most while more datagrams come than a turn takes, in milliseconds.
const PATIENCE: u64 = 250;

/// What a turn brought so far, and when viewers were looked at last.
#[derive(Clone, Copy)]
struct Turn {
    /// The moment of the turn's first datagram.
    begun: u64,
    /// The turn's receives that brought something.
    receives: usize,
    /// The moment at which viewers were looked at last.
    looked: u64,
    /// They weren't looked at when the latest turn ended.
    is_owed: bool,
}

impl Turn {
    /// Nothing came yet.
    fn new() -> Turn {
        Turn {
            begun: 0,
            receives: 0,
            looked: 0,
            is_owed: false,
        }
    }

    /// A receive brought something.
    fn note(&mut self, now: u64) {
        if self.receives == 0 {
            self.begun = now;
        }
        self.receives = self.receives.saturating_add(1);
    }

    /// Whether it took as long as a turn may, or as many datagrams, so that more wait.
    fn is_full(&self, now: u64) -> bool {
        self.receives >= MAX_BURST
            || self.receives > 0 && now >= self.begun.saturating_add(TURN_SPAN)
    }

    /// Ends the turn. Returns whether viewers are to be looked at: they wait where more datagrams do, and they were looked at a
    /// short while ago.
    fn end(&mut self, now: u64) -> bool {
        self.is_owed = self.is_full(now) && now < self.due();
        self.receives = 0;
        if !self.is_owed {
            self.looked = now;
        }
        !self.is_owed
    }

    /// The moment from which on viewers wait no longer.
    fn due(&self) -> u64 {
        self.looked.saturating_add(PATIENCE)
    }
}

/// Looks on at a gateway, for its standard error and for those who view what it hears.
#[derive(Drop)]
pub struct Shown<'a, E, S, L, W> {
    spoken: Spoken<S, L>,
    viewers: &'a mut W,
    /// What they look at.
    name: &'static str,
    err: E,
    /// It was said that something can't be shown.
    has_failed: bool,
    turn: Turn,
}

impl<'a, E: Write, S: Write + Drop, L: LateWrite + Drop, W> Shown<'a, E, S, L, W> {
    /// Nothing was heard yet. `name` is what viewers look at.
    pub fn new(spoken: Spoken<S, L>, viewers: &'a mut W, name: &'static str, err: E) -> Self {
        Shown {
            spoken,
            viewers,
            name,
            err,
            has_failed: false,
            turn: Turn::new(),
        }
    }

    /// The gateway ends.
    pub fn end(&mut self) {
        self.spoken.end();
    }

    // Says, once, that there wasn't memory for all that viewers are to be shown, or that it can't be written. The gateway goes on, and so do they.
    fn note_viewers(&mut self, came: Result<(), WatchFault>) {
        let Err(fault) = came else {
            return;
        };
        if self.has_failed {
            return;
        }
        self.has_failed = true;
        let name = self.name;
        let _ = match fault {
            WatchFault::OutOfMemory => writeln!(self.err, "{name} OutOfMemory"),
            WatchFault::Device => writeln!(self.err, "{name} device write"),
        };
    }
}

impl<'a, E: Write, S: Write + Drop, L: LateWrite + Drop, W: Watcher> Notes
    for Shown<'a, E, S, L, W> {
    fn note_taken(
        &mut self,
        now: u64,
        sender: SocketAddrV4,
        reading: &Reading<'_>,
        taken: NodeTaken,
    ) {
        self.turn.note(now);
        self.spoken.note_taken(now, sender, reading, taken);
        let came = self.viewers.take(now, endpoint_of(sender), reading);
        self.note_viewers(came);
    }

    fn note_passed_over(&mut self, now: u64, sender: Octets4, why: PassedOver) {
        self.turn.note(now);
        self.spoken.note_passed_over(now, sender, why);
    }

    fn note_failure(&mut self, now: u64) {
        self.spoken.note_failure(now);
    }

    fn note_interface(&mut self, port: u8, name: &str, fault: Option<DeviceFault>) {
        self.spoken.note_interface(port, name, fault);
    }

    fn note_turn(&mut self, now: u64) {
        self.spoken.note_turn(now);
        if self.turn.end(now) {
            let came = self.viewers.show(now);
            self.note_viewers(came);
        }
    }

    fn wakes(&self) -> u64 {
        let wakes = if self.turn.is_owed {
            self.turn.due()
        } else {
            self.viewers.wakes()
        };
        wakes.min(self.spoken.wakes())
    }
}
