//! Room for the lines of an output that doesn't take them now.
ghost use Rattle.std.specs.Prelude.{◌≡◌, ◌<◌, ◌==◌, [], length, true, false, IfOk, slice_get, option_copied, not, drop, filter, ◌≤◌};
ghost use Rattle.sacn_machine.specs.Rooms.{Waiting, after_line, after_loss, after_taken, after_told, has_room, told_in, held};

use arrayvec::ArrayVec;
use circular_buffer::HeapCircularBuffer;
use std::alloc::{AllocError, Global};
use std::marker::Model;

/// The most octets of whole lines that wait for an output.
pub const ROOM_OCTETS: usize = 65_536;

/// The most octets that wait where it is told how many lines found no room: half of the room is free then.
pub const TOLD_AT: usize = 32_768;

/// The most octets of a frame's line, a time of day and its LF among them.
pub const FRAME_LINE_OCTETS: usize = 1072;

/// The most ports whose frames' lines wait.
pub const MAX_FRAMES: usize = 16;

/// Lines that wait for an output, whole and in order, as octets, and how many found no room since that was last told.
#[derive(Drop)]
pub struct Room {
    octets: HeapCircularBuffer<u8>,
    lost: u64,
}

impl Model for Room {
    ghost use Rattle.std.specs.Prelude.{◌≡◌};
    ghost use Rattle.sacn_machine.specs.Rooms.{Waiting};
    ghost use Rattle.sacn_machine.specs.declared.room.TheConstants.{ROOM_OCTETS};

    ghost Value = { Waiting };

    ghost view = { λ r. record { octets = r.octets.items; lost = r.lost } };

    ghost invariant = { λ r. r.octets.capacity ≡ ROOM_OCTETS };
}

/// How many lines end in these octets.
fn line_ends(octets: &[u8]) -> u64 {
    octets.iter().filter(|octet| **octet == b'\n').count() as u64
}

impl Room {
    /// A room in which nothing waits.
    pub fn new(alloc: Global) -> Result<Room, AllocError>
        ensures { IfOk result (λ room. room ≡ record { octets = []; lost = 0 }) }
    {
        Ok(Room {
            octets: HeapCircularBuffer::with_capacity(alloc, ROOM_OCTETS)?,
            lost: 0,
        })
    }

    /// Whether nothing waits.
    pub fn is_empty(&self) -> bool
        ensures { result ≡ (length self.now.octets == 0) }
    {
        self.octets.is_empty()
    }

    /// Whether a line of so many octets finds room: it fits, and none before it was lost that isn't told yet.
    pub fn has_room(&self, len: usize) -> bool
        ensures { result ≡ has_room len self.now }
    {
        self.lost == 0 && len <= ROOM_OCTETS - self.octets.len()
    }

    /// Takes a line, the whole of it, where it finds room; else it is lost, and counted.
    pub fn add_line(&mut self, line: &[u8])
        ensures { self.new ≡ after_line line.now self.old }
    {
        if self.has_room(line.len()) {
            let _ = self.octets.fill_from_slice(line);
        } else {
            self.count_loss();
        }
    }

    /// Whether a line was lost that isn't told yet.
    pub fn has_lost(&self) -> bool
        ensures { result ≡ not (self.now.lost == 0) }
    {
        self.lost != 0
    }

    /// Counts a line that is lost.
    pub fn count_loss(&mut self)
        ensures { self.new ≡ after_loss self.old }
    {
        self.lost = self.lost.saturating_add(1);
    }

    /// What waits first, as many octets as stand together.
    pub fn front(&self) -> &[u8] {
        let (front, _) = self.octets.as_slices();
        front
    }

    /// How many lines wait, of which the first may have begun to go out, or were lost and not told.
    pub fn count_left(&self) -> u64 {
        let (front, back) = self.octets.as_slices();
        self.lost
            .saturating_add(line_ends(front))
            .saturating_add(line_ends(back))
    }

    /// So many octets that waited first are gone.
    pub fn take(&mut self, count: usize)
        ensures { self.new ≡ after_taken count self.old }
    {
        let left = self.octets.len().saturating_sub(count);
        self.octets.truncate_front(left);
    }

    /// How many lines were lost, where that is to be told: some were, and half of the room is free. It is told then.
    pub fn take_loss(&mut self) -> Option<u64>
        ensures told { result ≡ told_in self.old }
        ensures new { self.new ≡ after_told self.old }
    {
        if self.lost == 0 || self.octets.len() > TOLD_AT {
            return None;
        }
        let lost = self.lost;
        self.lost = 0;
        Some(lost)
    }
}

/// The line of a port's frame.
#[derive(Default, Drop)]
pub struct FrameLine {
    pub port: u8,
    pub octets: ArrayVec<u8, FRAME_LINE_OCTETS>,
}

/// The newest line of each port that waits for room, in the order in which they came.
#[derive(Drop)]
pub struct NewestFrames {
    lines: ArrayVec<FrameLine, MAX_FRAMES>,
}

impl NewestFrames {
    /// No line waits.
    pub fn new() -> NewestFrames
        ensures { result.lines.items ≡ [] }
    {
        NewestFrames {
            lines: ArrayVec::new(),
        }
    }

    /// How many lines wait.
    pub fn len(&self) -> usize
        ensures { result ≡ length self.now.lines.items }
    {
        self.lines.len()
    }

    /// Forgets the line of a port.
    fn forget(&mut self, port: u8)
        ensures others { self.new.lines.items
            ≡ filter (λ l. not (l.port == port)) self.old.lines.items }
        ensures fewer { length self.new.lines.items ≤ length self.old.lines.items }
    {
        self.lines.retain(
            |line: &mut FrameLine| -> bool
                ensures { (result ≡ not (line.old.port == port)) × (line.new ≡ line.old) }
            { line.port != port },
        );
    }

    /// Keeps a line, in place of an earlier one of its port. Returns whether it is kept: it is where fewer than the most ports
    /// have one.
    pub fn hold(&mut self, line: FrameLine) -> bool
        ensures held { result ≡ true → self.new.lines.items ≡ held line self.old.lines.items }
        ensures room { length self.old.lines.items < MAX_FRAMES → result ≡ true }
    {
        self.forget(line.port);
        self.lines.try_push(line).is_ok()
    }

    /// The line that waits the longest.
    pub fn first(&self) -> Option<&FrameLine>
        ensures { option_copied result ≡ slice_get self.now.lines.items 0 }
    {
        self.lines.as_slice().first()
    }

    /// Forgets the line that waits the longest.
    pub fn drop_first(&mut self)
        ensures { self.new.lines.items ≡ drop 1 self.old.lines.items }
    {
        let _ = self.lines.pop_at(0);
    }
}
