//! A tape over memory, which tells its records.

ghost use Rattle.std.specs.Prelude.{◌≡◌, Some};
ghost use Rattle.sacn_replay.specs.MemoryTapes.{reel_of, tape_told};

use crate::record_reader::RecordReader;

/// A record of a recording.
#[derive(Drop)]
pub struct MemoryRecord {
    /// Milliseconds since the recording's first record.
    pub moment: u64,
    /// The octets of its datagram, as they are to go out.
    pub octets: Vec<u8>,
}

/// A recording that is a list of records. It tells them, and which are left.
#[derive(Drop)]
pub struct MemoryTape {
    records: Vec<MemoryRecord>,
    next: usize,
}

impl MemoryTape {
    /// A tape whose first record is next.
    pub fn new(records: Vec<MemoryRecord>) -> Self
        ensures { tape_told result ≡ Some (reel_of 0 records.items) }
    {
        MemoryTape { records, next: 0 }
    }
}

impl RecordReader for MemoryTape {
    ghost use Rattle.sacn_replay.specs.MemoryTapes.{tape_told};

    ghost told = { tape_told };

    fn moment(&mut self) -> Option<u64> {
        if self.next < self.records.len() {
            return Some(self.records[self.next].moment);
        }
        None
    }

    fn octets(&self) -> &[u8] {
        if self.next < self.records.len() {
            return self.records[self.next].octets.as_slice();
        }
        &[]
    }

    fn pass(&mut self) {
        if self.next < self.records.len() {
            self.next += 1;
        }
    }

    fn rewind(&mut self) {
        self.next = 0;
    }
}
