//! Frames that are told for people.
use crate::hearing::{Notes, PassedOver};
use crate::slot_lines::slots_line;
use sacn_machine::{DeviceFault, Octets4};
use sacn_node::{NodeTaken, PortFrame};
use sacn_packets::{FRAME_OCTETS, Reading};
use std::io::{Result, Write};
use std::net::SocketAddrV4;

/// Looks on at a gateway as another does, and writes a line of slots for each frame that is another one than the one before.
#[derive(Drop)]
pub struct SlotNotes<'n, N, O, E> {
    notes: &'n mut N,
    /// The letters of a line.
    width: usize,
    out: O,
    err: E,
    /// It was said that a line can't be written.
    has_failed: bool,
}

impl<'n, N: Notes, O: Write, E: Write> SlotNotes<'n, N, O, E> {
    /// One that has written nothing yet, of lines for a terminal of this width.
    pub fn new(notes: &'n mut N, width: usize, out: O, err: E) -> Self {
        SlotNotes {
            notes,
            width,
            out,
            err,
            has_failed: false,
        }
    }

    fn write_line(&mut self, port: u8, frame: &[u8; FRAME_OCTETS]) -> Result<()> {
        self.out
            .write_all(slots_line(self.width, port, frame).as_slice())?;
        self.out.write_all(b"\n")
    }

    // Writes the line of a frame. Where that fails it is said, once, and the gateway goes on.
    fn show(&mut self, port: u8, frame: &[u8; FRAME_OCTETS]) {
        if self.write_line(port, frame).is_ok() || self.has_failed {
            return;
        }
        self.has_failed = true;
        let _ = writeln!(self.err, "frames device write");
    }
}

impl<'n, N: Notes, O: Write, E: Write> Notes for SlotNotes<'n, N, O, E> {
    fn note_taken(
        &mut self,
        now: u64,
        sender: SocketAddrV4,
        reading: &Reading<'_>,
        taken: NodeTaken,
    ) {
        self.notes.note_taken(now, sender, reading, taken);
    }

    fn note_passed_over(&mut self, now: u64, sender: Octets4, why: PassedOver) {
        self.notes.note_passed_over(now, sender, why);
    }

    fn note_failure(&mut self, now: u64) {
        self.notes.note_failure(now);
    }

    fn note_interface(&mut self, port: u8, name: &str, fault: Option<DeviceFault>) {
        self.notes.note_interface(port, name, fault);
    }

    fn note_frames(&mut self, now: u64, ports: &[PortFrame]) {
        self.notes.note_frames(now, ports);
        for port in ports {
            if let Some(frame) = port.news() {
                self.show(port.port, frame);
            }
        }
    }

    fn note_turn(&mut self, now: u64) {
        self.notes.note_turn(now);
    }

    fn wakes(&self) -> u64 {
        self.notes.wakes()
    }
}
