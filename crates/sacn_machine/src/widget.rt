//! Interfaces that speak the protocol of the DMX USB Pro.
ghost use Rattle.std.specs.Prelude.{◌≡◌};
ghost use Rattle.sacn_node.specs.Showings.{same};
ghost use Rattle.sacn_machine.specs.Widgets.{widget_text};

use crate::device::{Device, DeviceFault, Took, WIDGET_OCTETS};
use crate::sys::{open_device, write_device};
use sacn_packets::FRAME_OCTETS;
use std::io::ErrorKind;
use std::os::fd::OwnedFd;

/// The start octet, the label "send DMX packet", and the frame's length from its low octet on.
const START: [u8; 4] = [0x7e, 6, 1, 2];

/// The end octet.
const END: u8 = 0xe7;

/// The packet of a frame: the start octet, the label "send DMX packet", the frame's length from its low octet on, the
/// frame, which is a start code and 512 slots, and the end octet.
pub fn widget_packet(frame: &[u8; FRAME_OCTETS]) -> [u8; WIDGET_OCTETS]
    ensures { result ≡ widget_text frame.now }
{
    let mut packet = [0; WIDGET_OCTETS];
    packet[..4].copy_from_slice(&START);
    packet[4..517].copy_from_slice(frame);
    packet[517] = END;
    packet
}

/// Whether these octets are the packet of a frame; none is made for that.
pub fn is_packet_of(packet: &[u8; WIDGET_OCTETS], frame: &[u8; FRAME_OCTETS]) -> bool
    ensures { result ≡ same packet.now (widget_text frame.now) }
{
    let begins = is_same(&packet[..4], &START);
    let carries = is_same(&packet[4..517], frame);
    let ends = is_same(&packet[517..], &[END]);
    begins & carries & ends
}

#[tactic(auto, unfolding(sacn_node::specs::Showings::same))]
fn is_same(a: &[u8], b: &[u8]) -> bool
    ensures { result ≡ same a.now b.now }
{
    a == b
}

/// An interface at a device file of the machine. It tells nothing.
///
/// The file is opened at the first packet, and again at the next one after it failed. No call of it waits. Where the device
/// took a part of a packet, what is left of that packet is written before any other.
#[derive(Drop)]
pub struct Widget<'a> {
    path: &'a str,
    file: Option<OwnedFd>,
    // The latest packet that was begun, and how many octets of it the device took.
    packet: [u8; WIDGET_OCTETS],
    written: usize,
}

impl<'a> Widget<'a> {
    /// An interface that isn't opened yet.
    pub fn new(path: &'a str) -> Widget<'a> {
        Widget {
            path,
            file: None,
            packet: [0; WIDGET_OCTETS],
            written: 0,
        }
    }

    /// Writes a packet after what is left of the one before. Whether the device has all of it.
    fn write(&mut self, packet: &[u8; WIDGET_OCTETS]) -> Result<bool, DeviceFault> {
        if self.written > 0 && self.written < WIDGET_OCTETS {
            if !self.write_rest()? {
                return Ok(false);
            }
            if is_same(&self.packet, packet) {
                return Ok(true);
            }
        }
        self.packet = *packet;
        self.written = 0;
        self.write_rest()
    }

    /// Writes what is left of the packet that was begun, as much as the device takes now. Whether that was all.
    fn write_rest(&mut self) -> Result<bool, DeviceFault> {
        if self.file.is_none() {
            self.file = Some(open_device(self.path)?);
        }
        let Some(file) = &self.file else {
            return Err(DeviceFault::Other(ErrorKind::NotFound));
        };
        let Some(rest) = self.packet.get(self.written..) else {
            return Ok(true);
        };
        let count = write_device(file, rest)?;
        self.written = self.written.saturating_add(count);
        Ok(self.written >= WIDGET_OCTETS)
    }
}

impl<'a> Device for Widget<'a> {
    fn take(&mut self, _now: u64, packet: &[u8; WIDGET_OCTETS]) -> Took {
        match self.write(packet) {
            Ok(true) => Took::Whole,
            Ok(false) => Took::Later,
            Err(fault) => {
                self.file = None;
                self.written = 0;
                Took::Failed(fault)
            }
        }
    }
}
