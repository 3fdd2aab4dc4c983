//! What a gateway says of what it hears.
use crate::counts::Counts;
use crate::hearing::{Notes, PassedOver};
use sacn_machine::{DeviceFault, Drops, Octets4};
use sacn_node::NodeTaken;
use sacn_packets::{PacketFault, Reading};
use sacn_sources::Taken;
use std::io::{ErrorKind, Write};
use std::net::SocketAddrV4;

/// Looks on while a gateway runs, and says on an output what isn't taken, each name at most once a second with how often; and what
/// becomes of interfaces.
#[derive(Drop)]
pub struct Diagnosis<E> {
    err: E,
    counts: Counts,
    drops: Option<Drops>,
}

/// The name of a fault of a packet.
fn fault_name(fault: PacketFault) -> &'static str {
    match fault {
        PacketFault::TooShort => "refused TooShort",
        PacketFault::Preamble => "refused Preamble",
        PacketFault::Postamble => "refused Postamble",
        PacketFault::Identifier => "refused Identifier",
        PacketFault::Flags => "refused Flags",
        PacketFault::Length => "refused Length",
        PacketFault::RootVector => "refused RootVector",
        PacketFault::FramingVector => "refused FramingVector",
        PacketFault::DmpVector => "refused DmpVector",
        PacketFault::AddressType => "refused AddressType",
        PacketFault::FirstAddress => "refused FirstAddress",
        PacketFault::Increment => "refused Increment",
        PacketFault::ValueCount => "refused ValueCount",
        PacketFault::Priority => "refused Priority",
        PacketFault::Universe => "refused Universe",
        PacketFault::DiscoveryVector => "refused DiscoveryVector",
        PacketFault::PageRange => "refused PageRange",
        PacketFault::TooManyUniverses => "refused TooManyUniverses",
    }
}

/// What to look at where a device can't be opened for this reason.
fn advice_of(kind: ErrorKind) -> &'static str {
    match kind {
        ErrorKind::NotFound => ": is it plugged in, and is that its path?",
        ErrorKind::PermissionDenied =>
            ": may this user open it? Serial devices are often of the group dialout",
        _ => "",
    }
}

impl<E: Write> Diagnosis<E> {
    /// A diagnosis that has seen nothing.
    pub fn new(err: E) -> Diagnosis<E> {
        Diagnosis {
            err,
            counts: Counts::new(),
            drops: None,
        }
    }

    /// From now on it says what the machine drops, too.
    pub fn count_drops(&mut self, drops: Drops) {
        self.drops = Some(drops);
    }

    /// What became of a data packet of one of the node's universes.
    fn note_from_table(&mut self, taken: Taken) {
        match taken {
            Taken::OutOfSequence => self.counts.count("discarded OutOfSequence"),
            Taken::SourcesExceeded => self.counts.count("discarded SourcesExceeded"),
            Taken::Held => {}
            Taken::EndedNow => {}
            Taken::Observed => {}
            Taken::UnknownIgnored => {}
        }
    }
}

impl<E: Write> Notes for Diagnosis<E> {
    fn note_taken(
        &mut self,
        _now: u64,
        _sender: SocketAddrV4,
        _reading: &Reading<'_>,
        taken: NodeTaken,
    ) {
        match taken {
            NodeTaken::FromTable(taken) => self.note_from_table(taken),
            NodeTaken::Refused(fault) => self.counts.count(fault_name(fault)),
            NodeTaken::OtherUniverse => {}
            NodeTaken::Discovery => {}
            NodeTaken::Sync => {}
        }
    }

    fn note_passed_over(&mut self, _now: u64, _sender: Octets4, why: PassedOver) {
        match why {
            PassedOver::Late => self.counts.count("dropped Late"),
            PassedOver::OtherSender => self.counts.count("dropped OtherSender"),
        }
    }

    fn note_failure(&mut self, _now: u64) {
        self.counts.count("device receive");
    }

    fn note_interface(&mut self, port: u8, name: &str, fault: Option<DeviceFault>) {
        let _ = match fault {
            None => writeln!(self.err, "widget {port} {name} works again"),
            Some(DeviceFault::Unplugged) => writeln!(self.err, "widget {port} {name} Unplugged"),
            Some(DeviceFault::NoDescriptor) => {
                writeln!(self.err, "widget {port} {name} NoDescriptor")
            }
            Some(DeviceFault::Other(kind)) => {
                let advice = advice_of(kind);
                writeln!(self.err, "widget {port} {name} {kind:?}{advice}")
            }
        };
    }

    fn note_turn(&mut self, now: u64) {
        self.counts.say(now, &mut self.err);
        if let Some(drops) = &mut self.drops {
            drops.check(now, &mut self.err);
        }
    }

    // (what it says, it says within half a second of its moment)
    fn wakes(&self) -> u64 {
        u64::MAX
    }
}
