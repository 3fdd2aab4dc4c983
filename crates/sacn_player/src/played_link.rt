//! What sends the datagrams of a recording.
use sacn_desk::{DeskDatagram, DeskSender};
use sacn_edge::{BUFFER_OCTETS, Clock, Link, Received};
use sacn_machine::Sockets;
use sacn_packets::{MAX_UNIVERSE, MIN_UNIVERSE, Packet, read_packet};
use std::io::Write;

/// Where the universe of a synchronization packet stands (E1.31, 6.3.3), the high octet first.
const SYNCHRONIZATION_AT: usize = 45;

// Whether a universe has a group of its own (E1.31, 6.2.7): a synchronization packet may name none.
fn has_group(universe: u16) -> bool {
    (MIN_UNIVERSE..=MAX_UNIVERSE).contains(&universe)
}

/// What sends the datagrams of a recording, octet by octet: a data packet to each host that takes its universe and, where groups are sent
/// to, to the universe's; a page to all hosts and to the group of discovery; a synchronization packet to all hosts and to the group of the
/// universe that it names; what is no packet to all hosts. It brings nothing.
#[derive(Drop)]
pub struct PlayedLink<S, C, E> {
    sender: DeskSender<S, C, E>,
    failed: u64,
}

impl<S: Sockets, C: Clock, E: Write + Drop> PlayedLink<S, C, E> {
    /// One that sends by this sender.
    pub fn over(sender: DeskSender<S, C, E>) -> Self {
        PlayedLink { sender, failed: 0 }
    }

    /// Whether a destination took a datagram.
    pub fn has_sent(&self) -> bool {
        self.sender.has_sent()
    }

    /// How many datagrams weren't taken by each destination that they were for.
    pub fn failed(&self) -> u64 {
        self.failed
    }

    // Sends a datagram where it goes. Returns whether no send failed.
    fn pass_on(&mut self, octets: &[u8]) -> bool {
        match read_packet(octets) {
            Ok(Packet::DataPacket(packet)) => {
                let datagram = DeskDatagram::new(octets, Some(packet.universe()));
                self.sender.send_datagram(&datagram)
            }
            Ok(Packet::PagePacket(_)) => {
                let datagram = DeskDatagram::new(octets, None);
                self.sender.send_datagram(&datagram)
            }
            Ok(Packet::SyncPacket) => self.synchronize(octets),
            Err(_) => self.sender.send_to_hosts(octets) == 0,
        }
    }

    fn synchronize(&mut self, octets: &[u8]) -> bool {
        let failed = self.sender.send_to_hosts(octets);
        let is_taken = match octets.get(SYNCHRONIZATION_AT..SYNCHRONIZATION_AT + 2) {
            Some([high, low]) => {
                let universe = u16::from_be_bytes([*high, *low]);
                !has_group(universe) || self.sender.send_to_group(octets, universe)
            }
            _ => true,
        };
        failed == 0 && is_taken
    }
}

impl<S: Sockets, C: Clock, E: Write + Drop> Link for PlayedLink<S, C, E> {
    fn receive(&mut self, _buffer: &mut [u8; BUFFER_OCTETS]) -> Received {
        Received::Nothing
    }

    fn send(&mut self, datagram: &[u8]) -> bool {
        let is_taken = self.pass_on(datagram);
        if !is_taken {
            self.failed = self.failed.saturating_add(1);
        }
        is_taken
    }
}
