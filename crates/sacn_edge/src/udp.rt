//! A link over a UDP socket of the machine.
ghost use Rattle.std.specs.Prelude.{◌≡◌, ◌≤◌, length, IfOk};

use crate::link::{BUFFER_OCTETS, Link, Received};
use arrayvec::ArrayVec;
use sacn_console::limits::MAX_DESTINATIONS;
use std::io::ErrorKind;
use std::net::{Ipv4Addr, Net, UdpSocket};
use thiserror::Error;

/// The machine refused the socket.
#[derive(Clone, Copy, Debug, Error)]
#[error("the machine refused the socket")]
pub struct SocketFailed;

/// A UDP socket on 127.0.0.1, which sends to some ports there. It tells nothing.
///
/// A receive with nothing there returns `Nothing` at once; a datagram of more than 2048 octets is cut. A send
/// goes to each of the destinations in turn, also after one that failed, and returns false where one failed.
#[derive(Drop)]
pub struct UdpLink {
    socket: UdpSocket,
    destinations: ArrayVec<u16, MAX_DESTINATIONS>,
}

impl UdpLink {
    ghost use Rattle.sacn_edge.specs.Sockets.{destinations_of};

    /// A link on this port, or on one that the machine chooses where it is 0, which sends to these ports.
    /// `SocketFailed` where the machine refuses the socket.
    pub fn bind(rt: &impl Net, port: u16, destinations: &[u16]) -> Result<UdpLink, SocketFailed>
        requires { length destinations.now ≤ MAX_DESTINATIONS }
        ensures { IfOk result (λ link. destinations_of link ≡ destinations.now) }
    {
        let Ok(socket) = UdpSocket::bind(rt, (Ipv4Addr::LOCALHOST, port)) else {
            return Err(SocketFailed);
        };
        if socket.set_nonblocking(true).is_err() {
            return Err(SocketFailed);
        }
        let mut ports = ArrayVec::new();
        let _ = ports.try_extend_from_slice(destinations);
        Ok(UdpLink {
            socket,
            destinations: ports,
        })
    }
}

impl Link for UdpLink {
    fn receive(&mut self, buffer: &mut [u8; BUFFER_OCTETS]) -> Received {
        match self.socket.recv_from(buffer) {
            Ok((count, _)) => Received::Datagram(count),
            Err(error) => match error.kind() {
                ErrorKind::WouldBlock => Received::Nothing,
                _ => Received::Failed,
            },
        }
    }

    fn send(&mut self, datagram: &[u8]) -> bool {
        let mut is_sent = true;
        for port in self.destinations.iter() {
            let sent = self.socket.send_to(datagram, (Ipv4Addr::LOCALHOST, *port));
            is_sent &= sent.is_ok();
        }
        is_sent
    }
}
