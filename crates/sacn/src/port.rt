//! A port that has no other receiver.
use sacn_commands::ending::{DEVICE_FAILED, Ending};
use std::io::{ErrorKind, Write};
use std::net::{Ipv4Addr, Net, SocketAddrV4, UdpSocket};

/// What would share a port.
#[derive(Clone, Copy)]
pub enum Sharer {
    Watch,
    Record,
    Gateway,
}

/// Where another receiver has a port, that is said, with what to do, and ends the run: it would lose what is sent to this machine alone.
pub fn keep_alone<R: Net, E: Write>(
    rt: &R,
    address: SocketAddrV4,
    sharer: Sharer,
    err: &mut E,
) -> Result<(), Ending> {
    if !is_taken(rt, address) {
        return Ok(());
    }
    let port = address.port();
    let (name, way) = match sharer {
        Sharer::Watch => ("a watch", "Start the gateway with --page PORT or --watch"),
        Sharer::Record => (
            "a recording",
            "Record on another machine, or by tcpdump, which takes nothing away",
        ),
        Sharer::Gateway => (
            "this gateway",
            "End the other one, or hand all setups to one gateway",
        ),
    };
    let _ = writeln!(
        err,
        "port {port} has a receiver on this machine: of what is sent to this machine alone each stream goes to one receiver, so {name} would take it away. {way}; or add --beside here, where all comes by multicast"
    );
    Err(Ending::Said(DEVICE_FAILED))
}

/// An address of the machine's own (RFC 1122, 3.2.1.3) at which nothing listens alone.
const UNUSED: [u8; 4] = [127, 255, 255, 254];

// Whether another receiver would lose packets to one at this address: where that is all of the machine's, one that has all of them, too.
// What is bound to one address, or to a group, keeps what is sent there.
fn is_taken<R: Net>(rt: &R, address: SocketAddrV4) -> bool {
    let port = address.port();
    if *address.ip() != Ipv4Addr::UNSPECIFIED {
        return probe(rt, *address.ip(), port) == Some(ErrorKind::AddrInUse);
    }
    match probe(rt, Ipv4Addr::from_octets(UNUSED), port) {
        // (a machine without a loopback)
        Some(ErrorKind::AddrNotAvailable) => {
            probe(rt, Ipv4Addr::UNSPECIFIED, port) == Some(ErrorKind::AddrInUse)
        }
        fault => fault == Some(ErrorKind::AddrInUse),
    }
}

// Why a socket that shares nothing doesn't get this port. One that gets it is closed at once.
fn probe<R: Net>(rt: &R, address: Ipv4Addr, port: u16) -> Option<ErrorKind> {
    match UdpSocket::bind(rt, (address, port)) {
        Ok(_) => None,
        Err(error) => Some(error.kind()),
    }
}
