//! UDP sockets of the machine that a desk sends from. None of them waits.
use crate::hold::Hold;
use crate::limits::{
    GROUPS_ROOM, HELD_ROOM, HOST_OCTETS, HOST_ROOM, LOOKED_AGAIN, LOOKED_EACH, SILENT_GONE,
    SILENT_TRIED_EACH,
};
use crate::neighbours::Neighbours;
use crate::sockets::Sockets;
use crate::sys::{send_now, set_send_room};
use std::alloc::Global;
use std::io::ErrorKind;
use std::net::{Ipv4Addr, Net, SocketAddrV4, UdpSocket};

/// What is kept of a host that doesn't answer.
#[derive(Clone, Copy)]
struct Silence {
    /// The reading at which a datagram was last sent to it all the same.
    tried: u64,
    /// The reading at which the table of neighbours last had it.
    seen: u64,
}

impl Silence {
    /// After a look at the table, which has the host without its hardware address, or doesn't have it. None where the table hasn't had it
    /// for so long that other ways may lead to it.
    fn after(self, now: u64, is_seen: bool) -> Option<Silence> {
        if is_seen {
            let tried = self.tried;
            Some(Silence { tried, seen: now })
        } else if now.saturating_sub(self.seen) < SILENT_GONE {
            Some(self)
        } else {
            None
        }
    }
}

/// A destination's socket, and whether it is tried.
#[derive(Drop)]
struct HostSocket {
    socket: UdpSocket,
    hold: Hold,
    room: i32,
    // Where the latest datagram went.
    host: Option<Ipv4Addr>,
    silence: Option<Silence>,
}

impl HostSocket {
    fn bind<R: Net>(rt: &R, from: Ipv4Addr, room: i32) -> Result<HostSocket, ErrorKind> {
        let socket = match UdpSocket::bind(rt, (from, 0)) {
            Ok(socket) => socket,
            Err(error) => return Err(error.kind()),
        };
        set_send_room(&socket, room)?;
        Ok(HostSocket {
            socket,
            hold: Hold::new(),
            room,
            host: None,
            silence: None,
        })
    }

    fn send(&mut self, to: SocketAddrV4, now: u64, datagram: &[u8]) -> Result<(), ErrorKind> {
        self.host = Some(*to.ip());
        let Some(silence) = self.silence else {
            return self.send_unless_held(to, now, datagram);
        };
        if now.saturating_sub(silence.tried) < SILENT_TRIED_EACH {
            return Err(ErrorKind::TimedOut);
        }
        let seen = silence.seen;
        self.silence = Some(Silence { tried: now, seen });
        self.send_silent(to, datagram)
    }

    /// Sends a datagram to a host that doesn't answer: the machine keeps it, and asks for the host.
    fn send_silent(&self, to: SocketAddrV4, datagram: &[u8]) -> Result<(), ErrorKind> {
        match send_now(&self.socket, datagram, to) {
            Ok(()) => Err(ErrorKind::TimedOut),
            Err(ErrorKind::WouldBlock) => Err(ErrorKind::TimedOut),
            Err(kind) => Err(kind),
        }
    }

    /// Notes whether the host answers.
    fn learn(&mut self, neighbours: &Neighbours, now: u64) {
        let Some(host) = self.host else {
            return;
        };
        let earlier = self.silence;
        self.silence = match neighbours.is_known(host) {
            Some(true) => None,
            Some(false) => {
                let first = Silence {
                    tried: now,
                    seen: now,
                };
                earlier.unwrap_or(first).after(now, true)
            }
            None => match earlier {
                Some(silence) => silence.after(now, false),
                None => None,
            },
        };
    }

    fn send_unless_held(
        &mut self,
        to: SocketAddrV4,
        now: u64,
        datagram: &[u8],
    ) -> Result<(), ErrorKind> {
        if self.hold.holds(now) {
            return Err(ErrorKind::WouldBlock);
        }
        let sent = send_now(&self.socket, datagram, to);
        let is_full = sent == Err(ErrorKind::WouldBlock);
        if self.hold.note(now, is_full) {
            let room = if self.hold.is_held() {
                HELD_ROOM
            } else {
                self.room
            };
            let _ = set_send_room(&self.socket, room);
        }
        sent
    }
}

/// A socket of its own for each destination. They tell nothing.
///
/// A destination that took nothing for a while is tried seldom, until it takes datagrams again: each try of a full socket is a call
/// of the machine. A host that hasn't said its hardware address is sent one a second, until it does.
#[derive(Drop)]
pub struct UdpSockets {
    sockets: Vec<HostSocket>,
    neighbours: Neighbours,
    // When the table of neighbours was read last.
    looked: u64,
}

/// Whether the machine asks for the hardware address of such a host.
fn is_asked_for(host: &Ipv4Addr) -> bool {
    !host.is_loopback() && !host.is_multicast()
}

impl UdpSockets {
    /// Sockets from this address to so many hosts, each with room for two datagrams of each of so many universes. The error is the
    /// machine's where it refuses one.
    pub fn to_hosts<R: Net>(
        rt: &R,
        alloc: Global,
        from: Ipv4Addr,
        hosts: usize,
        universes: u16,
    ) -> Result<UdpSockets, ErrorKind> {
        let room = HOST_ROOM.max(universes as i32 * HOST_OCTETS);
        let mut sockets = Vec::new(alloc);
        for _host in 0..hosts {
            let socket = HostSocket::bind(rt, from, room)?;
            if sockets.push(socket).is_err() {
                return Err(ErrorKind::OutOfMemory);
            }
        }
        UdpSockets::over(alloc, sockets)
    }

    /// A socket from this address to groups, which are reached over so many routers.
    pub fn to_groups<R: Net>(
        rt: &R,
        alloc: Global,
        from: Ipv4Addr,
        ttl: u8,
    ) -> Result<UdpSockets, ErrorKind> {
        let socket = HostSocket::bind(rt, from, GROUPS_ROOM)?;
        if let Err(error) = socket.socket.set_multicast_ttl_v4(ttl as u32) {
            return Err(error.kind());
        }
        let mut sockets = Vec::new(alloc);
        match sockets.push(socket) {
            Ok(()) => UdpSockets::over(alloc, sockets),
            Err(_) => Err(ErrorKind::OutOfMemory),
        }
    }

    fn over(alloc: Global, sockets: Vec<HostSocket>) -> Result<UdpSockets, ErrorKind> {
        match Neighbours::new(alloc) {
            Ok(neighbours) => Ok(UdpSockets {
                sockets,
                neighbours,
                looked: 0,
            }),
            Err(_) => Err(ErrorKind::OutOfMemory),
        }
    }

    /// Looks which hosts answer, where the latest look is so long ago. Returns whether it did.
    fn look(&mut self, now: u64, each: u64) -> bool {
        if now.saturating_sub(self.looked) < each {
            return false;
        }
        self.looked = now;
        self.neighbours.read();
        for socket in self.sockets.as_mut_slice().iter_mut() {
            socket.learn(&self.neighbours, now);
        }
        true
    }

    fn send_at(
        &mut self,
        place: usize,
        to: SocketAddrV4,
        now: u64,
        datagram: &[u8],
    ) -> Result<(), ErrorKind> {
        match self.sockets.get_mut(place) {
            Some(socket) => socket.send(to, now, datagram),
            None => Err(ErrorKind::NotFound),
        }
    }

    /// Whether the host at a place is known not to answer.
    fn is_silent(&self, place: usize) -> bool {
        match self.sockets.get(place) {
            Some(socket) => socket.silence.is_some(),
            None => false,
        }
    }
}

impl Sockets for UdpSockets {
    fn send(
        &mut self,
        place: usize,
        to: SocketAddrV4,
        now: u64,
        datagram: &[u8],
    ) -> Result<(), ErrorKind> {
        if !is_asked_for(to.ip()) {
            return self.send_at(place, to, now, datagram);
        }
        self.look(now, LOOKED_EACH);
        let sent = self.send_at(place, to, now, datagram);
        // (a socket is full in no time once its host is off)
        if sent == Err(ErrorKind::WouldBlock)
            && self.look(now, LOOKED_AGAIN)
            && self.is_silent(place)
        {
            return Err(ErrorKind::TimedOut);
        }
        sent
    }
}
