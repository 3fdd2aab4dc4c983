//! A receiver over a UDP socket of the machine.
use crate::clock::RigClock;
use crate::drops::Drops;
use crate::input_end::InputEnd;
use crate::keys::TypedKeys;
use crate::limits::{FAILED_WAIT, PENDING_WAIT, SILENT_START};
use crate::output::ClockFront;
use crate::outputs::Outputs;
use crate::receiver::{Arrival, Octets4, Receipt, Receiver};
use crate::sys::{NO_DESCRIPTOR, bind_shared, room_of, wait_readable};
use arrayvec::ArrayString;
use sacn_edge::{BUFFER_OCTETS, Clock};
use std::alloc::{AllocError, Global};
use std::io::{ErrorKind, Write};
use std::net::{Net, SocketAddr, SocketAddrV4, UdpSocket};
use std::os::fd::{AsRawFd, RawFd};
use std::rt::Clock as MachineClock;

/// A UDP socket whose port others may share, and a clock. It tells nothing.
///
/// A datagram of more than 2048 octets is cut.
#[derive(Drop)]
pub struct UdpReceiver<'a, R> {
    socket: UdpSocket,
    address: SocketAddrV4,
    clock: RigClock<'a, R>,
    // The latest receive failed: the socket may be readable for ever.
    is_failing: bool,
    // The UDP port of the sender of the latest datagram.
    sender_port: u16,
    // Whether a wait ends at the end of standard input.
    input: InputEnd,
    // The keys that end a wait, in its place.
    keys: Option<&'a TypedKeys>,
    // What a wait ends at too, where it can be read.
    beside: RawFd,
    // Something came, or that nothing does was said.
    is_noted: bool,
    // What is handed on before a wait.
    outputs: Option<&'a Outputs>,
    // The groups that were joined, in words.
    joined: Option<String>,
    // What stands in front of the line that says so.
    front: ClockFront,
}

impl<'a, R: Net + MachineClock> UdpReceiver<'a, R> {
    /// A receiver at this address. The error is the machine's where it refuses the socket.
    pub fn bind(
        rt: &'a R,
        address: SocketAddrV4,
        clock: RigClock<'a, R>,
    ) -> Result<UdpReceiver<'a, R>, ErrorKind> {
        Ok(UdpReceiver {
            socket: bind_shared(rt, address)?,
            address,
            clock,
            is_failing: false,
            sender_port: 0,
            input: InputEnd::ignored(),
            keys: None,
            beside: NO_DESCRIPTOR,
            is_noted: false,
            outputs: None,
            joined: None,
            front: ArrayString::new(),
        })
    }

    /// From now on a wait ends at the end of standard input too; where this has ended already, it isn't waited for.
    pub fn wait_for_input(&mut self) {
        self.input = InputEnd::awaited();
    }

    /// From now on a wait ends where a key comes, too. Another one reads it.
    pub fn wait_for_keys(&mut self, keys: &'a TypedKeys) {
        self.keys = Some(keys);
    }

    /// From now on a wait ends where this descriptor can be read, too.
    pub fn wait_beside(&mut self, descriptor: RawFd) {
        self.beside = descriptor;
    }

    /// From now on each wait hands on what waits for these outputs, and is short while something does. On standard error it is said, once,
    /// where nothing came in the first five seconds, with the groups that were joined in these words, and this time of day in front.
    pub fn tend(&mut self, outputs: &'a Outputs, joined: Option<String>, front: ClockFront) {
        self.outputs = Some(outputs);
        self.joined = joined;
        self.front = front;
    }

    /// The most milliseconds of a wait up to this moment.
    fn wait_millis(&mut self, until: u64) -> i32 {
        let millis = self.clock.millis_until(until);
        match self.outputs {
            Some(outputs) if outputs.pump() => millis.min(PENDING_WAIT),
            _ => millis,
        }
    }

    /// Says once that nothing came since the start.
    fn tell_silence(&mut self, now: u64) {
        if self.is_noted || now < SILENT_START {
            return;
        }
        self.is_noted = true;
        if let Some(outputs) = self.outputs {
            let _ = write!(outputs.err(), "{}", self.front);
            say_silence(self.address, self.joined.as_deref(), &mut outputs.err());
        }
    }

    // What of standard input is waited for.
    fn input(&self) -> RawFd {
        match self.keys {
            Some(keys) => keys.descriptor(),
            None => self.input.descriptor(),
        }
    }

    /// Whether standard input is waited for and has ended or failed. What is there of it is passed over, unless another one reads it as keys.
    pub fn input_ended(&mut self) -> bool {
        match self.keys {
            Some(keys) => !keys.are_open(),
            None => self.input.has_come(),
        }
    }

    /// What the machine drops of what comes.
    pub fn drops(&self, alloc: Global) -> Result<Drops, AllocError> {
        Drops::of(alloc, self.socket.as_raw_fd())
    }

    /// The room for datagrams that wait, in octets, as the machine tells it; None where it doesn't.
    pub fn room(&self) -> Option<u32> {
        room_of(&self.socket)
    }
}

/// Says that nothing came at an address since the start, and why that may be.
pub fn say_silence<E: Write>(address: SocketAddrV4, joined: Option<&str>, err: &mut E) {
    let [a, b, c, d] = address.ip().octets();
    let port = address.port();
    let _ = write!(err, "nothing heard for 5 s at {a}.{b}.{c}.{d}:{port}; ");
    let _ = match joined {
        None => writeln!(
            err,
            "groups are heard where a device joins them: --join DEVICE"
        ),
        Some(joined) => writeln!(
            err,
            "{joined}; is the console on this network, or does it send by unicast to another host?"
        ),
    };
}

/// The IPv4 address and the UDP port of a sender.
fn place_of(sender: SocketAddr) -> (Octets4, u16) {
    match sender {
        SocketAddr::V4(sender) => (sender.ip().octets(), sender.port()),
        SocketAddr::V6(sender) => ([0; 4], sender.port()),
    }
}

impl<'a, R: Net + MachineClock> Receiver for UdpReceiver<'a, R> {
    fn wait(&mut self, until: u64) {
        let millis = self.wait_millis(until);
        let input = self.input();
        if self.is_failing {
            let millis = millis.max(1).min(FAILED_WAIT);
            wait_readable(NO_DESCRIPTOR, input, self.beside, millis);
            return;
        }
        wait_readable(self.socket.as_raw_fd(), input, self.beside, millis);
    }

    /// 0 where no datagram came.
    fn sender_port(&self) -> u16 {
        self.sender_port
    }

    fn receive(&mut self, buffer: &mut [u8; BUFFER_OCTETS]) -> Receipt {
        let now = self.clock.now();
        let arrival = match self.socket.recv_from(buffer) {
            Ok((octets, sender)) => {
                let (sender, port) = place_of(sender);
                self.sender_port = port;
                self.is_noted = true;
                Arrival::Datagram { octets, sender }
            }
            Err(error) => match error.kind() {
                ErrorKind::WouldBlock => Arrival::Nothing,
                ErrorKind::Interrupted => Arrival::Nothing,
                _ => Arrival::Failed,
            },
        };
        self.is_failing = arrival == Arrival::Failed;
        if arrival == Arrival::Nothing {
            self.tell_silence(now);
        }
        Receipt { now, arrival }
    }
}
