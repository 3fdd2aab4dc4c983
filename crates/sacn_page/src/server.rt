//! A server of pages beside a watch, and a listener that hears nothing, for a page of a recording.

use crate::audience::Audience;
use crate::scene::Scene;
use crate::viewer::Connection;
use mio::net::{TcpListener, TcpStream};
use mio::{Events, Interest, Poll, Token};
use sacn_edge::{BUFFER_OCTETS, Clock};
use sacn_machine::sys::{NO_DESCRIPTOR, wait_readable};
use sacn_machine::{Arrival, InputEnd, Receipt, Receiver, RigClock};
use sacn_monitor::Endpoint;
use sacn_packets::Reading;
use sacn_watch::{Listener, WatchFault, Watcher};
use std::alloc::Global;
use std::io::{self, ErrorKind};
use std::net::{Net, Shutdown, SocketAddr, SocketAddrV4};
use std::os::fd::{AsRawFd, RawFd};
use std::rt::Clock as MachineClock;
use std::time::Duration;

const LISTENER: Token = Token(usize::MAX);

/// The most connections that are taken in one turn.
const MAX_CALLS: usize = 16;

/// The most readinesses that are looked at in one turn.
const MAX_EVENTS: usize = 8;

/// The milliseconds after which a server that could take no connection tries again.
const RETRY: u64 = 1000;

impl Connection for TcpStream {
    fn finish(&mut self) {
        let _ = self.shutdown(Shutdown::Write);
    }
}

/// Serves the page of a network or of a recording to browsers.
#[derive(Drop)]
pub struct Pages<S: Scene + Drop> {
    audience: Audience<TcpStream, S>,
    address: SocketAddrV4,
    listener: TcpListener,
    poll: Poll,
    events: Events,
    /// Connections may be waiting from this moment on.
    calls: u64,
}

impl<S: Scene + Drop> Pages<S> {
    /// A server of this scene at this address.
    ///
    /// Errors: the machine's, where it refuses the socket; OutOfMemory.
    pub fn bind<R: Net>(
        rt: &R,
        alloc: Global,
        address: SocketAddrV4,
        scene: S,
    ) -> Result<Self, ErrorKind> {
        match Pages::open(rt, alloc, address, scene) {
            Ok(pages) => Ok(pages),
            Err(error) => Err(error.kind()),
        }
    }

    fn open<R: Net>(rt: &R, alloc: Global, address: SocketAddrV4, scene: S) -> io::Result<Self> {
        let audience = Audience::new(alloc, scene)?;
        let poll = Poll::new(rt)?;
        let events = Events::with_capacity(alloc, MAX_EVENTS)?;
        let mut listener = TcpListener::bind(rt, SocketAddr::V4(address))?;
        poll.registry()
            .register(&mut listener, LISTENER, Interest::READABLE)?;
        Ok(Pages {
            audience,
            address,
            listener,
            poll,
            events,
            calls: u64::MAX,
        })
    }

    /// A descriptor that can be read where a browser calls, or takes what it is sent.
    pub fn descriptor(&self) -> RawFd {
        self.poll.as_raw_fd()
    }

    // Takes the connections that wait.
    fn accept(&mut self, now: u64) {
        self.calls = now;
        for _ in 0..MAX_CALLS {
            match self.listener.accept() {
                Ok((stream, _)) => self.admit(stream, now),
                Err(error) => match error.kind() {
                    ErrorKind::WouldBlock => {
                        self.calls = u64::MAX;
                        return;
                    }
                    ErrorKind::Interrupted => {}
                    ErrorKind::ConnectionAborted => {}
                    _ => {
                        self.calls = now.saturating_add(RETRY);
                        return;
                    }
                },
            }
        }
    }

    // Takes a connection, and what it has sent by now. One for which no other goes is told that there is no room.
    fn admit(&mut self, mut stream: TcpStream, now: u64) {
        let address = match stream.local_addr() {
            Ok(SocketAddr::V4(address)) => address,
            _ => self.address,
        };
        self.audience.make_place(now);
        let Some(key) = self.audience.vacancy() else {
            let _ = self.audience.turn_away(stream, address, now);
            return;
        };
        let _ = stream.set_nodelay(true);
        let interests = Interest::READABLE | Interest::WRITABLE;
        let registered = self
            .poll
            .registry()
            .register(&mut stream, Token(key), interests);
        if registered.is_ok() && self.audience.admit(stream, address, now).is_ok() {
            self.audience.serve(key, now);
        }
    }

    // Does what browsers wait for.
    fn serve(&mut self, now: u64) -> Result<(), WatchFault> {
        let _ = self.poll.poll(&mut self.events, Some(Duration::ZERO));
        let mut calls = self.calls <= now;
        for event in self.events.iter() {
            let token = event.token();
            if token == LISTENER {
                calls = true;
            } else {
                self.audience.serve(token.0, now);
            }
        }
        if calls {
            self.accept(now);
        }
        Ok(())
    }
}

impl<S: Scene + Drop> Watcher for Pages<S> {
    fn take(
        &mut self,
        now: u64,
        sender: Endpoint,
        reading: &Reading<'_>,
    ) -> Result<(), WatchFault> {
        self.audience.take(now, sender, reading)?;
        Ok(())
    }

    fn note_stop(&mut self, now: u64, millis: u64) -> Result<(), WatchFault> {
        self.audience.note_stop(now, millis);
        Ok(())
    }

    fn show(&mut self, now: u64) -> Result<(), WatchFault> {
        self.audience.tick(now);
        self.serve(now)?;
        self.audience.show(now);
        Ok(())
    }

    fn wakes(&self) -> u64 {
        self.audience.wakes().min(self.calls)
    }

    fn end(&mut self, _now: u64) -> Result<(), WatchFault> {
        Ok(())
    }
}

// Where a server of a recording waits: it hears nothing.

/// A clock that hears nothing. Its waits end where another descriptor can be read, and at the end of standard input, unless that had
/// ended before the start.
#[derive(Drop)]
pub struct Quiet<'a, R> {
    clock: RigClock<'a, R>,
    beside: RawFd,
    input: InputEnd,
}

impl<'a, R: MachineClock> Quiet<'a, R> {
    /// A clock that waits for nothing yet but the end of standard input.
    pub fn new(clock: RigClock<'a, R>) -> Quiet<'a, R> {
        Quiet {
            clock,
            beside: NO_DESCRIPTOR,
            input: InputEnd::awaited(),
        }
    }

    /// From now on a wait ends where this descriptor can be read, too.
    pub fn wait_beside(&mut self, descriptor: RawFd) {
        self.beside = descriptor;
    }
}

impl<'a, R: MachineClock> Receiver for Quiet<'a, R> {
    fn wait(&mut self, until: u64) {
        let millis = self.clock.millis_until(until);
        wait_readable(NO_DESCRIPTOR, self.input.descriptor(), self.beside, millis);
    }

    fn sender_port(&self) -> u16 {
        0
    }

    fn receive(&mut self, _buffer: &mut [u8; BUFFER_OCTETS]) -> Receipt {
        Receipt {
            now: self.clock.now(),
            arrival: Arrival::Nothing,
        }
    }
}

impl<'a, R: MachineClock> Listener for Quiet<'a, R> {
    fn has_ended(&mut self) -> bool {
        self.input.has_come()
    }

    fn take_stop(&mut self) -> u64 {
        0
    }
}
