//! The server of a desk's page.

use crate::callers::{Callers, Desk};
use crate::request::DeskRefusal;
use crate::response::push_refusal;
use mio::net::{TcpListener, TcpStream};
use mio::{Events, Interest, Poll, Token};
use sacn_console::Show;
use std::alloc::Global;
use std::io::{self, ErrorKind, Read, Write};
use std::net::{Net, SocketAddr, SocketAddrV4};
use std::os::fd::{AsRawFd, RawFd};
use std::time::Duration;

const LISTENER: Token = Token(usize::MAX);

/// The most connections that are taken in one turn.
const MAX_CALLS: usize = 16;

/// The most readinesses that are looked at in one turn.
const MAX_EVENTS: usize = 8;

/// The milliseconds after which a server that could take no connection tries again.
const RETRY: u64 = 1000;

/// More octets than a refusal has.
const REFUSAL_ROOM: usize = 1024;

/// The most octets of a request that are read of a caller for which there is no place.
const UNREAD: usize = 2048;

/// Serves a desk's page to browsers, and takes orders from it.
#[derive(Drop)]
pub struct DeskPage {
    callers: Callers<TcpStream>,
    address: SocketAddrV4,
    listener: TcpListener,
    poll: Poll,
    events: Events,
    /// What a caller is told for which there is no place.
    no_place: String,
    /// Connections may be waiting from this moment on.
    calls: u64,
}

impl DeskPage {
    /// A server at this address of the page of a desk that plays this show, which orders by this key.
    ///
    /// Errors: the machine's, where it refuses the socket; OutOfMemory.
    pub fn bind<R: Net>(
        rt: &R,
        alloc: Global,
        address: SocketAddrV4,
        show: &Show,
        key: &str,
    ) -> Result<Self, ErrorKind> {
        match DeskPage::open(rt, alloc, address, show, key) {
            Ok(page) => Ok(page),
            Err(error) => Err(error.kind()),
        }
    }

    fn open<R: Net>(
        rt: &R,
        alloc: Global,
        address: SocketAddrV4,
        show: &Show,
        key: &str,
    ) -> io::Result<Self> {
        let callers = Callers::new(alloc, show, key)?;
        let mut no_place = String::with_capacity(alloc, REFUSAL_ROOM)?;
        push_refusal(&mut no_place, DeskRefusal::Busy)?;
        let poll = Poll::new(rt)?;
        let events = Events::with_capacity(alloc, MAX_EVENTS)?;
        let mut listener = TcpListener::bind(rt, SocketAddr::V4(address))?;
        poll.registry()
            .register(&mut listener, LISTENER, Interest::READABLE)?;
        Ok(DeskPage {
            callers,
            address,
            listener,
            poll,
            events,
            no_place,
            calls: u64::MAX,
        })
    }

    /// A descriptor that can be read where a browser calls, or takes what it is sent.
    pub fn descriptor(&self) -> RawFd {
        self.poll.as_raw_fd()
    }

    /// Where it is served.
    pub fn address(&self) -> SocketAddrV4 {
        self.address
    }

    /// The moment at which there is something to do, where nothing comes, in milliseconds; `u64::MAX` where there never is.
    pub fn wakes(&self) -> u64 {
        self.callers.wakes().min(self.calls)
    }

    /// Does what browsers wait for, as much as one turn takes.
    pub fn turn(&mut self, desk: Desk<'_>) {
        let _ = self.poll.poll(&mut self.events, Some(Duration::ZERO));
        let mut calls = self.calls <= desk.now;
        for event in self.events.iter() {
            let token = event.token();
            if token == LISTENER {
                calls = true;
            } else {
                self.callers.serve(token.0, desk);
            }
        }
        self.callers.answer_order(desk);
        self.callers.refuse_dropped(desk);
        self.callers.tick(desk.now);
        if calls {
            self.accept(desk);
        }
    }

    // Takes the connections that wait.
    fn accept(&mut self, desk: Desk<'_>) {
        self.calls = desk.now;
        for _ in 0..MAX_CALLS {
            match self.listener.accept() {
                Ok((stream, _)) => self.admit(stream, desk),
                Err(error) => match error.kind() {
                    ErrorKind::WouldBlock => {
                        self.calls = u64::MAX;
                        return;
                    }
                    ErrorKind::Interrupted => {}
                    ErrorKind::ConnectionAborted => {}
                    _ => {
                        self.calls = desk.now.saturating_add(RETRY);
                        return;
                    }
                },
            }
        }
    }

    // Takes a connection, and what it has sent by now. One for which no other goes is told that there is no room.
    fn admit(&mut self, mut stream: TcpStream, desk: Desk<'_>) {
        let address = match stream.local_addr() {
            Ok(SocketAddr::V4(address)) => address,
            _ => self.address,
        };
        let Some(number) = self.callers.vacancy(desk) else {
            turn_away(stream, self.no_place.as_bytes());
            return;
        };
        let _ = stream.set_nodelay(true);
        let interests = Interest::READABLE | Interest::WRITABLE;
        let registered = self
            .poll
            .registry()
            .register(&mut stream, Token(number), interests);
        if registered.is_ok()
            && self
                .callers
                .admit(number, stream, address, desk.now)
                .is_ok()
        {
            self.callers.serve(number, desk);
        }
    }
}

// Tells a caller that there is no room for it, and closes it.
fn turn_away(mut stream: TcpStream, answer: &[u8]) {
    let mut unread = [0; UNREAD];
    let _ = stream.read(&mut unread);
    let _ = stream.write(answer);
}
