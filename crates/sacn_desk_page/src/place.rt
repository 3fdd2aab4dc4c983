//! A place for one connection of a browser, which asks or orders once.

use crate::limits::{LEAVE_TIME, MAX_BODY, REQUEST_TIME, STALL_TIME};
use crate::request::{DeskRefusal, DeskRequest, read_request};
use crate::response::{MediaType, push_answer, push_refusal};
use sacn_page::{Connection, Hosts, MAX_HEAD};
use std::alloc::{AllocError, Global};
use std::io::ErrorKind;

/// The octets of one receive.
const CHUNK: usize = 2048;

/// The most receives of one turn. A caller that sends more than they take is closed.
const MAX_RECEIVES: usize = 64;

/// The most writes of one turn.
const MAX_WRITES: usize = 64;

/// The most octets of a request.
const INPUT_ROOM: usize = MAX_HEAD + MAX_BODY;

/// More octets than an answer of its own has.
const OUTPUT_ROOM: usize = 8192;

/// How far a connection is.
#[derive(Clone, Copy, PartialEq, Eq)]
pub(crate) enum Phase {
    /// There is none.
    Free,
    /// Its request isn't complete.
    Asking,
    /// Its order is refused, and the answer waits.
    Delayed,
    /// Its order, of this ticket, is in work.
    Ordered(u64),
    /// It has its last octets to take.
    Answered,
    /// It took all; what it still sends is passed over until it closes its end.
    Leaving,
}

/// An answer that all are given alike.
#[derive(Clone, Copy, PartialEq, Eq)]
pub enum Shared {
    Nothing,
    Page,
    Cues,
}

/// The answers that all are given alike.
#[derive(Drop)]
pub struct Texts {
    pub page: String,
    pub cues: String,
}

impl Texts {
    fn octets(&self, shared: Shared) -> &[u8] {
        match shared {
            Shared::Nothing => b"",
            Shared::Page => self.page.as_bytes(),
            Shared::Cues => self.cues.as_bytes(),
        }
    }
}

/// A connection, and the names under which it may ask.
#[derive(Drop)]
struct Caller<C> {
    connection: C,
    hosts: Hosts,
}

/// A place, with all the room that a connection there needs.
#[derive(Drop)]
pub(crate) struct Place<C> {
    caller: Option<Caller<C>>,
    phase: Phase,
    input: Vec<u8>,
    /// An answer of its own.
    output: String,
    shared: Shared,
    /// How many octets of the answer went.
    sent: usize,
    /// The other side sends nothing more.
    has_ended: bool,
    /// The moment at which it is answered or closed where nothing happens.
    deadline: u64,
}

impl<C: Connection + Drop> Place<C> {
    /// A place where none is.
    ///
    /// Errors: OutOfMemory.
    pub fn new(alloc: Global) -> Result<Self, AllocError> {
        Ok(Place {
            caller: None,
            phase: Phase::Free,
            input: Vec::with_capacity(alloc, INPUT_ROOM)?,
            output: String::with_capacity(alloc, OUTPUT_ROOM)?,
            shared: Shared::Nothing,
            sent: 0,
            has_ended: false,
            deadline: u64::MAX,
        })
    }

    /// How far its connection is.
    pub fn phase(&self) -> Phase {
        self.phase
    }

    /// The moment at which it is answered or closed where nothing happens; `u64::MAX` where it never is.
    pub fn deadline(&self) -> u64 {
        self.deadline
    }

    /// The octets of its request.
    pub fn input(&self) -> &[u8] {
        self.input.as_slice()
    }

    /// Takes a connection that came at a moment, which may ask under these names.
    pub fn admit(&mut self, connection: C, hosts: Hosts, now: u64) {
        self.caller = Some(Caller { connection, hosts });
        self.phase = Phase::Asking;
        self.input.clear();
        self.output.clear();
        self.shared = Shared::Nothing;
        self.sent = 0;
        self.has_ended = false;
        self.deadline = now.saturating_add(REQUEST_TIME);
    }

    /// Lets it go.
    pub fn clear(&mut self) {
        self.caller = None;
        self.phase = Phase::Free;
        self.deadline = u64::MAX;
    }

    // The connection is over. A delay goes on, so that nobody tries keys at more places than there are.
    fn lose(&mut self) {
        self.caller = None;
        if self.phase != Phase::Delayed {
            self.clear();
        }
    }

    /// Takes what it sent, and answers what is known of its request, where that is still open. Octets behind the request are passed over.
    pub fn hear(&mut self, key: &[u8]) -> DeskRequest {
        let mut reading = DeskRequest::More;
        let mut chunk = [0; CHUNK];
        for _ in 0..MAX_RECEIVES {
            match self.receive(&mut chunk) {
                Some(0) => {
                    self.has_ended = true;
                    return self.conclude(reading);
                }
                Some(count) => {
                    if (self.phase == Phase::Asking) & (reading == DeskRequest::More) {
                        reading = self.gather(&chunk[..count.min(CHUNK)], key);
                    }
                }
                None => return reading,
            }
        }
        self.lose();
        DeskRequest::More
    }

    // Gathers octets of its request.
    fn gather(&mut self, octets: &[u8], key: &[u8]) -> DeskRequest {
        let room = INPUT_ROOM.saturating_sub(self.input.len());
        let kept = &octets[..octets.len().min(room)];
        if self.input.extend_from_slice(kept).is_err() {
            return DeskRequest::Refused(DeskRefusal::Busy);
        }
        match &self.caller {
            Some(caller) => read_request(self.input.as_slice(), &caller.hosts, key),
            None => DeskRequest::More,
        }
    }

    // What is known of its request, where it sends nothing more.
    fn conclude(&mut self, reading: DeskRequest) -> DeskRequest {
        match self.phase {
            Phase::Asking => match reading {
                DeskRequest::More if self.input.is_empty() => {
                    self.lose();
                    DeskRequest::More
                }
                DeskRequest::More => DeskRequest::Refused(DeskRefusal::Malformed),
                known => known,
            },
            Phase::Leaving => {
                self.lose();
                DeskRequest::More
            }
            _ => reading,
        }
    }

    // The number of octets that came, 0 at their end; None where there is nothing now.
    fn receive(&mut self, chunk: &mut [u8; CHUNK]) -> Option<usize> {
        let caller = match &mut self.caller {
            Some(caller) => caller,
            None => return None,
        };
        match caller.connection.read(chunk) {
            Ok(count) => Some(count),
            Err(error) => match error.kind() {
                ErrorKind::WouldBlock => None,
                ErrorKind::Interrupted => None,
                _ => {
                    self.lose();
                    None
                }
            },
        }
    }

    /// Its order is in work, under this ticket.
    pub fn note_order(&mut self, ticket: u64) {
        self.phase = Phase::Ordered(ticket);
        self.deadline = u64::MAX;
    }

    /// Its order is refused, and the answer waits until a moment.
    pub fn delay(&mut self, until: u64) {
        self.phase = Phase::Delayed;
        self.deadline = until;
    }

    /// Gives it an answer of its own. One for which there is no memory ends the connection.
    pub fn give(&mut self, media_type: MediaType, body: &str, texts: &Texts, now: u64) {
        self.output.clear();
        let is_written = push_answer(&mut self.output, media_type, body).is_ok();
        self.begin(Shared::Nothing, is_written, texts, now);
    }

    /// Gives it what all are given alike.
    pub fn give_shared(&mut self, shared: Shared, texts: &Texts, now: u64) {
        self.output.clear();
        self.begin(shared, true, texts, now);
    }

    /// Refuses its request.
    pub fn refuse(&mut self, refusal: DeskRefusal, texts: &Texts, now: u64) {
        self.output.clear();
        let is_written = push_refusal(&mut self.output, refusal).is_ok();
        self.begin(Shared::Nothing, is_written, texts, now);
    }

    // Begins its answer, where that could be written.
    fn begin(&mut self, shared: Shared, is_written: bool, texts: &Texts, now: u64) {
        if !is_written || self.caller.is_none() {
            self.clear();
            return;
        }
        self.phase = Phase::Answered;
        self.shared = shared;
        self.sent = 0;
        self.deadline = now.saturating_add(STALL_TIME);
        self.send(texts, now);
    }

    // Writes some of its answer: how many octets went, 0 where none were left, and None where it takes none now.
    fn write(&mut self, texts: &Texts) -> Option<usize> {
        let caller = match &mut self.caller {
            Some(caller) => caller,
            None => return None,
        };
        let own = self.output.as_bytes();
        let all = if own.is_empty() {
            texts.octets(self.shared)
        } else {
            own
        };
        let rest = &all[self.sent.min(all.len())..];
        if rest.is_empty() {
            return Some(0);
        }
        match caller.connection.write(rest) {
            Ok(count) if count > 0 => Some(count),
            Err(error) if error.kind() == ErrorKind::WouldBlock => None,
            _ => {
                self.lose();
                None
            }
        }
    }

    /// Sends what its connection takes now.
    pub fn send(&mut self, texts: &Texts, now: u64) {
        for _ in 0..MAX_WRITES {
            if self.phase != Phase::Answered {
                return;
            }
            match self.write(texts) {
                Some(0) => return self.leave(now),
                Some(count) => {
                    self.sent = self.sent.saturating_add(count);
                }
                None => return,
            }
        }
    }

    // All went.
    fn leave(&mut self, now: u64) {
        if self.has_ended {
            return self.clear();
        }
        if let Some(caller) = &mut self.caller {
            caller.connection.finish();
        }
        self.phase = Phase::Leaving;
        self.deadline = now.saturating_add(LEAVE_TIME);
    }
}
