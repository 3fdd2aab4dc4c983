//! The connections of a desk's page, whatever they are.

use crate::documents::{cues_of, push_state};
use crate::limits::{MAX_CALLERS, MAX_DELAYED};
use crate::markup::push_page;
use crate::penalty::Penalty;
use crate::place::{Phase, Place, Shared, Texts};
use crate::request::{DeskRefusal, DeskRequest};
use crate::response::{MediaType, push_answer};
use sacn_console::{ConsoleCore, Show};
use sacn_desk::{MAX_POSTED_ANSWER, PostFault, Postbox};
use sacn_page::{Connection, Hosts};
use std::alloc::{AllocError, Global};
use std::net::SocketAddrV4;
use std::str;

/// More octets than a document of what runs has.
const STATE_ROOM: usize = 4096;

/// What stands behind an answer of which not all was kept.
const CUT: &[u8] = b"\n.. the rest stands at the desk\n";

/// A desk, as its page sees it.
#[derive(Clone, Copy)]
pub struct Desk<'d> {
    pub core: &'d ConsoleCore,
    pub postbox: &'d Postbox,
    /// The moment, in milliseconds.
    pub now: u64,
}

/// The connections of a desk's page, at most `MAX_CALLERS`. Their room is taken at the start.
#[derive(Drop)]
pub struct Callers<C> {
    alloc: Global,
    key: Vec<u8>,
    texts: Texts,
    places: Vec<Place<C>>,
    penalty: Penalty,
    /// The answer to an order.
    answer: Vec<u8>,
    /// What runs.
    state: String,
}

impl<C: Connection + Drop> Callers<C> {
    /// No connection yet, to the desk of a show, which this key orders.
    ///
    /// Errors: OutOfMemory.
    pub fn new(alloc: Global, show: &Show, key: &str) -> Result<Self, AllocError> {
        let mut places = Vec::with_capacity(alloc, MAX_CALLERS)?;
        for _ in 0..MAX_CALLERS {
            places.push(Place::new(alloc)?)?;
        }
        let mut own_key = Vec::with_capacity(alloc, key.len())?;
        own_key.extend_from_slice(key.as_bytes())?;
        Ok(Callers {
            alloc,
            key: own_key,
            texts: texts_of(alloc, show)?,
            places,
            penalty: Penalty::new(),
            answer: Vec::with_capacity(alloc, MAX_POSTED_ANSWER + CUT.len())?,
            state: String::with_capacity(alloc, STATE_ROOM)?,
        })
    }

    /// The number of a place for the next connection; None where there is none. Where all are taken, of those that haven't asked yet or took
    /// all the one goes whose time is up first; one that hasn't asked yet is told that there was no room.
    pub fn vacancy(&mut self, desk: Desk<'_>) -> Option<usize> {
        if let Some(number) = self.free() {
            return Some(number);
        }
        let number = self.first_to_go()?;
        // (what it has sent by now is still taken)
        self.serve(number, desk);
        self.let_go(number, desk.now)
    }

    // Lets the connection of a place go, where it may go.
    fn let_go(&mut self, number: usize, now: u64) -> Option<usize> {
        let place = self.places.get_mut(number)?;
        match place.phase() {
            Phase::Free => {}
            Phase::Leaving => place.clear(),
            Phase::Asking => {
                place.refuse(DeskRefusal::Busy, &self.texts, now);
                place.clear();
            }
            _ => return None,
        }
        Some(number)
    }

    fn free(&self) -> Option<usize> {
        self.places
            .iter()
            .position(|place| place.phase() == Phase::Free)
    }

    // The place whose connection goes first, of those that may go.
    fn first_to_go(&self) -> Option<usize> {
        let mut first = None;
        let mut least = u64::MAX;
        for (number, place) in self.places.iter().enumerate() {
            let may_go = matches!(place.phase(), Phase::Asking | Phase::Leaving);
            if may_go && place.deadline() < least {
                least = place.deadline();
                first = Some(number);
            }
        }
        first
    }

    /// Takes a connection that came to this address, at a place that is free.
    ///
    /// Errors: OutOfMemory.
    pub fn admit(
        &mut self,
        number: usize,
        connection: C,
        address: SocketAddrV4,
        now: u64,
    ) -> Result<(), AllocError> {
        let hosts = Hosts::of(self.alloc, address)?;
        if let Some(place) = self.places.get_mut(number) {
            place.admit(connection, hosts, now);
        }
        Ok(())
    }

    /// Takes what the connection of a place sent, answers it, and sends what it takes.
    pub fn serve(&mut self, number: usize, desk: Desk<'_>) {
        let is_crowded = self.delayed() >= MAX_DELAYED;
        let Some(place) = self.places.get_mut(number) else {
            return;
        };
        let (texts, now) = (&self.texts, desk.now);
        let request = place.hear(self.key.as_slice());
        if is_crowded && is_for_the_key(&request) {
            return place.refuse(DeskRefusal::Busy, texts, now);
        }
        match request {
            DeskRequest::More => place.send(texts, now),
            DeskRequest::Page => place.give_shared(Shared::Page, texts, now),
            DeskRequest::Cues => place.give_shared(Shared::Cues, texts, now),
            DeskRequest::State => tell_state(place, &mut self.state, texts, desk),
            DeskRequest::Order(begin, end) => order(place, (begin, end), texts, desk),
            DeskRequest::Refused(DeskRefusal::Keyless) => {
                place.delay(now.saturating_add(self.penalty.next(now)));
            }
            DeskRequest::Refused(refusal) => place.refuse(refusal, texts, now),
        }
    }

    // At how many places the answer to a refused order waits.
    fn delayed(&self) -> usize {
        self.places
            .iter()
            .filter(|place| place.phase() == Phase::Delayed)
            .count()
    }

    /// Gives the answer to the order that was obeyed last to the one who gave it.
    pub fn answer_order(&mut self, desk: Desk<'_>) {
        let Some(answered) = desk.postbox.take_answer(&mut self.answer) else {
            return;
        };
        if answered.is_cut {
            let _ = self.answer.extend_from_slice(CUT);
        }
        let text = str::from_utf8(self.answer.as_slice()).unwrap_or("");
        for place in self.places.as_mut_slice() {
            if place.phase() == Phase::Ordered(answered.ticket) {
                place.give(MediaType::Text, text, &self.texts, desk.now);
            }
        }
    }

    /// Tells those whose order isn't obeyed any more, since the desk ends.
    pub fn refuse_dropped(&mut self, desk: Desk<'_>) {
        for place in self.places.as_mut_slice() {
            match place.phase() {
                Phase::Ordered(ticket) if desk.postbox.has_dropped(ticket) => {
                    place.refuse(DeskRefusal::Ending, &self.texts, desk.now);
                }
                _ => {}
            }
        }
    }

    /// Answers those whose delay is over, and closes those whose time is up.
    pub fn tick(&mut self, now: u64) {
        for place in self.places.as_mut_slice() {
            if place.deadline() <= now {
                match place.phase() {
                    Phase::Delayed => place.refuse(DeskRefusal::Keyless, &self.texts, now),
                    _ => place.clear(),
                }
            }
        }
    }

    /// The moment at which there is something to do, where nothing comes; `u64::MAX` where there never is.
    pub fn wakes(&self) -> u64 {
        let mut least = u64::MAX;
        for place in self.places.as_slice() {
            least = least.min(place.deadline());
        }
        least
    }
}

// Whether a request was held to the key.
fn is_for_the_key(request: &DeskRequest) -> bool {
    matches!(
        request,
        DeskRequest::Order(_, _) | DeskRequest::Refused(DeskRefusal::Keyless)
    )
}

// The answers that all are given alike.
fn texts_of(alloc: Global, show: &Show) -> Result<Texts, AllocError> {
    let mut body = String::new(alloc);
    push_page(&mut body)?;
    let mut page = String::new(alloc);
    push_answer(&mut page, MediaType::Page, body.as_str())?;
    let mut cues = String::new(alloc);
    push_answer(&mut cues, MediaType::Json, cues_of(alloc, show)?.as_str())?;
    Ok(Texts { page, cues })
}

// Tells what runs.
fn tell_state<C: Connection + Drop>(
    place: &mut Place<C>,
    text: &mut String,
    texts: &Texts,
    desk: Desk<'_>,
) {
    text.clear();
    let is_written = match desk.postbox.state() {
        Some(state) => push_state(text, desk.core, state).is_ok(),
        None => false,
    };
    if is_written {
        place.give(MediaType::Json, text.as_str(), texts, desk.now);
    } else {
        place.refuse(DeskRefusal::Busy, texts, desk.now);
    }
}

// Posts the order that stands in a request from one place to another.
fn order<C: Connection + Drop>(
    place: &mut Place<C>,
    (begin, end): (usize, usize),
    texts: &Texts,
    desk: Desk<'_>,
) {
    let input = place.input();
    let end = end.min(input.len());
    match desk.postbox.post(&input[begin.min(end)..end]) {
        Ok(ticket) => place.note_order(ticket),
        Err(PostFault::NoRoom) => place.refuse(DeskRefusal::Busy, texts, desk.now),
        Err(PostFault::Ending) => place.refuse(DeskRefusal::Ending, texts, desk.now),
    }
}
