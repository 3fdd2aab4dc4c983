//! The end of a watch where it is asked for.

ghost use Rattle.std.specs.Prelude.{◌≡◌};

use crate::listener::Listener;
use sacn_edge::BUFFER_OCTETS;
use sacn_machine::{Receipt, Receiver};
use std::cell::RefCell;

/// Whether the end of a watch was asked for.
#[derive(Drop)]
pub struct Leaving {
    is_asked: RefCell<bool>,
}

impl Leaving {
    /// It wasn't.
    pub fn new() -> Leaving {
        Leaving {
            is_asked: RefCell::new(false),
        }
    }

    /// It is.
    pub fn ask(&self) {
        if let Ok(mut is_asked) = self.is_asked.try_borrow_mut() {
            *is_asked = true;
        }
    }

    /// Whether it was.
    pub fn is_asked(&self) -> bool {
        match self.is_asked.try_borrow() {
            Ok(is_asked) => *is_asked,
            Err(_) => false,
        }
    }
}

/// A listener that ends also where that is asked for.
#[derive(Drop)]
pub struct LeavingListener<'a, L> {
    listener: L,
    leaving: &'a Leaving,
}

impl<'a, L: Listener> LeavingListener<'a, L> {
    /// This listener, which ends where this is asked for.
    pub fn new(listener: L, leaving: &'a Leaving) -> Self {
        LeavingListener { listener, leaving }
    }
}

impl<'a, L: Listener> Receiver for LeavingListener<'a, L> {
    ghost told = { λ r. L.Receiver.told r.listener };

    fn wait(&mut self, until: u64) {
        self.listener.wait(until);
    }

    fn sender_port(&self) -> u16 {
        self.listener.sender_port()
    }

    fn receive(&mut self, buffer: &mut [u8; BUFFER_OCTETS]) -> Receipt {
        self.listener.receive(buffer)
    }
}

/// That it was asked for isn't told, so it may end at any time.
impl<'a, L: Listener> Listener for LeavingListener<'a, L> {
    fn has_ended(&mut self) -> bool {
        self.leaving.is_asked() || self.listener.has_ended()
    }

    fn take_stop(&mut self) -> u64 {
        self.listener.take_stop()
    }
}
