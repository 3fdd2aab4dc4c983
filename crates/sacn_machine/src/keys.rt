//! Keys that are typed, for who shows something on a terminal.
use crate::sys::{NO_DESCRIPTOR, STDIN, is_readable, read_input};
use std::cell::RefCell;
use std::os::fd::RawFd;

/// The most octets of keys that are read at once.
pub const MAX_KEYS: usize = 64;

/// Standard input, of which one reads keys while another waits for them.
#[derive(Drop)]
pub struct TypedKeys {
    is_open: RefCell<bool>,
}

/// What is there of standard input.
#[derive(Clone, Copy, PartialEq, Eq)]
pub enum Typed {
    /// Nothing now.
    Nothing,
    /// So many octets were read.
    Octets(usize),
    /// It has ended, or failed.
    End,
}

impl TypedKeys {
    /// Keys come of standard input, until it ends.
    pub fn new() -> TypedKeys {
        TypedKeys {
            is_open: RefCell::new(true),
        }
    }

    /// Whether standard input goes on.
    pub fn are_open(&self) -> bool {
        match self.is_open.try_borrow() {
            Ok(is_open) => *is_open,
            Err(_) => false,
        }
    }

    /// What can be read where a key comes: standard input, or no descriptor once it has ended.
    pub fn descriptor(&self) -> RawFd {
        if self.are_open() {
            STDIN
        } else {
            NO_DESCRIPTOR
        }
    }

    /// Reads the keys that are there, as many as there is room for.
    pub fn read(&self, octets: &mut [u8; MAX_KEYS]) -> Typed {
        if !self.are_open() {
            return Typed::End;
        }
        if !is_readable(STDIN) {
            return Typed::Nothing;
        }
        match read_input(octets) {
            Some(count) if count > 0 => Typed::Octets(count),
            _ => {
                self.close();
                Typed::End
            }
        }
    }

    fn close(&self) {
        if let Ok(mut is_open) = self.is_open.try_borrow_mut() {
            *is_open = false;
        }
    }
}
