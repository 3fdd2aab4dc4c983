//! The end of standard input, for those that end with it.
use crate::sys::{NO_DESCRIPTOR, STDIN, is_readable, read_input};
use std::os::fd::RawFd;

/// The most octets of standard input that are passed over at once.
const PASSED_OCTETS: usize = 256;

/// Whether the end of standard input is waited for.
#[derive(Clone, Copy)]
pub struct InputEnd {
    descriptor: RawFd,
}

impl InputEnd {
    /// It isn't waited for.
    pub fn ignored() -> InputEnd {
        InputEnd {
            descriptor: NO_DESCRIPTOR,
        }
    }

    /// It is waited for, unless standard input has ended already.
    pub fn awaited() -> InputEnd {
        let input = InputEnd { descriptor: STDIN };
        if input.has_come() {
            InputEnd::ignored()
        } else {
            input
        }
    }

    /// What can be read where it comes: standard input, or no descriptor where it isn't waited for.
    pub fn descriptor(&self) -> RawFd {
        self.descriptor
    }

    /// Whether it is waited for and came, or standard input failed. What else is there of it is passed over.
    pub fn has_come(&self) -> bool {
        if self.descriptor == NO_DESCRIPTOR || !is_readable(self.descriptor) {
            return false;
        }
        let mut passed = [0; PASSED_OCTETS];
        match read_input(&mut passed) {
            Some(count) => count == 0,
            None => true,
        }
    }
}
