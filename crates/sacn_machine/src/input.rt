//! Lines of standard input.
ghost use Rattle.std.specs.Prelude.{◌≤◌};
ghost use Rattle.sacn_machine.specs.declared.input.TheConstants.{PIECE_OCTETS};

use crate::line_buffer::{Gathered, LineBuffer};
use crate::sys::{STDIN, is_readable, read_input};
use std::alloc::{AllocError, Global};

const PIECE_OCTETS: usize = 4096;

/// The most pieces that are read for one line.
const MAX_PIECES: usize = 1024;

/// What standard input has.
#[derive(Clone, Copy)]
pub enum InputState {
    /// No line is there yet.
    Nothing,
    Line,
    End,
    /// No memory is left for a line.
    OutOfMemory,
}

/// Standard input, read in pieces without waiting, and the line that is gathered from it.
#[derive(Drop)]
pub struct TypedInput {
    piece: [u8; PIECE_OCTETS],
    begin: usize,
    len: usize,
    pub line: LineBuffer,
    /// It hasn't ended.
    pub is_open: bool,
    /// At least one octet was read.
    pub was_read: bool,
}

/// Gathers a part of a piece.
fn gather_part(
    line: &mut LineBuffer,
    piece: &[u8; PIECE_OCTETS],
    begin: usize,
    end: usize,
) -> Result<Gathered, AllocError>
    requires order { begin ≤ end }
    requires end { end ≤ PIECE_OCTETS }
{
    line.gather(&piece[begin..end])
}

impl TypedInput {
    /// Standard input of which nothing was read.
    pub fn new(alloc: Global) -> TypedInput {
        TypedInput {
            piece: [0; PIECE_OCTETS],
            begin: 0,
            len: 0,
            line: LineBuffer::new(alloc),
            is_open: true,
            was_read: false,
        }
    }

    /// Whether octets were read that no line has yet.
    pub fn has_more(&self) -> bool {
        self.begin < self.len
    }

    /// Reads a piece where one is there.
    fn read_piece(&mut self) -> bool {
        if !self.is_open || !is_readable(STDIN) {
            return false;
        }
        self.begin = 0;
        self.len = 0;
        match read_input(&mut self.piece) {
            Some(0) => self.is_open = false,
            None => self.is_open = false,
            Some(count) => {
                self.len = count;
                self.was_read = true;
            }
        }
        true
    }

    /// Gathers the octets that are there, up to the end of a line.
    fn gather(&mut self) -> Result<bool, AllocError> {
        if self.begin >= self.len || self.len > PIECE_OCTETS {
            return Ok(false);
        }
        let begin = self.begin;
        self.begin = self.len;
        match gather_part(&mut self.line, &self.piece, begin, self.len)? {
            Gathered::Ended(count) => {
                self.begin = begin.saturating_add(count);
                Ok(true)
            }
            Gathered::Partly => Ok(false),
        }
    }

    /// Reads what is there, up to the end of a line. A line that the end of the input ends is one too.
    pub fn next(&mut self) -> InputState {
        for _ in 0..MAX_PIECES {
            match self.gather() {
                Ok(true) => return InputState::Line,
                Ok(false) => {}
                Err(_) => return InputState::OutOfMemory,
            }
            if !self.is_open {
                return if self.line.is_empty() {
                    InputState::End
                } else {
                    InputState::Line
                };
            }
            if !self.read_piece() {
                return InputState::Nothing;
            }
        }
        InputState::Nothing
    }
}
