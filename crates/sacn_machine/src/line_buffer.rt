//! Lines out of octets that come in pieces.
ghost use Rattle.std.specs.Prelude.{◌≤◌, length, IfOk};
ghost use Rattle.sacn_machine.specs.Gathering.{IsWithin};

use std::alloc::{AllocError, Global};

/// The most octets of a line.
pub const LONGEST_LINE: usize = 65_536;

/// A line that is being gathered.
#[derive(Drop)]
pub struct LineBuffer {
    octets: Vec<u8>,
    is_long: bool,
}

/// What a piece did to a line.
#[derive(Clone, Copy, PartialEq, Eq)]
pub enum Gathered {
    /// The line goes on after the piece.
    Partly,
    /// So many octets of the piece ended the line, its LF among them.
    Ended(usize),
}

/// Where the first LF of a piece stands, or its end.
fn line_end(piece: &[u8]) -> usize
    ensures { result ≤ length piece.now }
{
    match piece.iter().position(|octet| *octet == b'\n') {
        Some(end) => end,
        None => piece.len(),
    }
}

impl LineBuffer {
    /// No octet came yet.
    pub fn new(alloc: Global) -> LineBuffer {
        LineBuffer {
            octets: Vec::new(alloc),
            is_long: false,
        }
    }

    /// Adds the octets of a piece up to the end of the line. What is past `LONGEST_LINE` octets of a line is left out, and the line
    /// is then known to be too long.
    pub fn gather(&mut self, piece: &[u8]) -> Result<Gathered, AllocError>
        ensures { IfOk result (λ gathered. IsWithin gathered piece.now) }
    {
        let end = line_end(piece);
        if self.octets.len() > LONGEST_LINE || end > LONGEST_LINE - self.octets.len() {
            self.is_long = true;
        } else {
            self.octets.extend_from_slice(&piece[..end])?;
        }
        if end < piece.len() {
            Ok(Gathered::Ended(end + 1))
        } else {
            Ok(Gathered::Partly)
        }
    }

    /// The line's octets without its LF and a CR before that, or None where it is too long.
    pub fn line(&self) -> Option<&[u8]> {
        if self.is_long {
            return None;
        }
        let octets = self.octets.as_slice();
        match octets.split_last() {
            Some((b'\r', rest)) => Some(rest),
            _ => Some(octets),
        }
    }

    /// Whether octets of a line that hasn't ended are there.
    pub fn is_empty(&self) -> bool {
        self.octets.is_empty() && !self.is_long
    }

    /// Begins the next line.
    pub fn clear(&mut self) {
        self.octets.clear();
        self.is_long = false;
    }
}
