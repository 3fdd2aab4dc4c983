//! A digest of all that a workload gives.
use std::alloc::{AllocError, Global};
use std::io::{self, Write};

/// The octets that are kept before they are mixed in.
const ROOM: usize = 65_536;

/// The octets that are mixed in at once: a word of eight for each lane.
const BLOCK: usize = 32;

/// An odd number with as many ones as zeros.
const FACTOR: u64 = 0x9e37_79b9_7f4a_7c15;

/// A digest of octets, which says nothing of the pieces in which they came. It is none against a forger.
#[derive(Drop)]
pub struct Digest {
    lanes: [u64; 4],
    waiting: Vec<u8>,
}

impl Digest {
    /// The digest of no octets.
    pub fn new(alloc: Global) -> Result<Self, AllocError> {
        Ok(Digest {
            lanes: [1, 2, 3, 4],
            waiting: Vec::with_capacity(alloc, ROOM)?,
        })
    }

    /// More octets.
    pub fn take(&mut self, octets: &[u8]) -> Result<(), AllocError> {
        self.waiting.extend_from_slice(octets)?;
        if self.waiting.len() >= ROOM {
            self.mix();
        }
        Ok(())
    }

    /// A number more.
    pub fn count(&mut self, number: u64) -> Result<(), AllocError> {
        self.take(&number.to_le_bytes())
    }

    /// The digest of all octets so far.
    pub fn value(&mut self) -> Result<u64, AllocError> {
        let left = self.waiting.len() as u64;
        self.count(left)?;
        self.take(&[0; BLOCK])?;
        self.mix();
        let mut value = 0;
        for lane in &self.lanes {
            value = mixed(value, *lane);
        }
        Ok(value)
    }

    // Mixes in all whole blocks that wait.
    fn mix(&mut self) {
        let (blocks, _) = self.waiting.as_slice().as_chunks::<BLOCK>();
        for block in blocks {
            let (words, _) = block.as_chunks::<8>();
            for (lane, word) in self.lanes.iter_mut().zip(words) {
                *lane = mixed(*lane, u64::from_le_bytes(*word));
            }
        }
        let whole = self.waiting.len() - self.waiting.len() % BLOCK;
        self.waiting.rotate_left(whole);
        self.waiting.truncate(self.waiting.len() - whole);
    }
}

fn mixed(lane: u64, word: u64) -> u64 {
    (lane ^ word).wrapping_mul(FACTOR).rotate_left(29)
}

impl Write for Digest {
    fn write(&mut self, buf: &[u8]) -> io::Result<usize> {
        self.take(buf)?;
        Ok(buf.len())
    }

    fn flush(&mut self) -> io::Result<()> {
        Ok(())
    }
}
