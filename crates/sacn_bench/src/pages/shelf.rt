//! Where the octets of a recording lie.
use sacn_page::Tape;
use std::io;

/// A recording in memory, which is read anew as often as is wanted.
#[derive(Drop)]
pub struct Shelf<'a> {
    pub octets: &'a [u8],
}

impl<'a> Tape for Shelf<'a> {
    type Reader = &'a [u8];

    fn rewind(&mut self) -> io::Result<&'a [u8]> {
        Ok(self.octets)
    }
}
