//! Pages of universe discovery (E1.31, 8), as records of a recording.
ghost use Rattle.std.specs.Prelude.{◌≤◌};

/// The numbers of a page.
pub const NUMBERS: usize = 250;

/// The octets of a datagram of so many numbers, and of its record.
const LENGTH: usize = 120 + 2 * NUMBERS;

pub const RECORD: usize = 58 + LENGTH;

/// Where the lengths of what a record holds stand: of the datagram in IPv4, of that in UDP, and of the layers from the root on.
const PACKET_LENGTH: usize = 32;

const DATAGRAM_LENGTH: usize = 54;

const ROOT_LENGTH: usize = 58 + 16;

const FRAMING_LENGTH: usize = 58 + 38;

const LAYER_LENGTH: usize = 58 + 112;

const CID: usize = 58 + 22;

const PAGE: usize = 58 + 118;

const UNIVERSES: usize = 58 + 120;

/// Before a datagram of 620 octets, as before a data packet.
const FRONT: [u8; 58] = [
    0, 0, 0, 0, 0, 0, 0, 0, 0x96, 2, 0, 0, 0x96, 2, 0, 0, 1, 0, 0x5e, 0x7f, 0xfa, 0xd6, 2, 0, 0, 0,
    0, 1, 8, 0, 0x45, 0, 2, 0x88, 0, 0, 0x40, 0, 16, 17, 0, 0, 10, 0, 0, 1, 239, 255, 0xfa, 0xd6,
    0x15, 0xc1, 0x15, 0xc0, 2, 0x74, 0, 0,
];

const ROOT: [u8; 22] = [
    0, 0x10, 0, 0, 0x41, 0x53, 0x43, 0x2d, 0x45, 0x31, 0x2e, 0x31, 0x37, 0, 0, 0, 0x72, 0x5c, 0, 0,
    0, 8,
];

const FRAMING: [u8; 6] = [0x72, 0x46, 0, 0, 0, 2];

const LAYER: [u8; 6] = [0x71, 0xfc, 0, 0, 0, 1];

/// A page of a source's list of universes.
#[derive(Clone, Copy)]
pub struct Page {
    pub record: [u8; RECORD],
}

impl Page {
    /// A page of no source yet.
    pub fn new() -> Self {
        let mut record = [0; RECORD];
        record[..58].copy_from_slice(&FRONT);
        record[58..CID].copy_from_slice(&ROOT);
        record[CID + 16..CID + 22].copy_from_slice(&FRAMING);
        record[CID + 22..CID + 29].copy_from_slice(b"Console");
        record[PAGE - 6..PAGE].copy_from_slice(&LAYER);
        Page { record }
    }

    /// A source's page of this number, of so many, taken at a moment in microseconds: its universes are those of all its pages, in
    /// order, from a first one on.
    pub fn turn(&mut self, micros: u64, source: u32, number: u8, last: u8, first: u16) {
        let record = &mut self.record;
        let seconds = (1_700_000_000 + micros / 1_000_000 % 1_000_000_000) as u32;
        record[0..4].copy_from_slice(&seconds.to_le_bytes());
        record[4..8].copy_from_slice(&((micros % 1_000_000) as u32).to_le_bytes());
        record[CID..CID + 4].copy_from_slice(&source.to_be_bytes());
        record[PAGE] = number;
        record[PAGE + 1] = last;
        let from = first.saturating_add(u16::from(number).saturating_mul(NUMBERS as u16));
        for place in 0..NUMBERS {
            let universe = from.saturating_add(place as u16);
            record[UNIVERSES + 2 * place..UNIVERSES + 2 * place + 2].copy_from_slice(
                &universe.to_be_bytes(),
            );
        }
    }

    /// Makes it a page of so many numbers, at most `NUMBERS`, whose record is the first octets of `record`. Returns how many those are.
    pub fn resize(&mut self, count: usize) -> usize
        ensures { result ≤ RECORD }
    {
        let length = 120 + 2 * count.min(NUMBERS) as u16;
        let record = &mut self.record;
        record[8..12].copy_from_slice(&(u32::from(length) + 42).to_le_bytes());
        record[12..16].copy_from_slice(&(u32::from(length) + 42).to_le_bytes());
        record[PACKET_LENGTH..PACKET_LENGTH + 2].copy_from_slice(&(length + 28).to_be_bytes());
        record[DATAGRAM_LENGTH..DATAGRAM_LENGTH + 2].copy_from_slice(&(length + 8).to_be_bytes());
        record[ROOT_LENGTH..ROOT_LENGTH + 2].copy_from_slice(&layer_of(length - 16));
        record[FRAMING_LENGTH..FRAMING_LENGTH + 2].copy_from_slice(&layer_of(length - 38));
        record[LAYER_LENGTH..LAYER_LENGTH + 2].copy_from_slice(&layer_of(length - 112));
        58 + usize::from(length)
    }

    /// Makes it a page of this number of so many, of the source of this CID, taken at a moment in microseconds.
    pub fn head(&mut self, micros: u64, cid: &[u8; 16], number: u8, last: u8) {
        let record = &mut self.record;
        let seconds = (1_700_000_000 + micros / 1_000_000 % 1_000_000_000) as u32;
        record[0..4].copy_from_slice(&seconds.to_le_bytes());
        record[4..8].copy_from_slice(&((micros % 1_000_000) as u32).to_le_bytes());
        record[CID..CID + 16].copy_from_slice(cid);
        record[PAGE] = number;
        record[PAGE + 1] = last;
    }

    /// Its number at a place. Behind its last number nothing is written.
    pub fn put(&mut self, place: usize, universe: u16) {
        if place < NUMBERS {
            let at = UNIVERSES + 2 * place;
            self.record[at..at + 2].copy_from_slice(&universe.to_be_bytes());
        }
    }
}

// The flags and the length of a layer.
fn layer_of(length: u16) -> [u8; 2] {
    (0x7000 | length).to_be_bytes()
}
