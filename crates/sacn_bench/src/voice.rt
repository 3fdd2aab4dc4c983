//! What a source sends on a universe: the record of a recording, whose octets change from packet to packet.
use crate::chance::Chance;

/// The octets of a record: its head, the frame of Ethernet, IPv4 and UDP, and a data packet of 512 slots.
pub const RECORD: usize = 696;

/// Where a datagram begins in a record.
pub const DATAGRAM: usize = 58;

/// The last two octets of the sender's address.
const SENDER: usize = 44;

/// Fields of a data packet (E1.31, table 4-1), in a record.
const CID: usize = DATAGRAM + 22;

const FRAMING_VECTOR: usize = DATAGRAM + 43;

const NAME: usize = DATAGRAM + 44;

const PRIORITY: usize = DATAGRAM + 108;

const NUMBER: usize = DATAGRAM + 111;

const OPTIONS: usize = DATAGRAM + 112;

const UNIVERSE: usize = DATAGRAM + 113;

const SLOTS: usize = DATAGRAM + 126;

/// The option of the last packets of a stream (E1.31, 6.2.6).
const TERMINATED: u8 = 0x40;

/// Before a datagram of 638 octets: the head of a record of 680 octets, Ethernet, IPv4 and UDP, to a group's address and port 5568.
const FRONT: [u8; DATAGRAM] = [
    0, 0, 0, 0, 0, 0, 0, 0, 0xa8, 2, 0, 0, 0xa8, 2, 0, 0, 1, 0, 0x5e, 0x7f, 0, 1, 2, 0, 0, 0, 0, 1,
    8, 0, 0x45, 0, 2, 0x9a, 0, 0, 0x40, 0, 16, 17, 0, 0, 10, 0, 0, 1, 239, 255, 0, 1, 0x15, 0xc1,
    0x15, 0xc0, 2, 0x86, 0, 0,
];

/// The front of a data packet of 512 slots up to its CID, and from there to its name.
const ROOT: [u8; 22] = [
    0, 0x10, 0, 0, 0x41, 0x53, 0x43, 0x2d, 0x45, 0x31, 0x2e, 0x31, 0x37, 0, 0, 0, 0x72, 0x6e, 0, 0,
    0, 4,
];

const FRAMING: [u8; 6] = [0x72, 0x58, 0, 0, 0, 2];

/// What stands between its universe and its slots.
const LAYER: [u8; 11] = [0x72, 0x0b, 2, 0xa1, 0, 0, 0, 1, 2, 1, 0];

/// What a source sends on a universe.
#[derive(Clone, Copy)]
pub struct Voice {
    pub record: [u8; RECORD],
}

/// What becomes of a source's packet.
#[derive(Clone, Copy, PartialEq, Eq)]
pub enum Event {
    /// It says the same but for a few slots.
    Goes,
    /// It comes again.
    Repeats,
    /// So many before it are lost.
    Skips(u8),
    /// It is one of some packets ago.
    Late,
    /// It is no packet.
    Spoilt,
    /// It is the last one.
    Ends,
    /// It has another priority.
    Ranks(u8),
}

/// How often one thing happens, of 4096 packets of a source.
#[derive(Clone, Copy)]
pub struct Rates {
    /// Trouble on the way: a half of it numbers that are skipped, and a sixth each packets repeated, late and spoilt.
    pub trouble: u32,
    /// An end, or another priority.
    pub turns: u32,
}

impl Rates {
    /// What happens at the next packet.
    pub fn event(&self, chance: &mut Chance) -> Event {
        let dice = chance.any();
        let number = dice % 4096;
        let kind = dice / 4096;
        if number < self.trouble {
            return match kind % 6 {
                0 => Event::Repeats,
                1 => Event::Late,
                2 => Event::Spoilt,
                _ => Event::Skips(if kind % 2 == 0 { 1 } else { 3 }),
            };
        }
        if number < self.trouble.saturating_add(self.turns) {
            return match kind % 4 {
                0 => Event::Ends,
                1 => Event::Ranks(90),
                2 => Event::Ranks(100),
                _ => Event::Ranks(110),
            };
        }
        Event::Goes
    }
}

impl Voice {
    /// The voice of a source of this number on a universe, with levels by chance.
    pub fn new(source: u32, universe: u16, chance: &mut Chance) -> Self {
        let mut record = [0; RECORD];
        record[..DATAGRAM].copy_from_slice(&FRONT);
        record[SENDER..SENDER + 2].copy_from_slice(&((source & 0xffff) as u16).to_be_bytes());
        record[DATAGRAM..CID].copy_from_slice(&ROOT);
        for place in 0..12 {
            record[CID + place] = (chance.any() & 255) as u8;
        }
        record[CID + 12..CID + 16].copy_from_slice(&source.to_be_bytes());
        record[CID + 16..NAME].copy_from_slice(&FRAMING);
        record[NAME..NAME + 7].copy_from_slice(b"Console");
        record[NAME + 7] = b'A' + (source % 26) as u8;
        record[PRIORITY] = 100;
        record[UNIVERSE..UNIVERSE + 2].copy_from_slice(&universe.to_be_bytes());
        record[UNIVERSE + 2..SLOTS].copy_from_slice(&LAYER);
        for place in 0..512 {
            record[SLOTS + place] = (chance.any() & 255) as u8;
        }
        Voice { record }
    }

    /// Its CID.
    pub fn cid(&self) -> [u8; 16] {
        let mut cid = [0; 16];
        cid.copy_from_slice(&self.record[CID..CID + 16]);
        cid
    }

    /// Gives it the CID of another voice.
    pub fn share_source(&mut self, other: &Voice) {
        let cid = &other.record[CID..CID + 16];
        self.record[CID..CID + 16].copy_from_slice(cid);
    }

    /// The next packet, taken at a moment in microseconds.
    pub fn speak(&mut self, micros: u64, event: Event, chance: &mut Chance) {
        let record = &mut self.record;
        let seconds = (1_700_000_000 + micros / 1_000_000 % 1_000_000_000) as u32;
        record[0..4].copy_from_slice(&seconds.to_le_bytes());
        record[4..8].copy_from_slice(&((micros % 1_000_000) as u32).to_le_bytes());
        let number = record[NUMBER];
        record[NUMBER] = match event {
            Event::Repeats => number,
            Event::Skips(count) => number.wrapping_add(1).wrapping_add(count),
            Event::Late => number.wrapping_sub(2),
            _ => number.wrapping_add(1),
        };
        record[FRAMING_VECTOR] = if event == Event::Spoilt { 9 } else { 2 };
        record[OPTIONS] = if event == Event::Ends { TERMINATED } else { 0 };
        if let Event::Ranks(priority) = event {
            record[PRIORITY] = priority;
        }
        let dice = chance.any();
        for part in 0..3u32 {
            let slot = (dice >> (9 * part)) & 511;
            record[SLOTS + slot as usize] = (dice >> 24) as u8;
        }
    }

    /// The datagram of the latest packet.
    pub fn datagram(&self) -> &[u8] {
        &self.record[DATAGRAM..]
    }
}
