//! A recording that is made while it is read: each record is lent from where it lies, so that making it costs little beside reading it.
use crate::chance::Chance;
use crate::page::{self, Page};
use crate::voice::{RECORD, Rates, Voice};
use std::alloc::{AllocError, Global};
use std::io::{self, BufRead, Read};

/// The header of a pcap file: moments in microseconds, frames of Ethernet.
pub const HEADER: [u8; 24] = [
    0xd4, 0xc3, 0xb2, 0xa1, 2, 0, 4, 0, 0, 0, 0, 0, 0, 0, 0, 0, 0, 0, 4, 0, 1, 0, 0, 0,
];

/// From a source's packet on a universe to its next one, in microseconds: 44 a second.
pub const PERIOD: u64 = 22_727;

/// From one sending of all lists of universes to the next, in microseconds (E1.31, appendix A).
const LISTS: u64 = 10_000_000;

/// What a venue has.
#[derive(Clone, Copy)]
pub struct Venue {
    /// Its universes, from 1 on.
    pub universes: u16,
    /// How many sources send on each of them.
    pub sources: u16,
    /// How many packets are recorded.
    pub packets: u32,
    /// A source sends on a universe 44 times a second at 1, half as often at 2, and so on.
    pub slowness: u64,
    pub rates: Rates,
    /// The sources that send lists of universes, and the pages of each.
    pub lists: u32,
    pub pages: u8,
}

/// What is lent.
#[derive(Clone, Copy)]
enum Lent {
    Header,
    Voice(usize),
    Page,
    Nothing,
}

/// A recording of a venue.
#[derive(Drop)]
pub struct Tape {
    venue: Venue,
    chance: Chance,
    voices: Vec<Voice>,
    page: Page,
    /// The pages that are still to come of the lists that are being sent, and when they are sent next.
    pages_left: u32,
    lists_at: u64,
    /// How often lists were sent.
    cycle: u16,
    packets_left: u32,
    micros: u64,
    step: u64,
    /// The voice whose turn it is.
    next: usize,
    lent: Lent,
    /// How much of it was consumed.
    consumed: usize,
}

impl Tape {
    /// The recording of a venue, by a seed.
    pub fn new(alloc: Global, venue: Venue, seed: u32) -> Result<Self, AllocError> {
        let mut chance = Chance::new(seed, 1);
        let voices = voices_of(alloc, &venue, &mut chance)?;
        let period = PERIOD.saturating_mul(venue.slowness);
        let step = period / (voices.len() as u64).max(1);
        Ok(Tape {
            venue,
            chance,
            voices,
            page: Page::new(),
            pages_left: 0,
            lists_at: if venue.lists > 0 { 1_000_000 } else { u64::MAX },
            cycle: 0,
            packets_left: venue.packets,
            micros: 0,
            step,
            next: 0,
            lent: Lent::Header,
            consumed: 0,
        })
    }

    // Makes the next record.
    fn turn(&mut self) {
        self.consumed = 0;
        if self.packets_left == 0 {
            self.lent = Lent::Nothing;
            return;
        }
        self.packets_left -= 1;
        self.micros = self.micros.saturating_add(self.step);
        if self.micros >= self.lists_at {
            self.lists_at = self.lists_at.saturating_add(LISTS);
            self.cycle = self.cycle.wrapping_add(1);
            self.pages_left = self.venue.lists.saturating_mul(u32::from(self.venue.pages));
        }
        if self.pages_left > 0 {
            self.pages_left -= 1;
            self.turn_page(self.pages_left);
        } else {
            self.speak();
        }
    }

    // A page of a list: a source's pages come one after another, and every fourth sending lists other universes.
    fn turn_page(&mut self, left: u32) {
        let pages = u32::from(self.venue.pages).max(1);
        let number = (left % pages) as u8;
        let first = 1 + self.cycle / 4 % 2;
        let last = self.venue.pages.saturating_sub(1);
        self.page.turn(
            self.micros,
            left / pages,
            last - number.min(last),
            last,
            first,
        );
        self.lent = Lent::Page;
    }

    // The packet of the next voice that doesn't rest.
    fn speak(&mut self) {
        let count = self.voices.len();
        let rests = (self.micros / 4_000_000 % 32) as usize;
        let at = self.next;
        let at = if at % 32 == rests {
            at.saturating_add(1)
        } else {
            at
        };
        let at = if at < count { at } else { 0 };
        self.next = at.saturating_add(1);
        let event = self.venue.rates.event(&mut self.chance);
        if let Some(voice) = self.voices.get_mut(at) {
            voice.speak(self.micros, event, &mut self.chance);
        }
        self.lent = Lent::Voice(at);
    }

    // The octets of what is lent.
    fn record(&self) -> &[u8] {
        match self.lent {
            Lent::Header => &HEADER,
            Lent::Voice(at) => match self.voices.get(at) {
                Some(voice) => &voice.record,
                None => &[],
            },
            Lent::Page => &self.page.record,
            Lent::Nothing => &[],
        }
    }

    // What is left of them.
    fn left(&self) -> &[u8] {
        match self.record().get(self.consumed..) {
            Some(left) => left,
            None => &[],
        }
    }
}

// A voice for each source of each universe. A source sends on eight universes.
fn voices_of(alloc: Global, venue: &Venue, chance: &mut Chance) -> Result<Vec<Voice>, AllocError> {
    let mut voices: Vec<Voice> = Vec::new(alloc);
    for universe in 0..venue.universes {
        for number in 0..venue.sources {
            let source = u32::from(universe / 8) * 64 + u32::from(number);
            let mut voice = Voice::new(source, universe + 1, chance);
            let place = voices.len();
            let back = usize::from(universe % 8) * usize::from(venue.sources);
            if let Some(first) = voices.get(place.saturating_sub(back)) {
                voice.share_source(first);
            }
            voices.push(voice)?;
        }
    }
    Ok(voices)
}

impl Read for Tape {
    fn read(&mut self, buf: &mut [u8]) -> io::Result<usize> {
        let given = self.fill_buf()?;
        let count = given.len().min(buf.len());
        buf[..count].copy_from_slice(&given[..count]);
        self.consume(count);
        Ok(count)
    }
}

impl BufRead for Tape {
    fn fill_buf(&mut self) -> io::Result<&[u8]> {
        if self.left().is_empty() {
            self.turn();
        }
        Ok(self.left())
    }

    fn consume(&mut self, amount: usize) {
        self.consumed = self.consumed.saturating_add(amount);
    }
}
