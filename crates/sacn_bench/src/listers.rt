//! A recording of sources that list their universes and send on a few of them, made while it is read.
use crate::chance::Chance;
use crate::page::Page;
use crate::tape::HEADER;
use crate::voice::{Event, Rates, Voice};
use std::alloc::{AllocError, Global};
use std::io::{self, BufRead, Read};

/// From one sending of a source's list to the next, in microseconds (E1.31, appendix A).
const LISTS: u64 = 10_000_000;

/// From a page to the next one of its list.
const PAGES: u64 = 40;

/// From a packet on a universe to the next one.
const PERIOD: u64 = 2_000_000;

/// So often each universe is sent on; then all but each of so many have ended.
const TURNS: u32 = 3;

const STAYING: usize = 16;

/// The universes from a source's first one to that of the next source.
const STRIDE: u32 = 16;

/// The sources that list.
#[derive(Clone, Copy)]
pub struct Listers {
    pub sources: u32,
    /// The pages of each list, 256 at most, and the numbers of each page.
    pub pages: u32,
    pub numbers: u32,
    /// On how many universes each source sends.
    pub voices: u32,
    /// How often each list is sent.
    pub times: u32,
    pub rates: Rates,
}

/// What is lent.
#[derive(Clone, Copy)]
enum Lent {
    Header,
    Voice(usize),
    Page,
    Nothing,
}

/// A recording of them. The lists are sent in turn, evenly in ten seconds. Each list changes a page or two with each fourth sending; of
/// each sixteen sources one has lists whose numbers fall, two change all pages, four send theirs in another order, four leave out a page,
/// another one each time, of which one leaves out its last page always, and one is silent for half a minute.
#[derive(Drop)]
pub struct ListTape {
    listers: Listers,
    chance: Chance,
    voices: Vec<Voice>,
    page: Page,
    /// How many octets a page's record has.
    page_length: usize,
    /// The lists that were begun, and when the next one is.
    lists: u32,
    lists_at: u64,
    /// The source of the latest one, how often it had sent its list before, and the pages of it that are still to come.
    source: u32,
    sent: u32,
    pages_left: u32,
    micros: u64,
    /// The voice whose turn it is, and how often all had theirs.
    next: usize,
    turns: u32,
    lent: Lent,
    /// How much of it was consumed.
    consumed: usize,
}

impl ListTape {
    /// The recording of these sources, by a seed.
    pub fn new(alloc: Global, listers: Listers, seed: u32) -> Result<Self, AllocError> {
        let mut chance = Chance::new(seed, 2);
        let voices = voices_of(alloc, &listers, &mut chance)?;
        let mut page = Page::new();
        let page_length = page.resize(listers.numbers as usize);
        Ok(ListTape {
            listers,
            chance,
            voices,
            page,
            page_length,
            lists: 0,
            lists_at: 1_000_000,
            source: 0,
            sent: 0,
            pages_left: 0,
            micros: 0,
            next: 0,
            turns: 0,
            lent: Lent::Header,
            consumed: 0,
        })
    }

    // Makes the next record.
    fn turn(&mut self) {
        self.consumed = 0;
        if (self.pages_left == 0) & (self.micros >= self.lists_at) {
            self.begin_list();
        }
        if self.pages_left > 0 {
            self.pages_left -= 1;
            self.turn_page();
        } else if self.lists < self.listers.sources.saturating_mul(self.listers.times) {
            self.speak();
        } else {
            self.lent = Lent::Nothing;
        }
    }

    // Begins the list of the next source.
    fn begin_list(&mut self) {
        let sources = self.listers.sources.max(1);
        self.source = self.lists % sources;
        self.sent = self.lists / sources;
        self.lists = self.lists.saturating_add(1);
        self.lists_at = self.lists_at.saturating_add(LISTS / u64::from(sources));
        let is_silent = (self.source % 16 == 5) & (self.sent % 8 >= 5);
        self.pages_left = if is_silent { 0 } else { self.listers.pages };
    }

    // The next page of a list.
    fn turn_page(&mut self) {
        self.micros = self.micros.saturating_add(PAGES);
        let pages = self.listers.pages.max(1);
        let number = self.page_at(pages.saturating_sub(self.pages_left).saturating_sub(1));
        let first = self.source.saturating_mul(self.listers.voices);
        if let Some(voice) = self.voices.get(first as usize) {
            let cid = voice.cid();
            self.page.head(
                self.micros,
                &cid,
                (number & 255) as u8,
                ((pages - 1) & 255) as u8,
            );
        }
        self.write_numbers(number);
        self.lent = Lent::Page;
    }

    // Which page of a list is the one at a place in the order of sending: where one is left out, the page behind it comes twice.
    fn page_at(&self, place: u32) -> u32 {
        let pages = self.listers.pages.max(1);
        let number = match self.source % 4 {
            1 => place.wrapping_mul(7) % pages,
            _ => place % pages,
        };
        let lacking = match self.source % 16 {
            6 => pages - 1,
            2 | 10 | 14 => self.sent.wrapping_mul(3) % pages,
            _ => pages,
        };
        if number == lacking {
            (number + 1) % pages
        } else {
            number
        }
    }

    // Writes the numbers of a page of the list. Each page leaves out one of one number more: mostly the last of them.
    fn write_numbers(&mut self, number: u32) {
        let numbers = self.listers.numbers;
        let pages = self.listers.pages.max(1);
        let change = self.sent.wrapping_add(self.source) / 4;
        let hole = if change % pages == number {
            change % numbers.max(1)
        } else {
            numbers
        };
        let first = first_of(self.source).wrapping_add(match self.source % 8 {
            7 => change % 2,
            _ => 0,
        });
        let behind = pages.wrapping_mul(numbers.wrapping_add(1));
        for place in 0..numbers {
            let left_out = u32::from(place >= hole);
            let back = number
                .wrapping_mul(numbers.wrapping_add(1))
                .wrapping_add(place + left_out);
            let at = match self.source % 16 {
                3 => behind.wrapping_sub(back).wrapping_sub(1),
                _ => back,
            };
            self.page
                .put(place as usize, (first.wrapping_add(at) & 0xffff) as u16);
        }
    }

    // The packet of the next voice.
    fn speak(&mut self) {
        let count = self.voices.len();
        let is_early = self.turns < TURNS;
        let stride = if is_early { 1 } else { STAYING };
        let step = PERIOD.saturating_mul(stride as u64) / (count as u64).max(1);
        self.micros = self.micros.saturating_add(step);
        let at = if self.next < count { self.next } else { 0 };
        self.next = at.saturating_add(stride);
        let is_last = (self.turns.saturating_add(1) == TURNS) & (at % STAYING != 0);
        let event = if is_last {
            Event::Ends
        } else {
            self.listers.rates.event(&mut self.chance)
        };
        if let Some(voice) = self.voices.get_mut(at) {
            voice.speak(self.micros, event, &mut self.chance);
        }
        self.lent = Lent::Voice(at);
        if self.next >= count {
            self.turns = self.turns.saturating_add(1);
        }
    }

    // The octets of what is lent.
    fn record(&self) -> &[u8] {
        match self.lent {
            Lent::Header => &HEADER,
            Lent::Voice(at) => match self.voices.get(at) {
                Some(voice) => &voice.record,
                None => &[],
            },
            Lent::Page => match self.page.record.get(..self.page_length) {
                Some(record) => record,
                None => &[],
            },
            Lent::Nothing => &[],
        }
    }

    // What is left of them.
    fn left(&self) -> &[u8] {
        match self.record().get(self.consumed..) {
            Some(left) => left,
            None => &[],
        }
    }
}

// The first universe that a source lists.
fn first_of(source: u32) -> u32 {
    source.wrapping_mul(STRIDE).wrapping_add(1)
}

// A voice for each universe on which a source sends: from its second on each third one.
fn voices_of(
    alloc: Global,
    listers: &Listers,
    chance: &mut Chance,
) -> Result<Vec<Voice>, AllocError> {
    let mut voices: Vec<Voice> = Vec::new(alloc);
    for source in 0..listers.sources {
        for number in 0..listers.voices {
            let universe = first_of(source)
                .wrapping_add(number.wrapping_mul(3))
                .wrapping_add(1);
            let mut voice = Voice::new(source, (universe & 0x7fff) as u16, chance);
            let first = voices.len().saturating_sub(number as usize);
            if let Some(first) = voices.get(first) {
                voice.share_source(first);
            }
            voices.push(voice)?;
        }
    }
    Ok(voices)
}

impl Read for ListTape {
    fn read(&mut self, buf: &mut [u8]) -> io::Result<usize> {
        let given = self.fill_buf()?;
        let count = given.len().min(buf.len());
        buf[..count].copy_from_slice(&given[..count]);
        self.consume(count);
        Ok(count)
    }
}

impl BufRead for ListTape {
    fn fill_buf(&mut self) -> io::Result<&[u8]> {
        if self.left().is_empty() {
            self.turn();
        }
        Ok(self.left())
    }

    fn consume(&mut self, amount: usize) {
        self.consumed = self.consumed.saturating_add(amount);
    }
}
