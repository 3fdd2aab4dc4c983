//! The monitor.

ghost use Rattle.std.specs.Prelude.{◌≡◌, ◌<◌, ◌^◌, ◌-◌, IfOk, max, length, slice_get, slice_index_or, slice_set, slice_index};
ghost use Rattle.sacn_monitor.specs.Accounts.{news_of};
ghost use Rattle.sacn_monitor.specs.Streams.{stream_after};
ghost use Rattle.sacn_monitor.specs.Books.{next_light_end, next_loss};
ghost use Rattle.sacn_monitor.specs.Rivals.{top_priority, rivals};

use crate::account::{Endpoint, first_event};
use crate::limits::MAX_STREAMS;
use crate::news::{News, Noted};
use crate::register::Register;
use crate::rivals::{rivals, top_priority};
use crate::silence::{next_light_end, next_loss};
use crate::stream::Stream;
use crate::tally::Tally;
use sacn_packets::{DataView, Packet, Reading, read_packet};
use std::alloc::{AllocError, Global};
use std::marker::Model;

/// Keeps an account of each source on each universe, of up to `MAX_STREAMS` pairs.
///
/// Its value is the list of the streams in the order in which they appeared, a moment, the greatest that was handed in,
/// in milliseconds, and counts. Each call first moves the clock to the greater of its moment and `now`. No call but
/// `new` and `clone` takes memory.
#[derive(Drop)]
pub struct Monitor {
    streams: Register,
    moment: u64,
    tally: Tally,
}

impl Model for Monitor {
    ghost use Rattle.sacn_monitor.specs.Books.{Book};

    ghost Value = { Book };

    ghost view = { λ m. record { streams = m.streams; moment = m.moment; tally = m.tally } };
}

/// The same accounts again, with room of their own.
///
/// Errors: a request for memory was refused.
impl Clone for Monitor {
    ghost is_clone = { λ monitor copy. copy ≡ monitor };

    fn clone(&self) -> Result<Monitor, AllocError> {
        Ok(Monitor {
            streams: self.streams.clone()?,
            moment: self.moment,
            tally: self.tally,
        })
    }
}

impl Monitor {
    ghost use Rattle.sacn_monitor.specs.Books.{new_book, note_of, after_take, with_datagram, noted_packet, after_read, noted_data, after_data, place_of, silent_place, after_tick, with_told, change_at};

    /// A monitor that has heard nothing, with the room for `MAX_STREAMS` streams taken.
    ///
    /// Errors: a request for memory was refused.
    pub fn new(alloc: Global) -> Result<Self, AllocError>
        ensures { IfOk result (λ m. m ≡ new_book) }
    {
        Ok(Monitor {
            streams: Register::new(alloc)?,
            moment: 0,
            tally: Tally::none(),
        })
    }

    /// Takes a datagram that came at a moment, in milliseconds, and returns what it told that is new.
    pub fn take(&mut self, now: u64, sender: Endpoint, octets: &[u8]) -> Noted
        ensures noted { result ≡ note_of now sender octets.now self.old }
        ensures book { self.new ≡ after_take now sender octets.now self.old }
    {
        self.take_reading(now, sender, &read_packet(octets))
    }

    /// Takes what a datagram was read as. `take` is this call over octets.
    pub fn take_reading(&mut self, now: u64, sender: Endpoint, reading: &Reading<'_>) -> Noted
        ensures noted { result
            ≡ noted_packet sender (with_datagram now self.old) reading.now }
        ensures book { self.new
            ≡ after_read sender (with_datagram now self.old) reading.now }
    {
        self.moment = self.moment.max(now);
        self.tally.datagrams = self.tally.datagrams.saturating_add(1);
        match reading {
            Ok(Packet::DataPacket(packet)) => self.hear(sender, packet),
            Ok(Packet::PagePacket(_)) => {
                self.tally.pages = self.tally.pages.saturating_add(1);
                Noted::Page
            }
            Ok(Packet::SyncPacket) => {
                self.tally.syncs = self.tally.syncs.saturating_add(1);
                Noted::Sync
            }
            Err(fault) => {
                self.tally.refuse(*fault);
                Noted::Refused(*fault)
            }
        }
    }

    /// Moves the clock, and returns the place of a stream that is lost by then, if there is one whose loss this call
    /// didn't return since its latest packet. Called again it returns the next one.
    pub fn tick(&mut self, now: u64) -> Option<usize>
        ensures place { result ≡ silent_place (max self.old.moment now) self.old.streams }
        ensures book { self.new ≡ after_tick now self.old }
    {
        self.moment = self.moment.max(now);
        let place = self.streams.silent_place(self.moment);
        if let Some(at) = place {
            self.tell(at);
        }
        place
    }

    /// The first moment at which `tick` returns a stream, where no packet comes; `u64::MAX` where it never does.
    pub fn next_loss(&self) -> u64
        ensures { result ≡ next_loss self.now.streams }
    {
        next_loss(self.streams.as_slice())
    }

    /// The first moment at which a light that is on at the greatest moment handed in goes out where no packet comes
    /// (`Stream::light_end`); `u64::MAX` where none does.
    pub fn next_light_end(&self) -> u64
        ensures { result ≡ next_light_end self.now.moment self.now.streams }
    {
        next_light_end(self.streams.as_slice(), self.moment)
    }

    /// The streams in the order in which they appeared.
    pub fn streams(&self) -> &[Stream]
        ensures { result.now ≡ self.now.streams }
    {
        self.streams.as_slice()
    }

    /// The place of the stream of a source on a universe, and none where no packet of it was heard there.
    pub fn place_of(&self, universe: u16, cid: &[u8; 16]) -> Option<usize>
        ensures { result ≡ place_of universe cid.now self.now.streams }
    {
        self.streams.place_of(universe, cid)
    }

    /// The greatest moment that was handed in, in milliseconds.
    pub fn moment(&self) -> u64
        ensures { result ≡ self.now.moment }
    {
        self.moment
    }

    /// How many datagrams there were, by what they were.
    pub fn tally(&self) -> &Tally
        ensures { result.now ≡ self.now.tally }
    {
        &self.tally
    }

    /// The greatest priority of the sources that light a universe (E1.31, 6.2.3), 0 where none does: those of which a node holds
    /// levels there at the greatest moment handed in (`Stream::lights`).
    pub fn top_priority(&self, universe: u16) -> u8
        ensures { result ≡ top_priority universe self.now.moment self.now.streams }
    {
        top_priority(self.streams.as_slice(), universe, self.moment)
    }

    /// How many sources light a universe at that priority. Where these are two or more, their levels are merged.
    pub fn rivals(&self, universe: u16) -> usize
        ensures { result ≡ rivals universe self.now.moment self.now.streams }
    {
        rivals(self.streams.as_slice(), universe, self.moment)
    }

    // A data packet.
    #[tactic(auto, unfolding(crate::specs::Books::noted_data, crate::specs::Books::after_data))]
    fn hear(&mut self, sender: Endpoint, packet: &DataView<'_>) -> Noted
        ensures noted { result ≡ noted_data sender packet.now self.old
            (place_of packet.now.universe packet.now.cid self.old.streams) }
        ensures book { self.new ≡ after_data sender packet.now self.old
            (place_of packet.now.universe packet.now.cid self.old.streams) }
    {
        match self.place_of(packet.universe(), &packet.cid()) {
            Some(at) => Noted::Heard(at, self.hear_at(at, sender, packet)),
            None => self.admit(sender, packet),
        }
    }

    // A packet of the stream at a place.
    fn hear_at(&mut self, at: usize, sender: Endpoint, packet: &DataView<'_>) -> News
        requires { at < length self.old.streams }
        ensures news { (s : Stream) → result ≡ news_of self.old.moment sender packet.now
            (slice_index_or self.old.streams at s).account }
        ensures book { (s : Stream)
            → self.new ≡ record self.old {
              streams = slice_set self.old.streams at (stream_after
                  self.old.moment sender packet.now (slice_index_or self.old.streams at s));
            } }
    {
        self.streams.hear(at, self.moment, sender, packet)
    }

    // A stream whose loss is told.
    fn tell(&mut self, at: usize)
        requires { at < length self.old.streams }
        ensures { (s : Stream)
            → self.new ≡ record self.old {
              streams = slice_set self.old.streams at (with_told (slice_index_or self.old.streams at s));
            } }
    {
        self.streams.tell(at);
    }

    // The first packet of a stream.
    #[tactic(auto, unfolding(crate::specs::Books::noted_data, crate::specs::Books::after_data))]
    fn admit(&mut self, sender: Endpoint, packet: &DataView<'_>) -> Noted
        requires { place_of packet.now.universe packet.now.cid self.old.streams ≡ None }
        ensures noted { result ≡ noted_data sender packet.now self.old None }
        ensures book { self.new ≡ after_data sender packet.now self.old None }
    {
        let place = self.streams.len();
        if place < MAX_STREAMS {
            self.streams
                .admit(Stream::begin(self.moment, sender, packet));
            return Noted::Heard(place, News::quiet(first_event(packet.terminated())));
        }
        self.tally.untracked = self.tally.untracked.saturating_add(1);
        Noted::Untracked
    }
}
