//! The streams of a monitor, found by their chains.

ghost use Rattle.std.specs.Prelude.{◌≡◌, ◌<◌, ◌≤◌, ◌++◌, ◌∷◌, [], None, IfOk, length, slice_index_or, slice_set, vec_capacity};
ghost use Rattle.std.specs.List.{position};
ghost use Rattle.sacn_monitor.specs.declared.limits.TheConstants.{CHAINS, MAX_STREAMS};
ghost use Rattle.sacn_monitor.specs.Accounts.{IsFitted, news_of};
ghost use Rattle.sacn_monitor.specs.Books.{with_told, silent_place};
ghost use Rattle.sacn_monitor.specs.Chains.{chain_by};
ghost use Rattle.sacn_monitor.specs.Streams.{is_of, stream_after};

use crate::account::Endpoint;
use crate::limits::{
    BACK_FACTOR, CHAIN_BITS, CHAINS, FRONT_FACTOR, LONGEST_WALK, MAX_STREAMS, UNIVERSE_FACTOR,
};
use crate::news::News;
use crate::silence::{next_loss, silent_place};
use crate::stream::Stream;
use sacn_packets::DataView;
use std::alloc::{AllocError, Global};
use std::marker::Model;

/// Up to `MAX_STREAMS` streams in the order in which they appeared, each once.
///
/// They stand in `CHAINS` chains, by their universes and sources: `latest` has for each chain the mark of its latest stream,
/// and `before` for each stream the mark of the one before it in its chain. A mark is one more than the place of a stream,
/// and 0 marks none. So a stream is found among those of its chain, which mostly are few; where a chain is long, a look at all
/// streams in turn, which costs less a stream, takes over after some steps.
///
/// Each name is kept as it is fitted from a packet, so that a packet with that very field has that name.
#[derive(Drop)]
pub(crate) struct Register {
    streams: Vec<Stream>,
    latest: Vec<u16>,
    before: Vec<u16>,
    /// No loss that is still to be told comes before this moment.
    quiet_until: u64,
}

impl Model for Register {
    ghost use Rattle.std.specs.Prelude.{List, map, ◌≤◌, vec_capacity};
    ghost use Rattle.sacn_monitor.specs.declared.stream.Stream.{Stream};
    ghost use Rattle.sacn_monitor.specs.declared.limits.TheConstants.{MAX_STREAMS};
    ghost use Rattle.std.specs.List.{All};
    ghost use Rattle.sacn_monitor.specs.Accounts.{IsFitted};
    ghost use Rattle.sacn_monitor.specs.Books.{next_loss};
    ghost use Rattle.sacn_monitor.specs.Chains.{chain_of, AreChained, AreDistinct};

    ghost Value = { List Stream };

    ghost view = { λ r. r.streams.items };

    ghost invariant = { λ r. (MAX_STREAMS ≤ vec_capacity r.streams)
        × (MAX_STREAMS ≤ vec_capacity r.before)
        × AreChained r.latest.items r.before.items (map chain_of r.streams.items)
        × AreDistinct r.streams.items
        × (r.quiet_until ≤ next_loss r.streams.items)
        × All (λ s. IsFitted s.account.name) r.streams.items };
}

impl Clone for Register {
    ghost is_clone = { λ register copy. copy ≡ register };

    fn clone(&self) -> Result<Register, AllocError> {
        Ok(Register {
            streams: with_room(&self.streams)?,
            latest: self.latest.clone()?,
            before: with_room(&self.before)?,
            quiet_until: self.quiet_until,
        })
    }
}

impl Register {
    /// No streams, with all its room taken in three requests.
    ///
    /// Errors: a request was refused.
    pub(crate) fn new(alloc: Global) -> Result<Self, AllocError>
        ensures { IfOk result (λ r. r ≡ []) }
    {
        Ok(Register {
            streams: Vec::with_capacity(alloc, MAX_STREAMS)?,
            latest: vec![in alloc; 0; CHAINS]?,
            before: Vec::with_capacity(alloc, MAX_STREAMS)?,
            quiet_until: u64::MAX,
        })
    }

    pub(crate) fn as_slice(&self) -> &[Stream]
        ensures { result.now ≡ self.now }
    {
        self.streams.as_slice()
    }

    pub(crate) fn len(&self) -> usize
        ensures { result ≡ length self.now }
    {
        self.streams.len()
    }

    /// The place of the stream of a source on a universe, as a look at all of them in turn finds it.
    pub(crate) fn place_of(&self, universe: u16, cid: &[u8; 16]) -> Option<usize>
        ensures { result ≡ position (is_of universe cid.now) self.now }
    {
        let mut mark = self.latest[chain_by(universe, cid)];
        let mut steps = 0;
        while mark > 0 {
            if steps >= LONGEST_WALK {
                return place_in(self.streams.as_slice(), universe, cid);
            }
            let place = usize::from(mark) - 1;
            if self.streams[place].is_of(universe, cid) {
                return Some(place);
            }
            steps += 1;
            mark = self.before[place];
        }
        None
    }

    /// A packet of the stream at a place. Returns what it tells that is new.
    pub(crate) fn hear(
        &mut self,
        at: usize,
        moment: u64,
        sender: Endpoint,
        packet: &DataView<'_>,
    ) -> News
        requires { at < length self.old }
        ensures news { (s : Stream) → result ≡ news_of moment sender packet.now
            (slice_index_or self.old at s).account }
        ensures streams { (s : Stream) → self.new ≡ slice_set self.old at
            (stream_after moment sender packet.now (slice_index_or self.old at s)) }
    {
        let news = self.streams[at].hear(moment, sender, packet);
        self.quiet_until = self.quiet_until.min(self.streams[at].loss());
        news
    }

    /// The loss of the stream at a place is told.
    pub(crate) fn tell(&mut self, at: usize)
        requires { at < length self.old }
        ensures { (s : Stream) → self.new ≡ slice_set self.old at (with_told (slice_index_or self.old at s)) }
    {
        self.streams[at].told = true;
    }

    /// The place of the first stream that is lost at a moment, and of which that is still to be told. While none can be,
    /// no stream is looked at.
    pub(crate) fn silent_place(&mut self, moment: u64) -> Option<usize>
        ensures place { result ≡ silent_place moment self.old }
        ensures streams { self.new ≡ self.old }
    {
        if moment < self.quiet_until {
            return None;
        }
        let place = silent_place(self.streams.as_slice(), moment);
        if place.is_none() {
            self.quiet_until = next_loss(self.streams.as_slice());
        }
        place
    }

    /// A stream more, of a universe and a source that no other has.
    pub(crate) fn admit(&mut self, stream: Stream)
        requires room { length self.old < MAX_STREAMS }
        requires unknown { position (is_of stream.universe stream.cid) self.old ≡ None }
        requires fitted { IsFitted stream.account.name }
        ensures { self.new ≡ self.old ++ stream ∷ [] }
    {
        let chain = chain_by(stream.universe, &stream.cid);
        self.quiet_until = self.quiet_until.min(stream.loss());
        self.before.push_reserved(self.latest[chain]);
        self.streams.push_reserved(stream);
        self.latest[chain] = self.streams.len() as u16;
    }
}

// This list again, with room for one of each stream.
fn with_room<T: Copy>(list: &Vec<T>) -> Result<Vec<T>, AllocError>
    ensures items { IfOk result (λ again. again.items ≡ list.now.items) }
    ensures room { IfOk result (λ again. MAX_STREAMS ≤ vec_capacity again) }
{
    let mut again = Vec::with_capacity(*list.allocator(), MAX_STREAMS)?;
    again.extend_from_slice(list.as_slice())?;
    Ok(again)
}

// The place of the stream of a source on a universe, by a look at all in turn: what a chain of any length gives, where it is
// so long that someone seems to have chosen the sources of it.
fn place_in(streams: &[Stream], universe: u16, cid: &[u8; 16]) -> Option<usize>
    ensures { result ≡ position (is_of universe cid.now) streams.now }
{
    streams
        .iter()
        .position(|stream| stream.is_of(universe, cid))
}

// The chain of a source on a universe: the high bits of the product of a sum with its own upper half. Each octet of both adds to the
// sum; by the product rows of universes or of CIDs, whatever their steps, and the CIDs that one host makes by the time stand in chains
// as those by chance do. Out of line: where the CID is read whole for it, comparing it afterwards would go octet by octet.
#[inline(never)]
fn chain_by(universe: u16, cid: &[u8; 16]) -> usize
    ensures chain { result ≡ chain_by universe cid.now }
    ensures low { result < CHAINS }
{
    let number = u128::from_be_bytes(*cid);
    let front = ((number >> 64) as u64).wrapping_mul(FRONT_FACTOR);
    let back = ((number % (1 << 64)) as u64).wrapping_mul(BACK_FACTOR);
    let universe = u64::from(universe).wrapping_mul(UNIVERSE_FACTOR);
    let sum = front.wrapping_add(back).wrapping_add(universe);
    let chain = sum.wrapping_mul(sum >> 32);
    (chain >> (u64::BITS - CHAIN_BITS)) as usize
}
