//! The streams of a network, each with its audit.

ghost use Rattle.std.specs.Prelude.{◌≡◌, ◌<◌, ◌++◌, ◌∷◌, [], None, IfOk, length, slice_index_or, slice_set};
ghost use Rattle.std.specs.List.{position};
ghost use Rattle.sacn_audit.specs.declared.limits.TheConstants.{MAX_STREAMS};
ghost use Rattle.sacn_audit.specs.Networks.{sent_since, first_stream, is_of, is_tracked, place_of, stream_after, streams_after};

use crate::audit::StreamAudit;
use crate::delivery::Delivery;
use crate::hints::{Hints, key_of};
use crate::limits::MAX_STREAMS;
use sacn_packets::DataView;
use sacn_sources::NETWORK_DATA_LOSS;
use std::alloc::{AllocError, Global};
use std::marker::Model;

/// A source on a universe, and the audit of its packets there.
#[derive(Drop)]
pub struct AuditedStream {
    /// The universe, 1 to 63999 (E1.31, 6.2.7).
    pub universe: u16,
    /// The source's CID, a UUID (E1.31, 5.6).
    pub cid: [u8; 16],
    /// The source sends it since this moment, in milliseconds: that of the first packet, or of the first one after an end or after more
    /// than 2500 ms of silence, by which a stream is lost (E1.31, 6.7.1).
    pub began: u64,
    pub audit: StreamAudit,
}

impl AuditedStream {
    fn begin(moment: u64, delivery: Delivery, packet: &DataView<'_>) -> Self
        ensures { result ≡ first_stream moment delivery packet.now }
    {
        AuditedStream {
            universe: packet.universe(),
            cid: packet.cid(),
            began: moment,
            audit: StreamAudit::begin(moment, delivery, packet),
        }
    }

    fn hear(&mut self, moment: u64, delivery: Delivery, packet: &DataView<'_>)
        ensures { self.new ≡ stream_after moment delivery packet.now self.old }
    {
        self.began = self.sent_since(moment);
        self.audit.hear(moment, delivery, packet);
    }

    // Since when the source sends the stream, where a packet comes at a moment.
    fn sent_since(&self, moment: u64) -> u64
        ensures { result ≡ sent_since moment self.now }
    {
        let is_lost = moment.saturating_sub(self.audit.moment()) > NETWORK_DATA_LOSS;
        if self.audit.is_ended() || is_lost {
            moment.max(self.audit.moment())
        } else {
            self.began
        }
    }

    /// Whether it is the stream of a source on a universe.
    pub(crate) fn is_of(&self, universe: u16, cid: &[u8; 16]) -> bool
        ensures { result ≡ is_of universe cid.now self.now }
    {
        self.universe == universe && self.cid == *cid
    }
}

/// Up to `MAX_STREAMS` streams in the order in which they appeared, each once.
#[derive(Drop)]
pub(crate) struct StreamRegister {
    streams: Vec<AuditedStream>,
    hints: Hints,
}

impl Model for StreamRegister {
    ghost use Rattle.std.specs.Prelude.{List, ◌≤◌, vec_capacity};
    ghost use Rattle.sacn_audit.specs.declared.limits.TheConstants.{MAX_STREAMS};
    ghost use Rattle.sacn_audit.specs.declared.stream_register.AuditedStream.{AuditedStream};
    ghost use Rattle.sacn_audit.specs.Networks.{AreDistinct};

    ghost Value = { List AuditedStream };

    ghost view = { λ r. r.streams.items };

    ghost invariant = { λ r. (MAX_STREAMS ≤ vec_capacity r.streams) × AreDistinct r.streams.items };
}

impl StreamRegister {
    /// No streams, with all its room taken in two requests.
    ///
    /// Errors: a request was refused.
    pub(crate) fn new(alloc: Global) -> Result<Self, AllocError>
        ensures { IfOk result (λ r. r ≡ []) }
    {
        Ok(StreamRegister {
            streams: Vec::with_capacity(alloc, MAX_STREAMS)?,
            hints: Hints::new(alloc)?,
        })
    }

    pub(crate) fn as_slice(&self) -> &[AuditedStream]
        ensures { result.now ≡ self.now }
    {
        self.streams.as_slice()
    }

    /// A packet: of a stream that is there, or of a further one, where there is room. Returns whether there was.
    pub(crate) fn hear(&mut self, moment: u64, delivery: Delivery, packet: &DataView<'_>) -> bool
        ensures tracked { result ≡ is_tracked packet.now self.old }
        ensures streams { self.new ≡ streams_after moment delivery packet.now self.old }
    {
        match self.place_of(packet.universe(), &packet.cid()) {
            Some(at) => {
                self.hear_at(at, moment, delivery, packet);
                true
            }
            None => self.admit(moment, delivery, packet),
        }
    }

    /// The place of the stream of a source on a universe, as a look at all of them in turn finds it.
    pub(crate) fn place_of(&self, universe: u16, cid: &[u8; 16]) -> Option<usize>
        ensures { result ≡ place_of universe cid.now self.now }
    {
        let place = self.hints.guess(key_of(universe, cid));
        if place < self.streams.len() && self.streams[place].is_of(universe, cid) {
            return Some(place);
        }
        place_in(self.streams.as_slice(), universe, cid)
    }

    // A packet of the stream at a place.
    fn hear_at(&mut self, at: usize, moment: u64, delivery: Delivery, packet: &DataView<'_>)
        requires { at < length self.old }
        ensures { (s : AuditedStream) → self.new ≡ slice_set self.old at (stream_after moment delivery packet.now (slice_index_or self.old at s)) }
    {
        self.streams[at].hear(moment, delivery, packet);
        self.hints
            .keep(key_of(packet.universe(), &packet.cid()), at);
    }

    // The first packet of a stream. Returns whether there was room for it.
    fn admit(&mut self, moment: u64, delivery: Delivery, packet: &DataView<'_>) -> bool
        requires { place_of packet.now.universe packet.now.cid self.old ≡ None }
        ensures tracked { result ≡ is_tracked packet.now self.old }
        ensures streams { self.new ≡ streams_after moment delivery packet.now self.old }
    {
        if self.streams.len() >= MAX_STREAMS {
            return false;
        }
        self.push(AuditedStream::begin(moment, delivery, packet));
        true
    }

    // A stream more, of a source and a universe that no other has.
    fn push(&mut self, stream: AuditedStream)
        requires room { length self.old < MAX_STREAMS }
        requires unknown { place_of stream.universe stream.cid self.old ≡ None }
        ensures { self.new ≡ self.old ++ stream ∷ [] }
    {
        self.hints
            .keep(key_of(stream.universe, &stream.cid), self.streams.len());
        self.streams.push_reserved(stream);
    }
}

// The place of the stream of a source on a universe, by a look at all in turn.
fn place_in(streams: &[AuditedStream], universe: u16, cid: &[u8; 16]) -> Option<usize>
    ensures { result ≡ place_of universe cid.now streams.now }
{
    streams
        .iter()
        .position(|stream| stream.is_of(universe, cid))
}
