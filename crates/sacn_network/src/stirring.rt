//! What the news of a packet may change.

ghost use Rattle.std.specs.Prelude.{◌≡◌, slice_get};
ghost use Rattle.sacn_network.specs.Contests.{universe_of};
ghost use Rattle.sacn_network.specs.LightEnds.{comes_by, out_universe};
ghost use Rattle.sacn_network.specs.Losses.{lost_from, soonest_loss};
ghost use Rattle.sacn_network.specs.Packets.{stirred_universe, stirs, tells_nothing};

use sacn_monitor::{Monitor, News, Noted, Stream, StreamEvent};
use sacn_sources::NETWORK_DATA_LOSS;

/// Whether a packet tells nothing new.
pub(crate) fn tells_nothing(news: &News) -> bool
    ensures { result ≡ tells_nothing news.now }
{
    (news.event == StreamEvent::GoesOn)
        & (news.skipped == 0)
        & !news.began_anew
        & news.leaves_out.is_none()
        & news.priority.is_none()
        & !news.renamed
        & !news.moved
}

/// Whether a packet may change who lights its universe at the top priority (E1.31, 6.2.3), or is the first of its source there: its
/// source doesn't go on, ends a stream, or lights the universe otherwise than before.
#[inline(always)]
fn stirs(stream: &Stream, news: &News) -> bool
    ensures { result ≡ stirs stream.now news.now }
{
    (news.event != StreamEvent::GoesOn) | stream.account.ended | news.relit
}

/// The universe that a packet of the stream at a place stirs, if it stirs one.
pub(crate) fn stirred_universe(streams: &[Stream], place: usize, news: &News) -> Option<u16>
    ensures { result ≡ stirred_universe (slice_get streams.now place) news.now }
{
    let Some(stream) = streams.get(place) else {
        return None;
    };
    if stirs(stream, news) {
        Some(stream.universe)
    } else {
        None
    }
}

/// The universe of the stream at a place.
pub(crate) fn universe_at(streams: &[Stream], place: usize) -> Option<u16>
    ensures { result ≡ universe_of (slice_get streams.now place) }
{
    let Some(stream) = streams.get(place) else {
        return None;
    };
    Some(stream.universe)
}

/// Whether a moment comes by another one. The last moment of all never comes.
pub(crate) fn comes_by(until: u64, moment: u64) -> bool
    ensures { result ≡ comes_by until moment }
{
    moment < until.saturating_add(1)
}

/// The universe of the stream at a place, if its light, which was on at a moment, is out by now.
pub(crate) fn out_universe(monitor: &Monitor, place: usize, before: u64) -> Option<u16>
    ensures { result ≡ out_universe before monitor.now.moment (slice_get monitor.now.streams place) }
{
    let Some(stream) = monitor.streams().get(place) else {
        return None;
    };
    if comes_by(monitor.moment(), stream.light_end(before)) {
        Some(stream.universe)
    } else {
        None
    }
}

/// The stream of a packet, where a datagram was one, isn't lost before this moment.
pub(crate) fn soonest_loss(streams: &[Stream], noted: &Noted) -> u64
    ensures { result ≡ soonest_loss noted.now streams.now }
{
    match noted {
        Noted::Heard(place, _) => lost_from(streams, *place),
        _ => u64::MAX,
    }
}

// The stream at a place, if there is one, isn't lost before this moment.
fn lost_from(streams: &[Stream], place: usize) -> u64
    ensures { result ≡ lost_from (slice_get streams.now place) }
{
    let Some(stream) = streams.get(place) else {
        return u64::MAX;
    };
    stream.account.latest.saturating_add(NETWORK_DATA_LOSS)
}
