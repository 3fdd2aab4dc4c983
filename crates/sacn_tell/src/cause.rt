//! Why a frame of a node is another one.

ghost use Rattle.std.specs.Prelude.{◌≡◌, ◌++◌, OnOk, position, slice_get, string_bytes};
ghost use Rattle.sacn_tell.specs.Causes.{are_lost_of, on_universe, by_words, cause_among, cause_words, by_members, cause_members, is_lost_at, is_of_node, loss_among, lost_alone, lost_members, lost_words, reason_of};
ghost use Rattle.sacn_tell.specs.Members.{name_of};
ghost use Rattle.sacn_tell.specs.Sentences.{source_text};

use crate::{event_words, json};
use sacn_monitor::{Noted, Stream};
use sacn_node::NodeCore;
use sacn_packets::up_to_nul;
use sacn_sources::NETWORK_DATA_LOSS;
use std::alloc::AllocError;
use std::fmt::Write;

/// Why a frame of a node is another one than before.
#[derive(Clone, Copy)]
pub enum Cause<'a> {
    /// It is the first.
    Start,
    /// A packet of this source on this universe.
    Packet(&'a Stream),
    /// This source ended its stream (E1.31, 6.2.6).
    Ended(&'a Stream),
    /// A packet of a source for which there was no room.
    Unfollowed,
    /// No packet of a source came for 2500 ms (E1.31, 6.7.1).
    Lost,
    /// None of this source, which alone is lost at that moment.
    LostOf(&'a Stream),
}

/// Why a datagram changed a frame.
pub fn cause_of(streams: &[Stream], noted: Noted) -> Cause<'_>
    ensures { reason_of result ≡ cause_among streams.now noted }
{
    match noted {
        Noted::Heard(place, _) => match streams.get(place) {
            Some(stream) if stream.account.ended => Cause::Ended(stream),
            Some(stream) => Cause::Packet(stream),
            None => Cause::Unfollowed,
        },
        _ => Cause::Unfollowed,
    }
}

/// Why a frame of a node changes at a moment at which a source of its universes is lost.
pub fn loss_of<'s>(streams: &'s [Stream], node: &NodeCore, at: u64) -> Cause<'s>
    ensures { reason_of result ≡ loss_among node.now at streams.now }
{
    match lost_place(streams, node, at) {
        Some(place) => loss_at(streams, node, at, place),
        None => Cause::Lost,
    }
}

// The place of the first stream of a node's universes that is lost at a moment.
fn lost_place(streams: &[Stream], node: &NodeCore, at: u64) -> Option<usize>
    ensures { result ≡ position (is_lost_at node.now at) streams.now }
{
    streams
        .iter()
        .position(|stream| is_lost_at(stream, node, at))
}

// The loss of the source at a place.
fn loss_at<'s>(streams: &'s [Stream], node: &NodeCore, at: u64, place: usize) -> Cause<'s>
    ensures { reason_of result ≡ lost_alone node.now at streams.now (slice_get streams.now place) }
{
    match streams.get(place) {
        Some(stream) if are_lost_of(streams, node, at, &stream.cid) => Cause::LostOf(stream),
        _ => Cause::Lost,
    }
}

// Whether each stream of a node's universes that is lost at a moment is of this source.
fn are_lost_of(streams: &[Stream], node: &NodeCore, at: u64, cid: &[u8; 16]) -> bool
    ensures { result ≡ are_lost_of node.now at cid.now streams.now }
{
    streams.iter().all(|stream| !is_lost_at(stream, node, at) | (stream.cid == *cid))
}

fn is_lost_at(stream: &Stream, node: &NodeCore, at: u64) -> bool
    ensures { result ≡ is_lost_at node.now at stream.now }
{
    let is_silent = at.saturating_sub(stream.account.latest) == NETWORK_DATA_LOSS;
    !stream.account.ended & is_silent && is_of_node(node, stream.universe)
}

// Whether a port of a node shows slots of this universe.
fn is_of_node(node: &NodeCore, universe: u16) -> bool
    ensures { result ≡ is_of_node node.now universe }
{
    let universes = [universe];
    node.port_numbers()
        .iter()
        .any(|port| node.shows(*port, &universes))
}

/// A cause in words.
pub fn push_cause(text: &mut String, cause: &Cause<'_>) -> Result<(), AllocError>
    ensures { OnOk result
        (string_bytes text.new ≡ string_bytes text.old ++ cause_words (reason_of cause.now)) }
{
    match cause {
        Cause::Start => text.push_str("at the start"),
        Cause::Packet(stream) => push_by(text, "by a packet", stream),
        Cause::Ended(stream) => push_by(text, "by the end of a stream", stream),
        Cause::Unfollowed => text.push_str("by a packet of a source that isn't followed"),
        Cause::Lost => text.push_str("by the loss of a source"),
        Cause::LostOf(stream) => push_lost(text, stream),
    }
}

#[tactic(auto, unfolding(crate::specs::Causes::by_words))]
fn push_by(text: &mut String, word: &str, stream: &Stream) -> Result<(), AllocError>
    ensures { OnOk result
        (string_bytes text.new ≡ string_bytes text.old ++ by_words word.now stream.now) }
{
    push_universe(text, word, stream.universe)?;
    push_source(text, stream)
}

#[tactic(auto, unfolding(crate::specs::Causes::on_universe))]
fn push_universe(text: &mut String, word: &str, universe: u16) -> Result<(), AllocError>
    ensures { OnOk result
        (string_bytes text.new ≡ string_bytes text.old ++ on_universe word.now universe) }
{
    write!(text, "{word} on universe {universe} of ")
}

#[tactic(auto, unfolding(crate::specs::Causes::lost_words))]
fn push_lost(text: &mut String, stream: &Stream) -> Result<(), AllocError>
    ensures { OnOk result
        (string_bytes text.new ≡ string_bytes text.old ++ lost_words stream.now) }
{
    text.push_str("by the loss of ")?;
    push_source(text, stream)
}

// A source: its CID and name.
fn push_source(text: &mut String, stream: &Stream) -> Result<(), AllocError>
    ensures { OnOk result
        (string_bytes text.new ≡ string_bytes text.old ++ source_text stream.now.cid (name_of stream.now)) }
{
    event_words::push_source(text, &stream.cid, up_to_nul(&stream.account.name))
}

/// A cause as members of an object.
pub fn push_cause_members(text: &mut String, cause: &Cause<'_>) -> Result<(), AllocError>
    ensures { OnOk result
        (string_bytes text.new ≡ string_bytes text.old ++ cause_members (reason_of cause.now)) }
{
    match cause {
        Cause::Start => json::push_word(text, "cause", "start"),
        Cause::Packet(stream) => push_by_members(text, "packet", stream),
        Cause::Ended(stream) => push_by_members(text, "ended", stream),
        Cause::Unfollowed => json::push_word(text, "cause", "unfollowed"),
        Cause::Lost => json::push_word(text, "cause", "lost"),
        Cause::LostOf(stream) => push_lost_members(text, stream),
    }
}

#[tactic(auto, unfolding(crate::specs::Causes::by_members))]
fn push_by_members(text: &mut String, word: &str, stream: &Stream) -> Result<(), AllocError>
    ensures { OnOk result
        (string_bytes text.new ≡ string_bytes text.old ++ by_members word.now stream.now) }
{
    json::push_word(text, "cause", word)?;
    json::push_stream(text, stream)
}

#[tactic(auto, unfolding(crate::specs::Causes::lost_members))]
fn push_lost_members(text: &mut String, stream: &Stream) -> Result<(), AllocError>
    ensures { OnOk result
        (string_bytes text.new ≡ string_bytes text.old ++ lost_members stream.now) }
{
    json::push_word(text, "cause", "lost")?;
    json::push_source(text, &stream.cid, up_to_nul(&stream.account.name))
}
