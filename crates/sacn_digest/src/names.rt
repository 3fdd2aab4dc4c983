//! The names of sources.

use sacn_monitor::Stream;
use sacn_packets::up_to_nul;
use sacn_tell::{push_name, push_short_cid};
use std::alloc::AllocError;

/// The source of a stream: its name there and its short CID.
pub(crate) fn push_source(text: &mut String, stream: &Stream) -> Result<(), AllocError> {
    push_name(text, up_to_nul(&stream.account.name))?;
    text.push(' ')?;
    push_short_cid(text, &stream.cid)
}

/// The same of a source that is known by its CID: its name is that of the first of its streams.
pub(crate) fn push_source_of(
    text: &mut String,
    cid: &[u8; 16],
    streams: &[Stream],
) -> Result<(), AllocError> {
    push_name_of(text, cid, streams)?;
    text.push(' ')?;
    push_short_cid(text, cid)
}

/// The name that a source has in the first of its streams, between quotes; an empty one where it has no stream.
pub(crate) fn push_name_of(
    text: &mut String,
    cid: &[u8; 16],
    streams: &[Stream],
) -> Result<(), AllocError> {
    match place_of(cid, streams) {
        Some(place) => push_name_at(text, place, streams),
        None => push_name(text, b""),
    }
}

// The place of the first stream of a source.
fn place_of(cid: &[u8; 16], streams: &[Stream]) -> Option<usize> {
    streams.iter().position(|stream| stream.cid == *cid)
}

fn push_name_at(text: &mut String, place: usize, streams: &[Stream]) -> Result<(), AllocError> {
    match streams.get(place) {
        Some(stream) => push_name(text, up_to_nul(&stream.account.name)),
        None => push_name(text, b""),
    }
}
