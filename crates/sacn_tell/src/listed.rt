//! What a source lists, beside what it was heard on (E1.31, 8).

ghost use Rattle.std.specs.Prelude.{◌≡◌, ◌==◌, ℕ, IfOk, filter, map, not};
ghost use Rattle.std.specs.Str.{bytes_eq};
ghost use Rattle.std.specs.List.{list_any};
ghost use Rattle.std.specs.List.Sorted.{IsNonDecreasing};
ghost use Rattle.sacn_tell.specs.Lists.{is_heard, silent, is_unlisted, unlisted};

use sacn_monitor::Stream;
use std::alloc::{AllocError, Global};

// The universes of a source's streams, in the order in which they appeared. Room is taken once, for those of all streams.
fn universes_of(alloc: Global, streams: &[Stream], cid: &[u8; 16]) -> Result<Vec<u16>, AllocError>
    ensures { IfOk result (λ found. found.items
        ≡ map (λ s. s.universe) (filter (λ s. bytes_eq s.cid cid.now) streams.now)) }
{
    let mut found = Vec::with_capacity(alloc, streams.len())?;
    for i in 0..streams.len() {
        if streams[i].cid == *cid {
            found.push(streams[i].universe)?;
        }
    }
    Ok(found)
}

// The universes on which a source was heard, ascending, so that each is found in a few steps.
fn heard_universes(
    alloc: Global,
    streams: &[Stream],
    cid: &[u8; 16],
) -> Result<Vec<u16>, AllocError>
    ensures ascend { IfOk result (λ heard. IsNonDecreasing heard.items) }
    ensures members { IfOk result (λ heard. (universe : ℕ)
        → list_any (λ n. n == universe) heard.items ≡ is_heard streams.now cid.now universe) }
{
    let mut heard = universes_of(alloc, streams, cid)?;
    heard.sort_unstable();
    Ok(heard)
}

// Whether a number is among some that ascend.
fn is_among(numbers: &[u16], number: u16) -> bool
    requires { IsNonDecreasing numbers.now }
    ensures { result ≡ list_any (λ n. n == number) numbers.now }
{
    numbers.binary_search(&number).is_ok()
}

// Those of some numbers that aren't among others, which ascend.
fn others(alloc: Global, numbers: &[u16], heard: &[u16]) -> Result<Vec<u16>, AllocError>
    requires { IsNonDecreasing heard.now }
    ensures { IfOk result (λ left. left.items
        ≡ filter (λ number. not (list_any (λ n. n == number) heard.now)) numbers.now) }
{
    let mut left = Vec::new(alloc);
    for i in 0..numbers.len() {
        if !is_among(heard, numbers[i]) {
            left.push(numbers[i])?;
        }
    }
    Ok(left)
}

/// The universes that a source lists, and on which it wasn't heard. The streams are looked at once, however many
/// universes are listed.
pub fn silent_universes(
    alloc: Global,
    streams: &[Stream],
    cid: &[u8; 16],
    listed: &[u16],
) -> Result<Vec<u16>, AllocError>
    ensures { IfOk result (λ found. found.items ≡ silent streams.now cid.now listed.now) }
{
    let heard = heard_universes(alloc, streams, cid)?;
    others(alloc, listed, heard.as_slice())
}

// Whether it is a stream of a source, on a universe that the source doesn't list.
fn is_unlisted(stream: &Stream, cid: &[u8; 16], listed: &[u16]) -> bool
    ensures { result ≡ is_unlisted cid.now listed.now stream.now }
{
    if stream.cid != *cid {
        return false;
    }
    !listed.contains(&stream.universe)
}

/// The universes on which a source was heard, and that it doesn't list, in the order in which it appeared there.
pub fn unlisted_universes(
    alloc: Global,
    streams: &[Stream],
    cid: &[u8; 16],
    listed: &[u16],
) -> Result<Vec<u16>, AllocError>
    ensures { IfOk result (λ found. found.items ≡ unlisted streams.now cid.now listed.now) }
{
    streams
        .iter()
        .filter(|stream| is_unlisted(stream, cid, listed))
        .map(|stream| stream.universe)
        .collect(alloc)
}
