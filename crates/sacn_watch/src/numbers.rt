//! Which source is which, on all its universes.

use sacn_monitor::Stream;
use std::alloc::{AllocError, Global};

/// For each stream the number of its source: sources are counted from 0 in the order in which they appeared, and one has the same number on all its
/// universes.
///
/// Errors: a growth was refused.
pub(crate) fn source_numbers(alloc: Global, streams: &[Stream]) -> Result<Vec<usize>, AllocError> {
    let mut numbers: Vec<usize> = Vec::new(alloc);
    let mut count = 0_usize;
    for stream in streams {
        let first = first_of(streams, &stream.cid);
        match numbers.get(first) {
            Some(number) => {
                let number = *number;
                numbers.push(number)?;
            }
            None => {
                numbers.push(count)?;
                count = count.saturating_add(1);
            }
        }
    }
    Ok(numbers)
}

// The place of the first stream of a source.
fn first_of(streams: &[Stream], cid: &[u8; 16]) -> usize {
    match streams.iter().position(|stream| stream.cid == *cid) {
        Some(place) => place,
        None => streams.len(),
    }
}

/// The letter of the source with a number.
pub(crate) fn letter_of(number: usize) -> u32 {
    'A' as u32 + (number % 26) as u32
}
