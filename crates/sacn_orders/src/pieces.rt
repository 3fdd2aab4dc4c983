//! The pieces of a line's words, cut at the signs.
ghost use Rattle.std.specs.Prelude.{◌≡◌, ◌-◌, ◌≤◌, ◌++◌, IfOk, OnOk, drop, map, take};
ghost use Rattle.std.specs.Str.{IsCharBoundary};
ghost use Rattle.sacn_files.specs.Words.{words_at_end};
ghost use Rattle.sacn_orders.specs.Pieces.{is_sign, pieces_in, pieces_of};

use std::alloc::{AllocError, Global};

/// Whether an octet is one of the signs `+`, `-` and `%`.
pub(crate) fn is_sign(octet: u8) -> bool
    ensures { result ≡ is_sign octet }
{
    octet == b'+' || octet == b'-' || octet == b'%'
}

/// A piece that ends, unless it is empty.
fn push_piece<'a>(
    found: &mut Vec<&'a str>,
    word: &'a str,
    start: usize,
    end: usize,
) -> Result<(), AllocError>
    requires order { start ≤ end }
    requires start { IsCharBoundary word.now start }
    requires end { IsCharBoundary word.now end }
    ensures { OnOk result (map (λ w. w.now) found.new.items
        ≡ map (λ w. w.now) found.old.items ++ words_at_end (take (end - start) (drop start word.now))) }
{
    if start < end {
        found.push(&word[start..end])?;
    }
    Ok(())
}

/// Adds the pieces of a word. Where a growth is refused some of them are there.
fn put_pieces<'a>(found: &mut Vec<&'a str>, word: &'a str) -> Result<(), AllocError>
    ensures { OnOk result (map (λ w. w.now) found.new.items
        ≡ map (λ w. w.now) found.old.items ++ pieces_in word.now) }
{
    let octets = word.as_bytes();
    let mut start = 0;
    for i in 0..octets.len() {
        if is_sign(octets[i]) {
            push_piece(found, word, start, i)?;
            push_piece(found, word, i, i + 1)?;
            start = i + 1;
        }
    }
    push_piece(found, word, start, word.len())
}

/// The pieces of some words, in their order: a sign is a piece of its own, with spaces round it or without.
///
/// Errors: a growth was refused.
pub(crate) fn pieces_of<'a>(alloc: Global, words: &[&'a str]) -> Result<Vec<&'a str>, AllocError>
    ensures { IfOk result (λ v. map (λ w. w.now) v.items ≡ pieces_of (map (λ w. w.now) words.now)) }
{
    let mut found = Vec::new(alloc);
    for i in 0..words.len() {
        put_pieces(&mut found, words[i])?;
    }
    Ok(found)
}
