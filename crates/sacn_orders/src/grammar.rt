//! The pieces of a line that speaks of channels: a selection, `at` and a level.
ghost use Rattle.std.specs.Prelude.{◌≡◌, ◌≤◌, length, map};
ghost use Rattle.std.specs.List.{position_or_len};
ghost use Rattle.sacn_orders.specs.Orders.{all_in, is_at, is_joining, is_plus, levels_in, levels_said, one_more, parts_in, selection_in, to_level};

use crate::fault::OrderFault;
use crate::level::level_in;
use crate::order::Order;
use crate::part::{Part, part_in};
use crate::selection::Selection;
use sacn_patch::MAX_CHANNELS;

fn is_plus(piece: &str) -> bool
    ensures { result ≡ is_plus piece.now }
{
    piece == "+"
}

/// Whether a piece joins parts.
fn is_joining(piece: &str) -> bool
    ensures { result ≡ is_joining piece.now }
{
    piece == "+" || piece == "-"
}

/// The parts with one more. Errors: `TooManyParts` where there is no room, else what `part_in` says.
fn one_more(selection: Selection, is_added: bool, pieces: &[&str]) -> Result<Selection, OrderFault>
    ensures { result ≡ one_more selection is_added (map (λ w. w.now) pieces.now) }
{
    let mut selection = selection;
    if !selection.has_room() {
        return Err(OrderFault::TooManyParts);
    }
    let part = part_in(is_added, pieces)?;
    selection.push(part);
    Ok(selection)
}

/// The parts between the signs, each read in turn.
fn parts_in(pieces: &[&str]) -> Result<Selection, OrderFault>
    ensures { result ≡ parts_in (map (λ w. w.now) pieces.now) }
{
    let mut selection = Selection::new();
    let mut start = 0;
    let mut is_added = true;
    for i in 0..pieces.len() {
        if is_joining(pieces[i]) {
            selection = one_more(selection, is_added, &pieces[start..i])?;
            is_added = is_plus(pieces[i]);
            start = i + 1;
        }
    }
    one_more(selection, is_added, &pieces[start..])
}

/// Every channel, where nothing more stands behind `all`.
fn all_in(pieces: &[&str]) -> Result<Selection, OrderFault>
    ensures { result ≡ all_in (map (λ w. w.now) pieces.now) }
{
    match pieces {
        [] => {
            let mut selection = Selection::new();
            selection.push(Part {
                first: 1,
                last: MAX_CHANNELS,
                is_added: true,
            });
            Ok(selection)
        }
        _ => Err(OrderFault::Word),
    }
}

/// What stands before `at`.
fn selection_in(pieces: &[&str]) -> Result<Selection, OrderFault>
    ensures { result ≡ selection_in (map (λ w. w.now) pieces.now) }
{
    match pieces {
        [] => Err(OrderFault::NoChannels),
        [piece, rest @ ..] => {
            if *piece == "all" {
                all_in(rest)
            } else {
                parts_in(pieces)
            }
        }
    }
}

/// The place of the first `at`, or where the pieces end.
fn place_of_at(pieces: &[&str]) -> usize
    ensures place { result ≡ position_or_len is_at (map (λ w. w.now) pieces.now) }
    ensures within { result ≤ length pieces.now }
{
    for i in 0..pieces.len() {
        if pieces[i] == "at" {
            return i;
        }
    }
    pieces.len()
}

/// The level, by the pieces from `at` on.
fn to_level(pieces: &[&str]) -> Result<u16, OrderFault>
    ensures { result ≡ to_level (map (λ w. w.now) pieces.now) }
{
    match pieces {
        [] => Err(OrderFault::Word),
        [_, rest @ ..] => level_in(rest),
    }
}

/// The order of what stands before `at`, and of the pieces from there on.
fn levels_said(before: &[&str], behind: &[&str]) -> Result<Order, OrderFault>
    ensures { result ≡ levels_said (map (λ w. w.now) before.now) (map (λ w. w.now) behind.now) }
{
    let selection = selection_in(before)?;
    let level = to_level(behind)?;
    Ok(Order::Levels(selection, level))
}

/// The order of a line's pieces, where it speaks of channels. Errors: the first fault in the order of the pieces.
pub(crate) fn levels_in(pieces: &[&str]) -> Result<Order, OrderFault>
    ensures { result ≡ levels_in (map (λ w. w.now) pieces.now) }
{
    let at = place_of_at(pieces);
    levels_said(&pieces[..at], &pieces[at..])
}
