//! What a typed line orders.
ghost use Rattle.std.specs.Prelude.{◌≡◌, map};
ghost use Rattle.sacn_files.specs.Document.{Gives};
ghost use Rattle.sacn_orders.specs.Orders.{alone, begins_so, is_of_channels, order_in, plain, word_in};
ghost use Rattle.sacn_orders.specs.declared.fault.OrderFault.TheVariants.{OutOfMemory};

use crate::fault::OrderFault;
use crate::grammar::levels_in;
use crate::pieces::{is_sign, pieces_of};
use crate::selection::Selection;
use sacn_console::{Command, TextFault, command_of};
use sacn_cues::FULL;
use std::alloc::Global;

/// What a line orders.
#[derive(Drop)]
pub enum Order {
    /// Sets each chosen channel, from the lowest to the highest, to this level.
    Levels(Selection, u16),
    /// Sets the grand master.
    Master(u16),
    /// Goes to the cue before the current one.
    Back,
    /// Lists the cues.
    Cues,
    /// Lists the patch.
    Patch,
    /// A command as `sacn_console::command_of` reads it.
    Plain(Command),
}

/// Whether a word's first octet begins a number or is a sign.
fn begins_so(word: &str) -> bool
    ensures { result ≡ begins_so word.now }
{
    match word.as_bytes().first() {
        Some(octet) => octet.is_ascii_digit() || is_sign(*octet),
        None => false,
    }
}

/// Whether a line of this first word speaks of channels.
fn is_of_channels(word: &str) -> bool
    ensures { result ≡ is_of_channels word.now }
{
    word == "all" || word == "at" || word == "thru" || begins_so(word)
}

/// An order of one word, behind which nothing may stand.
fn alone(line: usize, order: Order, rest: &[&str]) -> Result<Order, OrderFault>
    ensures { result ≡ alone line order (map (λ w. w.now) rest.now) }
{
    match rest {
        [] => Ok(order),
        _ => Err(OrderFault::Text(TextFault::WordCount(line))),
    }
}

fn plain(words: &[&str], line: usize) -> Result<Order, OrderFault>
    ensures { result ≡ plain line (map (λ w. w.now) words.now) }
{
    match command_of(words, line) {
        Ok(command) => Ok(Order::Plain(command)),
        Err(fault) => Err(OrderFault::Text(fault)),
    }
}

/// The order of a line that speaks of no channels.
fn word_in(words: &[&str], line: usize) -> Result<Order, OrderFault>
    ensures { result ≡ word_in line (map (λ w. w.now) words.now) }
{
    match words {
        [] => plain(words, line),
        [word, rest @ ..] => {
            if *word == "blackout" {
                alone(line, Order::Master(0), rest)
            } else if *word == "restore" {
                alone(line, Order::Master(FULL), rest)
            } else if *word == "back" {
                alone(line, Order::Back, rest)
            } else if *word == "cues" {
                alone(line, Order::Cues, rest)
            } else if *word == "patch" {
                alone(line, Order::Patch, rest)
            } else {
                plain(words, line)
            }
        }
    }
}

/// The order of the words of the line of this number (profile).
///
/// A line whose first word is `all`, `at` or `thru`, or begins with a digit or a sign, speaks of channels: a selection,
/// `at` and a level. `blackout`, `restore`, `back`, `cues` and `patch` stand alone. Each other line is a command, as
/// `sacn_console::command_of` reads it. Only a line of channels takes memory.
///
/// Errors: `Text` with the fault of `command_of`, and with `WordCount` where more stands behind a word that stands alone;
/// the other faults are those of lines of channels, the first in the order of the words. `OutOfMemory` may stand in place
/// of either.
pub fn order_of(alloc: Global, words: &[&str], line: usize) -> Result<Order, OrderFault>
    ensures { Gives OutOfMemory result (order_in line (map (λ w. w.now) words.now)) }
{
    match words {
        [] => word_in(words, line),
        [word, ..] => {
            if is_of_channels(word) {
                let pieces = pieces_of(alloc, words)?;
                levels_in(pieces.as_slice())
            } else {
                word_in(words, line)
            }
        }
    }
}
