//! The lines of a schedule, each from its words after the first.
ghost use Rattle.std.specs.Prelude.{◌≡◌, map};
ghost use Rattle.sacn_schedule.specs.Reads.{GivesAs};
ghost use Rattle.sacn_schedule.specs.Schedules.{wide, narrow, number_of, order_in, poll_in, deliver_in, look_in, restart_console_in, restart_node_in, octets_of, noise_in, GivesEvent};

use crate::event::Event;
use hex::FromHexError;
use sacn_console::command_of;
use sacn_files::faults::TextFault;
use sacn_files::words::{byte_in, index_in, number_in};
use std::alloc::Global;

/// The number of a console, a node or a datagram.
#[tactic(auto, unfolding(crate::specs::Schedules::number_of))]
fn index_of(line: usize, word: &str) -> Result<usize, TextFault>
    ensures { result ≡ number_of line wide word.now }
{
    index_in(word).ok_or(TextFault::Number(line))
}

/// A moment in milliseconds.
#[tactic(auto, unfolding(crate::specs::Schedules::number_of))]
fn moment_of(line: usize, word: &str) -> Result<u64, TextFault>
    ensures { result ≡ number_of line wide word.now }
{
    number_in(u64::MAX, word).ok_or(TextFault::Number(line))
}

/// A port, or the first number of a console's packets.
#[tactic(auto, unfolding(crate::specs::Schedules::number_of))]
fn byte_of(line: usize, word: &str) -> Result<u8, TextFault>
    ensures { result ≡ number_of line narrow word.now }
{
    byte_in(word).ok_or(TextFault::Number(line))
}

/// A console, a moment and a command; the command is looked at first.
pub(super) fn order_in(line: usize, words: &[&str]) -> Result<Event, TextFault>
    ensures { GivesEvent result (order_in line (map (λ w. w.now) words.now)) }
{
    match words {
        [console, moment, command @ ..] => {
            let command = command_of(command, line)?;
            let console = index_of(line, console)?;
            let moment = moment_of(line, moment)?;
            Ok(Event::Order(console, moment, command))
        }
        _ => Err(TextFault::WordCount(line)),
    }
}

/// A console and a moment.
pub(super) fn poll_in(line: usize, words: &[&str]) -> Result<Event, TextFault>
    ensures { GivesEvent result (poll_in line (map (λ w. w.now) words.now)) }
{
    match words {
        [console, moment] => {
            let console = index_of(line, console)?;
            let moment = moment_of(line, moment)?;
            Ok(Event::Poll(console, moment))
        }
        _ => Err(TextFault::WordCount(line)),
    }
}

/// A datagram, a node and a moment.
pub(super) fn deliver_in(line: usize, words: &[&str]) -> Result<Event, TextFault>
    ensures { GivesEvent result (deliver_in line (map (λ w. w.now) words.now)) }
{
    match words {
        [datagram, node, moment] => {
            let datagram = index_of(line, datagram)?;
            let node = index_of(line, node)?;
            let moment = moment_of(line, moment)?;
            Ok(Event::Deliver(datagram, node, moment))
        }
        _ => Err(TextFault::WordCount(line)),
    }
}

/// A node, a port and a moment.
pub(super) fn look_in(line: usize, words: &[&str]) -> Result<Event, TextFault>
    ensures { GivesEvent result (look_in line (map (λ w. w.now) words.now)) }
{
    match words {
        [node, port, moment] => {
            let node = index_of(line, node)?;
            let port = byte_of(line, port)?;
            let moment = moment_of(line, moment)?;
            Ok(Event::Look(node, port, moment))
        }
        _ => Err(TextFault::WordCount(line)),
    }
}

/// A console and its first number.
pub(super) fn restart_console_in(line: usize, words: &[&str]) -> Result<Event, TextFault>
    ensures { GivesEvent result (restart_console_in line (map (λ w. w.now) words.now)) }
{
    match words {
        [console, first] => {
            let console = index_of(line, console)?;
            let first = byte_of(line, first)?;
            Ok(Event::RestartConsole(console, first))
        }
        _ => Err(TextFault::WordCount(line)),
    }
}

/// A node.
pub(super) fn restart_node_in(line: usize, words: &[&str]) -> Result<Event, TextFault>
    ensures { GivesEvent result (restart_node_in line (map (λ w. w.now) words.now)) }
{
    match words {
        [node] => Ok(Event::RestartNode(index_of(line, node)?)),
        _ => Err(TextFault::WordCount(line)),
    }
}

/// The octets of a word in hexadecimal digits of either case, of which `-` has none.
#[tactic(auto, unfolding(crate::specs::Schedules::octets_of))]
fn octets_of(alloc: Global, line: usize, word: &str) -> Result<Vec<u8>, TextFault>
    ensures { GivesAs (λ octets. octets.items) TextFault.OutOfMemory result
        (octets_of line word.now) }
{
    if word == "-" {
        return Ok(Vec::new(alloc));
    }
    match hex::decode(alloc, word) {
        Ok(octets) => Ok(octets),
        Err(FromHexError::OutOfMemory) => Err(TextFault::OutOfMemory),
        Err(_) => Err(TextFault::Hex(line)),
    }
}

/// A node, a moment and octets.
pub(super) fn noise_in(alloc: Global, line: usize, words: &[&str]) -> Result<Event, TextFault>
    ensures { GivesEvent result (noise_in line (map (λ w. w.now) words.now)) }
{
    match words {
        [node, moment, octets] => {
            let node = index_of(line, node)?;
            let moment = moment_of(line, moment)?;
            let octets = octets_of(alloc, line, octets)?;
            Ok(Event::Noise(node, moment, octets))
        }
        _ => Err(TextFault::WordCount(line)),
    }
}
