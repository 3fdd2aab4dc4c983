//! A script's text.
ghost use Rattle.std.specs.Prelude.{◌≡◌, map, ok_or};
ghost use Rattle.sacn_files.specs.Words.{number_in};
ghost use Rattle.sacn_console.specs.Scripts.{none_in, one_in, two_in, command_in, order_in, script_in, Orders};

use crate::command::Command;
use sacn_files::faults::TextFault;
use sacn_files::lines::{is_skipped, lines_of};
use sacn_files::words::{number_in, put_words, short_in};
use std::alloc::Global;

/// A whole number of sixteen bits.
fn number_of(line: usize, word: &str) -> Result<u16, TextFault>
    ensures { result ≡ ok_or (number_in 65535 word.now) (TextFault.Number line) }
{
    short_in(word).ok_or(TextFault::Number(line))
}

fn go_in(line: usize, words: &[&str]) -> Result<Command, TextFault>
    ensures { result ≡ none_in line Command.Go (map (λ w. w.now) words.now) }
{
    match words {
        [] => Ok(Command::Go),
        _ => Err(TextFault::WordCount(line)),
    }
}

fn go_to_in(line: usize, words: &[&str]) -> Result<Command, TextFault>
    ensures { result ≡ one_in line (λ n. Command.GoTo n) (map (λ w. w.now) words.now) }
{
    match words {
        [number] => Ok(Command::GoTo(number_of(line, number)?)),
        _ => Err(TextFault::WordCount(line)),
    }
}

fn set_in(line: usize, words: &[&str]) -> Result<Command, TextFault>
    ensures { result ≡ two_in line (λ n m. Command.SetLevel n m) (map (λ w. w.now) words.now) }
{
    match words {
        [channel, level] => {
            let channel = number_of(line, channel)?;
            let level = number_of(line, level)?;
            Ok(Command::SetLevel(channel, level))
        }
        _ => Err(TextFault::WordCount(line)),
    }
}

fn master_in(line: usize, words: &[&str]) -> Result<Command, TextFault>
    ensures { result ≡ one_in line (λ n. Command.Master n) (map (λ w. w.now) words.now) }
{
    match words {
        [number] => Ok(Command::Master(number_of(line, number)?)),
        _ => Err(TextFault::WordCount(line)),
    }
}

fn end_in(line: usize, words: &[&str]) -> Result<Command, TextFault>
    ensures { result ≡ one_in line (λ n. Command.EndUniverse n) (map (λ w. w.now) words.now) }
{
    match words {
        [number] => Ok(Command::EndUniverse(number_of(line, number)?)),
        _ => Err(TextFault::WordCount(line)),
    }
}

fn start_in(line: usize, words: &[&str]) -> Result<Command, TextFault>
    ensures { result ≡ one_in line (λ n. Command.StartUniverse n) (map (λ w. w.now) words.now) }
{
    match words {
        [number] => Ok(Command::StartUniverse(number_of(line, number)?)),
        _ => Err(TextFault::WordCount(line)),
    }
}

/// The command of some words, from the command word on, of the line of this number (profile):
/// `WordCount` where there is none, `UnknownWord` where the first isn't known, `WordCount` where there
/// are too few or too many, `Number` for the first that isn't a whole number of sixteen bits.
pub fn command_of(words: &[&str], line: usize) -> Result<Command, TextFault>
    ensures { result ≡ command_in line (map (λ w. w.now) words.now) }
{
    match words {
        [] => Err(TextFault::WordCount(line)),
        [word, rest @ ..] => {
            if *word == "go" {
                go_in(line, rest)
            } else if *word == "goto" {
                go_to_in(line, rest)
            } else if *word == "set" {
                set_in(line, rest)
            } else if *word == "master" {
                master_in(line, rest)
            } else if *word == "end" {
                end_in(line, rest)
            } else if *word == "start" {
                start_in(line, rest)
            } else {
                Err(TextFault::UnknownWord(line))
            }
        }
    }
}

/// A line's moment and command.
fn order_in(line: usize, words: &[&str]) -> Result<(u64, Command), TextFault>
    ensures { result ≡ order_in line (map (λ w. w.now) words.now) }
{
    let Some((first, rest)) = words.split_first() else {
        return Err(TextFault::WordCount(line));
    };
    let command = command_of(rest, line)?;
    let moment = number_in(u64::MAX, first).ok_or(TextFault::Number(line))?;
    Ok((moment, command))
}

/// The orders of a script, each with its moment in milliseconds, or the first faulty line's fault;
/// `OutOfMemory` may stand in place of either where a request for memory is refused.
///
/// A line is a moment and a command. A line without words, or whose first begins with `#`, is
/// skipped. In a line the command is looked at first, and then the moment (profile).
pub fn read_script(alloc: Global, text: &str) -> Result<Vec<(u64, Command)>, TextFault>
    ensures { Orders result (script_in text.now) }
{
    let lines = lines_of(alloc, text)?;
    // One vector has the words of each line in turn, which saves one a line: as by a loop over `said_lines`.
    let mut words = Vec::new(alloc);
    let mut orders = Vec::new(alloc);
    for i in 0..lines.len() {
        put_words(&mut words, lines[i])?;
        if !is_skipped(words.as_slice()) {
            orders.push(order_in(i + 1, words.as_slice())?)?;
        }
    }
    Ok(orders)
}
