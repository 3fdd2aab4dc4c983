//! A schedule's text.
ghost use Rattle.std.specs.Prelude.{◌≡◌, ◌⊎◌, map, IfOk, IfErr};
ghost use Rattle.sacn_files.specs.Lines.{said_lines};
ghost use Rattle.sacn_schedule.specs.Events.{happening};
ghost use Rattle.sacn_schedule.specs.Schedules.{rare_in, event_in, schedule_in, AreGiven, IsFirstFault, GivesEvent, GivesEvents};

mod entries;

use crate::event::Event;
use entries::{
    deliver_in, look_in, noise_in, order_in, poll_in, restart_console_in, restart_node_in,
};
use sacn_files::faults::TextFault;
use sacn_files::lines::{is_skipped, lines_of};
use sacn_files::words::put_words;
use std::alloc::Global;

/// The event of a line that begins with one of the rarer words.
fn rare_in(alloc: Global, line: usize, word: &str, rest: &[&str]) -> Result<Event, TextFault>
    ensures { GivesEvent result (rare_in line word.now (map (λ w. w.now) rest.now)) }
{
    if word == "restart-console" {
        restart_console_in(line, rest)
    } else if word == "restart-node" {
        restart_node_in(line, rest)
    } else if word == "noise" {
        noise_in(alloc, line, rest)
    } else {
        Err(TextFault::UnknownWord(line))
    }
}

/// The event of a line's words.
fn event_in(alloc: Global, line: usize, words: &[&str]) -> Result<Event, TextFault>
    ensures { GivesEvent result (event_in line (map (λ w. w.now) words.now)) }
{
    match words {
        [] => Err(TextFault::UnknownWord(line)),
        [word, rest @ ..] => {
            if *word == "order" {
                order_in(line, rest)
            } else if *word == "poll" {
                poll_in(line, rest)
            } else if *word == "deliver" {
                deliver_in(line, rest)
            } else if *word == "look" {
                look_in(line, rest)
            } else {
                rare_in(alloc, line, word, rest)
            }
        }
    }
}

/// The events of a schedule, by the definition over its lines. One vector has the words of each line in turn, which
/// saves one a line: as by a loop over `said_lines`, which holds the words of all.
fn events_of(alloc: Global, text: &str) -> Result<Vec<Event>, TextFault>
    ensures { GivesEvents result (schedule_in text.now) }
{
    let lines = lines_of(alloc, text)?;
    let mut words = Vec::new(alloc);
    let mut events = Vec::new(alloc);
    for i in 0..lines.len() {
        put_words(&mut words, lines[i])?;
        if !is_skipped(words.as_slice()) {
            let event = event_in(alloc, i + 1, words.as_slice())?;
            events.push(event)?;
        }
    }
    Ok(events)
}

/// The events of a schedule, a line each, or the first faulty line's fault; `OutOfMemory` may stand in
/// place of either where a request for memory is refused.
///
/// A line without words, or whose first begins with `#`, is skipped. In a line the first word is looked
/// at, then an order's command, then the count of words, then numbers and digits from left to right
/// (profile).
#[tactic(auto, using(crate::proofs::FirstFaults::each_given, crate::proofs::FirstFaults::fault_given))]
pub fn read_schedule(alloc: Global, text: &str) -> Result<Vec<Event>, TextFault>
    ensures exact { GivesEvents result (schedule_in text.now) }
    ensures each { IfOk result
        (λ events. AreGiven (said_lines text.now) (map happening events.items)) }
    ensures first { IfErr result
        (λ fault. (fault ≡ TextFault.OutOfMemory) ⊎ IsFirstFault fault (said_lines text.now)) }
{
    events_of(alloc, text)
}
