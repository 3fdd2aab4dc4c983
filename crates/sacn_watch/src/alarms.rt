//! The alarms of a screen: what befalls one source on many universes is one row.

ghost use Rattle.std.specs.Prelude.{◌≡◌};
ghost use Rattle.sacn_watch.specs.Pages.{FitsOn};

use crate::layout::{push_more, push_name};
use crate::page::{Ink, Page};
use crate::view::View;
use sacn_monitor::{Monitor, Stream, StreamState};
use sacn_tell::{push_ranges, total};
use std::alloc::{AllocError, Global};
use std::fmt::Write;

/// The most rows of alarms.
const MAX_ALARMS: usize = 6;

/// What is wrong with a source on a universe.
#[derive(Clone, Copy, PartialEq, Eq)]
enum Trouble {
    /// It is lost.
    Lost,
    /// It is one of so many that send at the greatest priority there, which is this.
    Contested { sources: usize, priority: u8 },
}

/// The rows of alarms: how many datagrams were refused, and each source with what is wrong with it and the universes on which that is so, in the order
/// in which they appeared; behind one that is lost for how long it is silent on the first of these.
pub(crate) fn push_alarms(alloc: Global, page: &mut Page, view: &View) -> Result<(), AllocError>
    ensures size { page.new.size ≡ page.old.size }
    ensures fits { FitsOn page.old.size page.old.rows.items
        → FitsOn page.new.size page.new.rows.items }
{
    push_refusals(alloc, page, view)?;
    let streams = view.monitor().streams();
    let moment = view.monitor().moment();
    let troubles = troubles_of(alloc, view.monitor())?;
    let mut count = 0_usize;
    for place in 0..streams.len() {
        if is_first(streams, troubles.as_slice(), place) {
            count = count.saturating_add(1);
            if count <= MAX_ALARMS {
                push_alarm(alloc, page, streams, troubles.as_slice(), place, moment)?;
            }
        }
    }
    push_more(
        alloc,
        page,
        "!",
        count.saturating_sub(MAX_ALARMS),
        Ink::Alarm,
    )
}

fn push_refusals(alloc: Global, page: &mut Page, view: &View) -> Result<(), AllocError>
    ensures size { page.new.size ≡ page.old.size }
    ensures fits { FitsOn page.old.size page.old.rows.items
        → FitsOn page.new.size page.new.rows.items }
{
    let refused = total(&view.monitor().tally().refused);
    if refused == 0 {
        return Ok(());
    }
    let mut text = String::new(alloc);
    write!(text, "! refused datagrams: {refused}")?;
    page.push_text(alloc, text.as_str(), Ink::Alarm)
}

// For each source on a universe what is wrong with it, if anything is.
fn troubles_of(alloc: Global, monitor: &Monitor) -> Result<Vec<Option<Trouble>>, AllocError> {
    let mut troubles: Vec<Option<Trouble>> = Vec::new(alloc);
    for stream in monitor.streams() {
        troubles.push(trouble_of(monitor, stream))?;
    }
    Ok(troubles)
}

fn trouble_of(monitor: &Monitor, stream: &Stream) -> Option<Trouble> {
    match stream.state(monitor.moment()) {
        StreamState::Ended => None,
        StreamState::Lost => Some(Trouble::Lost),
        StreamState::Sending => contest_of(monitor, stream),
    }
}

// Whether a source is one of several at the top priority of its universe.
fn contest_of(monitor: &Monitor, stream: &Stream) -> Option<Trouble> {
    let moment = monitor.moment();
    if !stream.lights(stream.universe, moment) {
        return None;
    }
    let sources = monitor.rivals(stream.universe);
    let priority = stream.priority_at(moment);
    if (sources >= 2) & (priority == monitor.top_priority(stream.universe)) {
        Some(Trouble::Contested { sources, priority })
    } else {
        None
    }
}

// What is wrong at a place, if anything is.
fn trouble_at(troubles: &[Option<Trouble>], place: usize) -> Option<Trouble> {
    match troubles.get(place) {
        Some(trouble) => *trouble,
        None => None,
    }
}

// Whether the same is wrong with the same source at two places.
fn befalls_both(
    streams: &[Stream],
    troubles: &[Option<Trouble>],
    place: usize,
    other: usize,
) -> bool {
    let (Some(stream), Some(beside)) = (streams.get(place), streams.get(other)) else {
        return false;
    };
    match (trouble_at(troubles, place), trouble_at(troubles, other)) {
        (Some(trouble), Some(also)) => stream.cid == beside.cid && trouble == also,
        _ => false,
    }
}

// Whether something is wrong at a place that isn't wrong with the same source before it.
fn is_first(streams: &[Stream], troubles: &[Option<Trouble>], place: usize) -> bool {
    if trouble_at(troubles, place).is_none() {
        return false;
    }
    for earlier in 0..place {
        if befalls_both(streams, troubles, earlier, place) {
            return false;
        }
    }
    true
}

// The row of what is wrong at a place and behind it.
fn push_alarm(
    alloc: Global,
    page: &mut Page,
    streams: &[Stream],
    troubles: &[Option<Trouble>],
    place: usize,
    moment: u64,
) -> Result<(), AllocError>
    ensures size { page.new.size ≡ page.old.size }
    ensures fits { FitsOn page.old.size page.old.rows.items
        → FitsOn page.new.size page.new.rows.items }
{
    let (Some(stream), Some(trouble)) = (streams.get(place), trouble_at(troubles, place)) else {
        return Ok(());
    };
    let universes = universes_of(alloc, streams, troubles, place)?;
    let mut text = String::new(alloc);
    push_universes(&mut text, universes.as_slice())?;
    push_trouble(&mut text, trouble)?;
    push_name(&mut text, &stream.account)?;
    push_silence(&mut text, trouble, stream, moment)?;
    page.push_text(alloc, text.as_str(), Ink::Alarm)
}

// The universes on which the same is wrong with the source at a place, from there on.
fn universes_of(
    alloc: Global,
    streams: &[Stream],
    troubles: &[Option<Trouble>],
    place: usize,
) -> Result<Vec<u16>, AllocError> {
    let mut universes: Vec<u16> = Vec::new(alloc);
    for other in place..streams.len() {
        if befalls_both(streams, troubles, place, other) {
            universes.push(streams[other].universe)?;
        }
    }
    universes.sort_unstable();
    Ok(universes)
}

fn push_universes(text: &mut String, universes: &[u16]) -> Result<(), AllocError> {
    text.push_str(match universes.len() {
        1 => "! universe ",
        _ => "! universes ",
    })?;
    push_ranges(text, universes)
}

// For how long a lost source is silent, in whole seconds.
fn push_silence(
    text: &mut String,
    trouble: Trouble,
    stream: &Stream,
    moment: u64,
) -> Result<(), AllocError> {
    match trouble {
        Trouble::Lost => {
            let seconds = moment.saturating_sub(stream.account.latest) / 1000;
            write!(text, " silent for {seconds} s")
        }
        Trouble::Contested { .. } => Ok(()),
    }
}

fn push_trouble(text: &mut String, trouble: Trouble) -> Result<(), AllocError> {
    match trouble {
        Trouble::Lost => text.push_str(": lost "),
        Trouble::Contested { sources, priority } => {
            write!(text, ": one of {sources} at top priority {priority}: ")
        }
    }
}
