//! An incident as a sentence: a line for people.

use crate::names::{push_source, push_source_of};
use crate::presences::Presence;
use sacn_incidents::{Act, Incident, Rival};
use sacn_monitor::Stream;
use sacn_tell::{begin_line, push_decimal, push_ranges, push_seconds, push_sender};
use std::alloc::AllocError;

/// Pushes what a source did on these universes, as a line for people: `"Main FOH" 0001..0f lost on 1-30`. `stream` is that of its
/// first place among all streams; `presence` is what that sent then, or last before it was lost.
///
/// Errors: a growth was refused.
pub(crate) fn push_line(
    text: &mut String,
    incident: &Incident,
    universes: &[u16],
    stream: &Stream,
    presence: Presence,
    streams: &[Stream],
) -> Result<(), AllocError> {
    begin_line(text, incident.first)?;
    push_source(text, stream)?;
    match &incident.act {
        Act::Appears => push_presence(text, [" appears on ", " at "], universes, presence)?,
        Act::IsBack => push_presence(text, [" is back on ", " at "], universes, presence)?,
        Act::Ends => push_end(text, universes)?,
        Act::IsLost => push_presence(text, [" lost on ", ", last at "], universes, presence)?,
        Act::Meets(rival) => push_meeting(text, rival, universes, streams)?,
    }
    push_times(text, incident, universes)
}

// What it sends there, or sent last: from where, and at which priority, behind words for where and from where.
fn push_presence(
    text: &mut String,
    words: [&str; 2],
    universes: &[u16],
    presence: Presence,
) -> Result<(), AllocError> {
    let [where_words, from_words] = words;
    text.push_str(where_words)?;
    push_ranges(text, universes)?;
    text.push_str(from_words)?;
    push_sender(text, &presence.sender)?;
    if presence.lowest == presence.highest {
        text.push_str(", priority ")?;
        return push_decimal(text, u64::from(presence.lowest));
    }
    text.push_str(", priorities ")?;
    push_decimal(text, u64::from(presence.lowest))?;
    text.push('-')?;
    push_decimal(text, u64::from(presence.highest))
}

// That it says that it ends.
fn push_end(text: &mut String, universes: &[u16]) -> Result<(), AllocError> {
    text.push_str(" ends its stream on ")?;
    push_ranges(text, universes)
}

// With whom it sends at one priority.
fn push_meeting(
    text: &mut String,
    rival: &Rival,
    universes: &[u16],
    streams: &[Stream],
) -> Result<(), AllocError> {
    let others = rival.sources.saturating_sub(2) as u64;
    text.push_str(if others == 0 { " and " } else { ", " })?;
    push_source_of(text, &rival.cid, streams)?;
    push_others(text, others)?;
    push_ranges(text, universes)?;
    text.push_str(" at priority ")?;
    push_decimal(text, u64::from(rival.priority))
}

// How many send there beside the two that are named.
fn push_others(text: &mut String, others: u64) -> Result<(), AllocError> {
    if others == 0 {
        return text.push_str(" both send on ");
    }
    text.push_str(" and ")?;
    push_decimal(text, others)?;
    text.push_str(" more send on ")
}

// How often it did so, and when it did last, where that isn't once on each universe at one moment.
fn push_times(text: &mut String, incident: &Incident, universes: &[u16]) -> Result<(), AllocError> {
    let is_one = incident.latest == incident.first;
    if is_one & (incident.times <= universes.len() as u64) {
        return Ok(());
    }
    text.push_str(" (")?;
    push_decimal(text, incident.times)?;
    text.push_str(" times, the latest at ")?;
    push_seconds(text, incident.latest)?;
    text.push_str(" s)")
}
