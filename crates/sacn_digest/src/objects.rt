//! An incident as an object of JSON.

use crate::names::push_name_of;
use sacn_incidents::{Act, Incident, Rival};
use sacn_monitor::Stream;
use sacn_packets::up_to_nul;
use sacn_tell::{
    begin_object, push_cid, push_key, push_number, push_numbers, push_source_members, push_word,
};
use std::alloc::AllocError;

/// Pushes what a source did on these universes, as an object. `stream` is that of its first place among all streams.
///
/// Errors: a growth was refused.
pub(crate) fn push_object(
    text: &mut String,
    incident: &Incident,
    universes: &[u16],
    stream: &Stream,
    streams: &[Stream],
) -> Result<(), AllocError> {
    begin_object(text, incident.first, "incident")?;
    push_word(text, "act", act_word(&incident.act))?;
    push_source_members(text, &incident.source, up_to_nul(&stream.account.name))?;
    push_numbers(text, "universes", universes)?;
    push_moments(text, incident)?;
    match &incident.act {
        Act::Meets(rival) => push_rival(text, rival, streams)?,
        _ => {}
    }
    text.push('}')
}

fn act_word(act: &Act) -> &'static str {
    match act {
        Act::Appears => "appeared",
        Act::IsBack => "back",
        Act::Ends => "ended",
        Act::IsLost => "lost",
        Act::Meets(_) => "rivals",
    }
}

// Its first and its latest moment, and how many deeds it has.
fn push_moments(text: &mut String, incident: &Incident) -> Result<(), AllocError> {
    push_number(text, "first", incident.first)?;
    push_number(text, "latest", incident.latest)?;
    push_number(text, "times", incident.times)
}

// Whom it meets, at which priority, and how many send there at that.
fn push_rival(text: &mut String, rival: &Rival, streams: &[Stream]) -> Result<(), AllocError> {
    push_key(text, "rival")?;
    text.push('"')?;
    push_cid(text, &rival.cid)?;
    text.push('"')?;
    push_key(text, "rival_name")?;
    push_name_of(text, &rival.cid, streams)?;
    push_number(text, "priority", u64::from(rival.priority))?;
    push_number(text, "sources", rival.sources as u64)
}
