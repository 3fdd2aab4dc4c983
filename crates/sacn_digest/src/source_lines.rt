//! An incident of one source as a line that says where it sends from, as a gateway tells of those that it hears.

use crate::presences::Presences;
use crate::universes::{first_place, universes_of};
use sacn_incidents::{Act, Incident};
use sacn_monitor::Stream;
use sacn_packets::up_to_nul;
use sacn_tell::{NamedSource, push_named_source};
use std::alloc::{AllocError, Global};

/// Pushes what a source did on its universes, without a moment: `"Desk" 0001..0f at 10.0.0.5, priority 100, universes 1-30: came`.
/// `streams` are those among which its places are, and `presences` what they sent at its deeds. Of rivals nothing is pushed.
///
/// Errors: a growth was refused.
pub fn push_source_line<'x>(
    text: &mut String,
    alloc: Global,
    incident: &'x Incident,
    presences: &Presences,
    streams: &'x [Stream],
) -> Result<(), AllocError> {
    let Some(word) = word_of(&incident.act) else {
        return Ok(());
    };
    let Some(place) = first_place(incident) else {
        return Ok(());
    };
    let Some(stream) = streams.get(place) else {
        return Ok(());
    };
    let universes = universes_of(alloc, incident, streams)?;
    let presence = presences.of(place, incident);
    let address = presence.sender.address;
    let source = NamedSource {
        cid: &incident.source,
        name: up_to_nul(&stream.account.name),
        address,
        lowest: presence.lowest,
        highest: presence.highest,
        universes: universes.as_slice(),
    };
    push_named_source(text, &source, word)
}

fn word_of(act: &Act) -> Option<&'static str> {
    match act {
        Act::Appears | Act::IsBack => Some("came"),
        Act::Ends => Some("ended"),
        Act::IsLost => Some("lost"),
        Act::Meets(_) => None,
    }
}
