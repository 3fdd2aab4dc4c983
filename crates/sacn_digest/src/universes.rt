//! The universes of an incident.

use sacn_incidents::Incident;
use sacn_monitor::Stream;
use std::alloc::{AllocError, Global};

/// The universes of the streams at an incident's places, ascending, each once.
///
/// Errors: a growth was refused.
pub(crate) fn universes_of(
    alloc: Global,
    incident: &Incident,
    streams: &[Stream],
) -> Result<Vec<u16>, AllocError> {
    let mut universes = Vec::new(alloc);
    for place in 0..streams.len() {
        if is_of(incident, place) {
            universes.push(streams[place].universe)?;
        }
    }
    universes.sort_unstable();
    universes.dedup();
    Ok(universes)
}

/// The first place of an incident: that of the stream that appeared before its other ones.
pub(crate) fn first_place(incident: &Incident) -> Option<usize> {
    incident.places.iter().position(|is_there| *is_there)
}

// Whether a place is one of an incident's.
fn is_of(incident: &Incident, place: usize) -> bool {
    match incident.places.get(place) {
        Some(is_there) => *is_there,
        None => false,
    }
}
