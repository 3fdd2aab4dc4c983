//! Laws of the definitions: functions that do nothing, each of which has a law as its contract.

ghost use Rattle.sacn_incidents.specs.Calls.{NothingIsLeftOut, NothingIsToldTwice, DeedsAreOfStreams};

/// After any calls each deed that was taken is a part of an incident, handed out or still open, of its source and its kind: the
/// place of its stream is among the incident's, and its moment between the incident's first and its latest.
pub fn nothing_is_left_out()
    ensures { NothingIsLeftOut }
{}

/// The incidents, handed out and still open, have as many deeds in all as were taken: each is counted in one alone.
pub fn nothing_is_told_twice()
    ensures { NothingIsToldTwice }
{}

/// A deed is of the stream at its place, with its source.
pub fn deeds_are_of_streams()
    ensures { DeedsAreOfStreams }
{}
