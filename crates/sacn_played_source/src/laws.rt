//! Laws of a recording that is played as a source, over every list of calls. They cost nothing when they run.
ghost use Rattle.sacn_played_source.specs.Laws.{SendsWhatTheListSays, SendsWhatIsHeld};

/// After any list of calls, the levels that are sent on a universe are what the list says.
pub fn sends_what_the_list_says()
    ensures { SendsWhatTheListSays }
{}

/// After any list of calls, where a packet renewed a source on a universe since the recording began, or 2500 ms of it have passed since,
/// what is sent there is the merge of what a table holds that was told the same datagrams at the same moments (E1.31, 6.7.1 among them).
pub fn sends_what_is_held()
    ensures { SendsWhatIsHeld }
{}
