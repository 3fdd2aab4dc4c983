//! Laws of a recording that is played as a source. They cost nothing when they run.

ghost use Rattle.sacn_played_run.specs.Laws.{SendsWhatTheListSays, TakesWhatIsDue};

/// What a run takes of a recording is what a player of its rounds hands over: each record that is due, once, in the order of the file (`sacn_replay`, `runs_hand_over_what_is_due`).
pub fn takes_what_is_due()
    ensures { TakesWhatIsDue }
{}

/// After any rounds and their end, the levels that a new source has on each of its universes are what the list of its calls says
/// (`sacn_played_source`, `sends_what_the_list_says`).
pub fn sends_what_the_list_says()
    ensures { SendsWhatTheListSays }
{}
