//! Laws of the definitions: functions that do nothing, each of which has a law as its contract.

ghost use Rattle.sacn_replay.specs.Maps.{NumbersAreApart, RewritingChangesTheUniverse};
ghost use Rattle.sacn_replay.specs.Moments.{DueWhenPlayed, OrdersKeepTheMoment};
ghost use Rattle.sacn_replay.specs.Playing.{WhatIsDueGoesOut};
ghost use Rattle.sacn_replay.specs.Turns.{RunsHandOverWhatIsDue};

/// What goes out is exactly what is due. From any player on, over any records that are left and any readings of the clock and orders:
/// each record whose place lies within what is played goes out once, at the first reading at which it is due, unless that comes more
/// than 2500 ms later (E1.31, 6.7.1), and in the order of the file; no other record does, and none at any other reading.
///
/// A seek and `Again` begin a turn anew, with the whole file, and the law speaks of that one too.
pub fn what_is_due_goes_out()
    ensures { WhatIsDueGoesOut }
{}

/// What `run_replay` hands to its link is what is due: over any rounds of one turn, each of which ended with a step that waits, its
/// link is handed the datagrams of the records that are due by the rounds' readings and orders, each once, in the order of the file.
pub fn runs_hand_over_what_is_due()
    ensures { RunsHandOverWhatIsDue }
{}

/// No moment is early, and none is late: a record is due at a reading of the clock exactly where its moment is played by then.
pub fn due_when_played()
    ensures { DueWhenPlayed }
{}

/// A pause, its end and another speed keep the moment that is played, and a seek plays the moment that it names.
pub fn orders_keep_the_moment()
    ensures { OrdersKeepTheMoment }
{}

/// A data packet whose universe is rewritten is read as the same packet but for its universe, whatever the list of a `UniverseMap` is.
pub fn rewriting_changes_the_universe()
    ensures { RewritingChangesTheUniverse }
{}

/// Whatever mappings a `UniverseMap` was asked for, no two universes of its list go out under one number.
pub fn numbers_are_apart()
    ensures { NumbersAreApart }
{}
