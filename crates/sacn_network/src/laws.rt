//! Laws of the definitions: functions that do nothing, each of which has a law as its contract.

ghost use Rattle.sacn_network.specs.Calls.{ATickLeavesNone, AccountsAreOfTheirPackets, IsContestedAsLit, IsContestedAsTold, IsHeardWhereASourceIs, LossesAreTimely, UsesTheGreatestMoment};
ghost use Rattle.sacn_network.specs.Sets.{HasNone, MarksOneUniverse};

/// After any calls the account of a source on a universe is the one that its packets there give, each at its moment and
/// from its sender, whatever was told in between. Where there is no room for a further stream it may have none.
pub fn accounts_are_of_their_packets()
    ensures { AccountsAreOfTheirPackets }
{}

/// The clock of a network is the greatest moment that was handed in.
pub fn uses_the_greatest_moment()
    ensures { UsesTheGreatestMoment }
{}

/// A tick leaves no loss by its moment untold.
pub fn a_tick_leaves_none()
    ensures { ATickLeavesNone }
{}

/// Each loss is told 2500 ms after the latest packet of its stream that was taken (E1.31, 6.7.1), whenever the call comes.
pub fn losses_are_timely()
    ensures { LossesAreTimely }
{}

/// A universe was heard where a source on it is kept.
pub fn is_heard_where_a_source_is()
    ensures { IsHeardWhereASourceIs }
{}

/// A universe is contested where that was told last of it: so its contest is told where it changes, and only there.
pub fn is_contested_as_told()
    ensures { IsContestedAsTold }
{}

/// A universe is contested exactly where two sources or more are merged at the top priority by the clock, as a node holds them: so its
/// contest is told when it begins, and when it ends, also where that is by silence of a source whose previews go on.
pub fn is_contested_as_lit()
    ensures { IsContestedAsLit }
{}

/// A universe that is put into a set is in it, one that is taken out isn't, and each other one is where it was.
pub fn marks_one_universe()
    ensures { MarksOneUniverse }
{}

/// No universe is in a set of none.
pub fn has_none()
    ensures { HasNone }
{}
