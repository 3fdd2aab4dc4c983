//! Laws of the definitions: functions that do nothing, each of which has a law as its contract.

ghost use Rattle.sacn_monitor.specs.Histories.{AccountsAreOfTheirPackets, UsesTheGreatestMoment};
ghost use Rattle.sacn_monitor.specs.Numberings.{ALossBesideIsCounted, AnOmissionIsNoLoss};

/// The moment of a monitor is the greatest that was handed in.
pub fn uses_the_greatest_moment()
    ensures { UsesTheGreatestMoment }
{}

/// After any calls the account of a source on a universe is the one that its packets there give, each at its moment and
/// from its sender, whatever else came. Where there is no room for a further stream it may have none.
pub fn accounts_are_of_their_packets()
    ensures { AccountsAreOfTheirPackets }
{}

/// Once a source is known to leave out a number, it loses nothing as long as it counts so, however many turns it makes.
pub fn an_omission_is_no_loss()
    ensures { AnOmissionIsNoLoss }
{}

/// What else is lost is counted: of the numbers that a step passes over at most one isn't.
pub fn a_loss_beside_is_counted()
    ensures { ALossBesideIsCounted }
{}
