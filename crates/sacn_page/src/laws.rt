//! Laws of the definitions: functions that do nothing, each of which has a law as its contract.

ghost use Rattle.sacn_page.specs.Alarms.{LossesStay};

/// No loss gives way to an alarm of another kind, however many come.
pub fn losses_stay()
    ensures { LossesStay }
{}
