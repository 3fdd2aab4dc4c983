//! Laws of the sequence rule: functions that do nothing, each of which has a law of the definitions as its contract.
ghost use Rattle.sacn_sources.specs.Sequence.{OneStep, LateAgrees, TakesUpTo236Ahead, DiscardsUpTo19Behind};
ghost use Rattle.std.specs.Prelude.{◌≡◌, negsuc};
ghost use Rattle.sacn_sources.specs.declared.sequence.TheConstants.{LATE_ABOVE};

/// Between two numbers there is one step: no other number from -128 to 127 is congruent to their difference.
pub fn one_step()
    ensures { OneStep }
{}

/// The test that computes whether a number is late decides whether it is out of sequence in the standard's words.
pub fn late_agrees()
    ensures { LateAgrees }
{}

/// Numbers that come from counting, modulo 256: a packet sent `ahead` sends after another one is in sequence after it
/// exactly where `ahead` modulo 256 is from 1 to 236. So a gap of up to 235 lost packets does no harm.
pub fn takes_up_to_236_ahead()
    ensures { TakesUpTo236Ahead }
{}

/// A packet sent up to 19 sends before another one is out of sequence after it, however often the numbers wrapped. So
/// a packet that comes late by fewer than twenty sends, or comes again, never takes the place of a newer one.
pub fn discards_up_to_19_behind()
    ensures { DiscardsUpTo19Behind }
{}

/// What the number of the rule is: a step above -20, up to 0, is out of sequence.
pub fn numbers()
    ensures late_above { LATE_ABOVE ≡ negsuc 19 }
{}
