//! Laws of the table's definitions, over every list of calls from an empty table on. They cost nothing when they run.
//!
//! The contracts of [`SourceTable`](crate::SourceTable) say what one call answers and leaves. Folded over a list of calls,
//! these steps give the plain rule over the list: one finite map from CIDs to numbers, levels and moments.

ghost use Rattle.sacn_sources.specs.Laws.{AnswersByThePlainRule, HoldsByThePlainRule, UsesTheGreatestMoment, ExpiresAlone, RowsRise, CountsRenewals};
ghost use Rattle.std.specs.Prelude.{◌≡◌};
ghost use Rattle.sacn_sources.specs.declared.limits.TheConstants.{MAX_SOURCES, NETWORK_DATA_LOSS};

/// After any list of calls, the answer to a further one is that of the plain rule.
pub fn answers_by_the_plain_rule()
    ensures { AnswersByThePlainRule }
{}

/// After any list of calls, the sources that are held are those of the plain rule.
pub fn holds_by_the_plain_rule()
    ensures { HoldsByThePlainRule }
{}

/// The moment in use is the greatest that was handed in.
pub fn moment_is_the_greatest()
    ensures { UsesTheGreatestMoment }
{}

/// Expiry drops the sources that are lost, and no other.
pub fn expiry_drops_what_is_lost()
    ensures { ExpiresAlone }
{}

/// The rows rise strictly by CID, and there are never more than the limit.
pub fn rows_rise()
    ensures { RowsRise }
{}

/// The renewals are the merges that were made anew.
pub fn renewals_are_counted()
    ensures { CountsRenewals }
{}

/// What the numbers of a table are: its sources, and the milliseconds after which one is lost.
pub fn numbers()
    ensures sources { MAX_SOURCES ≡ 16 }
    ensures loss { NETWORK_DATA_LOSS ≡ 2500 }
{}
