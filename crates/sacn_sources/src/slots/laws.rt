//! Laws of the merge: functions that do nothing, each of which has a law of the definition as its contract.
ghost use Rattle.sacn_sources.specs.Merge.{MergesTheSet, MergesByRelation, MergesNothingToZeros, MergesOneToItself};
ghost use Rattle.std.specs.Prelude.{◌≡◌};

/// The merge is one of the set of its members: neither their order counts, nor how often one is given.
pub fn merge_is_of_a_set()
    ensures { MergesTheSet }
{}

/// A slot of the merge is the greatest level there among the members of the greatest priority, a level past a member's
/// end being 0; and only that level is so.
pub fn merge_is_highest()
    ensures { MergesByRelation }
{}

/// The merge always has 512 slots, and with no member all of them are at 0.
pub fn merge_of_none()
    ensures { MergesNothingToZeros }
{}

/// The merge of one member is what it shows, and 0 past the end of its levels.
pub fn merge_of_one()
    ensures { MergesOneToItself }
{}
