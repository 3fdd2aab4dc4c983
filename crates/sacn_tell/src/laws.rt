//! Laws of the definitions: functions that do nothing, each of which has a law as its contract.

ghost use Rattle.sacn_tell.specs.Following.{AccountsAreOfWhatWasHanded, CountsAreOfWhatWasHanded};

use sacn_monitor::laws::accounts_are_of_their_packets;

/// Whatever datagrams and moments a follower was handed, its account of a source on a universe is the one that the packets of
/// that source there give, each once, at its moment and from its sender: what was told in between changes none. Where there is no
/// room for a further one it may have none.
pub fn accounts_are_of_what_was_handed()
    ensures { AccountsAreOfWhatWasHanded }
{
    accounts_are_of_their_packets();
}

/// Whatever datagrams and moments a follower was handed, its counts of datagrams, and how many sources on universes it has heard,
/// are those of these calls alone: what was told in between changes none.
pub fn counts_are_of_what_was_handed()
    ensures { CountsAreOfWhatWasHanded }
{}
