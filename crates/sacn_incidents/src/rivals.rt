//! Sources that meet on a universe.

ghost use Rattle.std.specs.Prelude.{◌≡◌, ◌+◌, drop};
ghost use Rattle.std.specs.List.{position};
ghost use Rattle.sacn_incidents.specs.Deeds.{meeting_at, rival_at};
ghost use Rattle.sacn_network.specs.Contests.{takes_part};

use crate::deed::{Act, Deed, Rival, deed_at};
use sacn_monitor::{Monitor, Stream};
use sacn_network::Contest;

/// The deed of the first source, as they appeared, that lights a contested universe at its top priority: it meets the second
/// one. None where fewer than two do.
pub(crate) fn meeting(at: u64, contest: &Contest, monitor: &Monitor) -> Option<Deed>
    ensures { result ≡ meeting_at at contest.now monitor.now.streams }
{
    let streams = monitor.streams();
    let place = place_of(at, contest, streams)?;
    let rival = rival_behind(at, contest, place, streams)?;
    deed_at(at, Act::Meets(rival), place, streams)
}

// The second source that lights it, behind the place of the first.
fn rival_behind(at: u64, contest: &Contest, place: usize, streams: &[Stream]) -> Option<Rival>
    ensures { result ≡ rival_at at contest.now (drop (place + 1) streams.now) }
{
    let behind = streams.get(place.checked_add(1)?..)?;
    let stream = behind.get(place_of(at, contest, behind)?)?;
    Some(Rival {
        cid: stream.cid,
        priority: contest.priority,
        sources: contest.sources,
    })
}

// The place of the first that lights the universe at its top priority.
fn place_of(at: u64, contest: &Contest, streams: &[Stream]) -> Option<usize>
    ensures { result ≡ position (takes_part at contest.now) streams.now }
{
    streams.iter().position(|stream| contest.has(at, stream))
}
