//! Sources that rival one another on a universe.

ghost use Rattle.std.specs.Prelude.{◌≡◌};
ghost use Rattle.sacn_monitor.specs.Rivals.{top_priority, rivals};

use crate::stream::Stream;

/// The greatest priority of the sources that light a universe, 0 where none does.
pub(crate) fn top_priority(streams: &[Stream], universe: u16, moment: u64) -> u8
    ensures { result ≡ top_priority universe moment streams.now }
{
    streams
        .iter()
        .filter(|stream| stream.lights(universe, moment))
        .fold(0, |top: u8, stream| top.max(stream.priority_at(moment)))
}

/// How many sources light a universe at the greatest priority there.
///
/// The same as a count of those at `top_priority`, by one look at the streams in place of two: where a greater priority is
/// met, the count begins anew.
pub(crate) fn rivals(streams: &[Stream], universe: u16, moment: u64) -> usize
    ensures { result ≡ rivals universe moment streams.now }
{
    let mut top: u8 = 0;
    let mut count: usize = 0;
    for stream in streams {
        if stream.lights(universe, moment) {
            let priority = stream.priority_at(moment);
            if top < priority {
                top = priority;
                count = 1;
            } else if priority == top {
                count += 1;
            }
        }
    }
    count
}
