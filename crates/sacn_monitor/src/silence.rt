//! Losses that are still to be told, and lights that go out.

ghost use Rattle.std.specs.Prelude.{◌≡◌};
ghost use Rattle.sacn_monitor.specs.Books.{next_light_end, next_loss, silent_place};

use crate::stream::Stream;

/// The first moment at which a stream is lost whose loss is still to be told.
pub(crate) fn next_loss(streams: &[Stream]) -> u64
    ensures { result ≡ next_loss streams.now }
{
    let mut least = u64::MAX;
    for stream in streams {
        least = least.min(stream.loss());
    }
    least
}

/// The first moment at which the light of a stream goes out that is lit at another one.
pub(crate) fn next_light_end(streams: &[Stream], moment: u64) -> u64
    ensures { result ≡ next_light_end moment streams.now }
{
    let mut least = u64::MAX;
    for stream in streams {
        least = least.min(stream.light_end(moment));
    }
    least
}

/// The place of the first stream whose loss is to be told.
pub(crate) fn silent_place(streams: &[Stream], moment: u64) -> Option<usize>
    ensures { result ≡ silent_place moment streams.now }
{
    streams
        .iter()
        .position(|stream| stream.falls_silent(moment))
}
