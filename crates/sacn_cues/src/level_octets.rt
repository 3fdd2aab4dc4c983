//! The levels of all channels at one moment.
ghost use Rattle.std.specs.Prelude.{◌≡◌, ◌≤◌, ◌<◌, ◌+◌, ◌-◌, ◌*◌, ◌/◌, ◌%◌, Some, length, set};
ghost use Rattle.std.specs.Option.{ForSome};

use sacn_patch::MAX_CHANNELS;

/// The places of the octets of all levels: two for each channel, and two before them.
pub(crate) const OCTETS: usize = 2 * MAX_CHANNELS as usize + 2;

/// The most channels that are reckoned by the list. By the list a channel costs more than in turn, so that
/// beyond about so many going over all costs less.
pub(crate) const MOST_LISTED: usize = MAX_CHANNELS as usize / 4 * 3;

/// So many reckonings in a row go over all channels without a list, where more than `MOST_LISTED` fade: a list costs a little at each
/// channel, and would be of no use.
pub(crate) const MOST_PLAIN: u8 = 15;

/// Room for the octets of all levels after the master, and whether they stand in it.
#[derive(Drop)]
pub(crate) struct LevelOctets {
    // Those of channel c at 2 c and 2 c + 1, the high one first, and 0 before them.
    pub(crate) octets: Vec<u8>,
    pub(crate) is_ready: bool,
    // Room for a list of channels, counted from 0, and how many stand in it, once all were reckoned;
    // only setting one channel leaves it so, which is then listed too. The fade of each other channel
    // is over and its octets are right at any later moment, so that a reckoning costs the channels
    // that fade, and not all of them.
    pub(crate) moving: Vec<u16>,
    pub(crate) listed: Option<usize>,
    // So many reckonings more make no list, unless one is kept.
    pub(crate) plain: u8,
}

/// Writes the octets of a channel's level; channels count from 0 here.
pub(crate) fn put_level(octets: &mut [u8], at: usize, level: u16)
    requires { 2 * at + 3 < length octets.old }
    ensures { octets.new
        ≡ set (set octets.old (2 * at + 2) (level / 256)) (2 * at + 3) (level % 256) }
{
    octets[2 * at + 2] = (level / 256) as u8;
    octets[2 * at + 3] = (level % 256) as u8;
}

/// How many channels stand in a list that is worth keeping.
pub(crate) fn worth_keeping(count: usize) -> Option<usize>
    ensures { ForSome result (λ kept. kept ≡ count) }
{
    if count <= MOST_LISTED {
        Some(count)
    } else {
        None
    }
}

/// Lists one more channel, counted from 0, where a list is kept that has room; so many it has then.
pub(crate) fn list_more(moving: &mut [u16], listed: Option<usize>, at: u16) -> Option<usize>
    ensures room { length moving.new ≡ length moving.old }
    ensures listed { ForSome result (λ count. (listed ≡ Some (count - 1)) × (1 ≤ count)
        × (count ≤ length moving.old) × (moving.new ≡ set moving.old (count - 1) at)) }
{
    match listed {
        Some(count) if count < moving.len() => {
            moving[count] = at;
            Some(count + 1)
        }
        _ => None,
    }
}
