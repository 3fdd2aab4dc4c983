//! The numbers of the rules.

/// Milliseconds in a second.
pub(crate) const SECOND: u64 = 1000;

/// The most packets of a stream in a second (E1.31, 6.6.1): the greatest refresh rate of E1.11 for 512 slots.
pub(crate) const MOST_IN_A_SECOND: u8 = 44;

/// The most milliseconds between packets with levels of a stream that goes on (E1.31, 6.6.2).
pub(crate) const LONGEST_GAP: u64 = 1000;

/// A stream that sent nothing for more milliseconds than this has stopped repeating what it shows: it only keeps alive.
pub(crate) const LONGEST_REPEAT: u64 = 500;

/// So many packets show what has changed before a source may send less often (E1.31, 6.6.2), and so many end a stream
/// (E1.31, 6.2.6).
pub(crate) const COPIES: u8 = 3;

/// Packets that end a stream and come fewer milliseconds apart than this may be lost together.
pub(crate) const SHORTEST_BETWEEN_ENDS: u64 = 20;

/// A source that passed over one number so many turns in a row leaves it out by habit.
pub(crate) const TURNS: u8 = 3;

/// So many packets in a row with one number aren't copies that were made on the way.
pub(crate) const COPIES_IN_A_ROW: u8 = 4;

/// So many packets in a row that go on counting from one universe to another show that the universes have one counter.
pub(crate) const COUNTED_ON: u8 = 8;

/// The first octet of a multicast address of IPv4 is one of these: 224.0.0.0/4.
pub(crate) const FIRST_OF_MULTICAST: u8 = 224;

pub(crate) const LAST_OF_MULTICAST: u8 = 239;
/// A source sends its list of universes at least so often, in milliseconds (E1.31, 4.3 and appendix A:
/// E131_UNIVERSE_DISCOVERY_INTERVAL).
pub(crate) const LIST_INTERVAL: u64 = 10_000;

/// The most milliseconds without a list of universes: the interval, and two seconds of slack.
pub(crate) const LONGEST_WITHOUT_LIST: u64 = LIST_INTERVAL + 2000;

/// The start code of priorities for slots, beside 0 for levels.
pub(crate) const PRIORITY_START_CODE: u8 = 0xDD;

/// The most streams that an audit of a network keeps, and the most sources. A packet of a further stream is counted as untracked.
pub const MAX_STREAMS: usize = 1024;

/// The most pairs of a sender and a fault that an audit of a network keeps of what can't be read. A datagram of a further pair is
/// counted as untracked.
pub const MAX_REFUSED: usize = 256;

/// How many hints there are of the places of streams, and of sources.
pub(crate) const HINTS: usize = 65536;
