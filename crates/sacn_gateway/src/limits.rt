//! The numbers that bound a gateway's loop. Times are milliseconds.

/// How long after its first reading a turn ends, though more may wait: the frames are then shown.
pub const TURN_SPAN: u64 = 20;

/// The most datagrams that wait in a gateway's socket: the machine gives it at most twice the room that it is asked for, and counts
/// more than 512 octets for each, however short.
pub const MOST_WAITING: u64 = 16_384;

/// The most lines in a second of sources that come, end or are lost.
pub const SOURCE_LINES: u64 = 10;

/// How long an interface shows a frame before it gets it again.
pub const REFRESH: u64 = 500;

/// How long an interface that failed is left alone.
pub const RETRY: u64 = 1000;

/// How long a gateway waits at most where an interface could take no more octets.
pub const LATER_WAIT: u64 = 25;
