//! The numbers that bound what the machine's devices do, and the loops over them. Times are milliseconds.

/// The most receives of one turn of a gateway.
pub const MAX_BURST: usize = 4096;

/// The longest wait of a turn: a stop of the process is then seen.
pub const LONGEST_WAIT: u64 = 500;

/// The room for datagrams that wait in a gateway's socket, in octets, that the machine is asked for.
pub const RECEIVE_ROOM: i32 = 4_194_304;

/// The longest wait after a receive that failed.
pub const FAILED_WAIT: i32 = 100;

/// How long nothing may come from the start on until that is said.
pub const SILENT_START: u64 = 5000;

/// How long a message that could come often is held back after the one before.
pub const SAID_EACH: u64 = 1000;

/// The longest wait of a watch while lines wait for an output, in milliseconds.
pub const PENDING_WAIT: i32 = 100;

/// The least room for datagrams that wait in a host's socket, in octets, that the machine is asked for; it gives twice as much. That is less
/// than waits for a host whose hardware address isn't known (212,992).
pub const HOST_ROOM: i32 = 98_304;

/// The room for what is sent at once on one universe, asked for as above: two datagrams of 512 slots, since a stream's first packet goes
/// behind its copy.
pub const HOST_OCTETS: i32 = 1280;

/// The same for a socket that sends to groups.
pub const GROUPS_ROOM: i32 = 4_194_304;

/// The same for the socket of a host that takes nothing: the least that a machine gives, for three datagrams.
pub const HELD_ROOM: i32 = 1;

/// How long a socket is full at each try until it is tried seldom.
pub const HOLD_AFTER: u64 = 100;

/// How often a socket is tried then.
pub const TRIED_EACH: u64 = 10;

/// A destination takes datagrams again where it takes more than so many in a row.
pub const TAKEN_AGAIN: u32 = 8;

/// How often a desk that sends looks in the machine's table of neighbours.
pub const LOOKED_EACH: u64 = 100;

/// How soon it looks again where a host's socket is full.
pub const LOOKED_AGAIN: u64 = 20;

/// How often a datagram is sent to a host that doesn't answer, so that the machine asks for it again.
pub const SILENT_TRIED_EACH: u64 = 1000;

/// How long the table doesn't have it until nothing is known of it any more: it has been tried again, and so would be in the table.
pub const SILENT_GONE: u64 = 3000;
