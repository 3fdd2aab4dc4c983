//! The numbers that bound a desk's page. Times are milliseconds.

/// The most connections.
pub const MAX_CALLERS: usize = 8;

/// The most places at which the answer to a refused order waits. While there are as many no order is taken, so that all others can still look.
pub const MAX_DELAYED: usize = 4;

/// The most octets of an order.
pub const MAX_BODY: usize = 512;

/// How long the answer to the first order that is refused waits; each further one waits twice as long.
pub const FIRST_DELAY: u64 = 500;

/// The longest such wait.
pub const LAST_DELAY: u64 = 8000;

/// How long no order is refused until the next one waits as the first did.
pub const DELAY_MEMORY: u64 = 60_000;

/// The longest time in which a request has to come.
pub const REQUEST_TIME: u64 = 5000;

/// The longest time in which a caller takes its answer.
pub const STALL_TIME: u64 = 10_000;

/// The longest time in which an answered caller closes its end.
pub const LEAVE_TIME: u64 = 1000;
