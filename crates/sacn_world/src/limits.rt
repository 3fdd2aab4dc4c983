//! The numbers of a world.

/// How many sends behind the newest delivered packet of its life a packet is too far behind to be delivered. A receiver takes
/// a number that seems to lie so far behind as that of a new life (E1.31, 6.7.2).
pub const TOO_FAR_BEHIND: usize = 20;
