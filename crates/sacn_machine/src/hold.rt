//! When a destination's socket that takes nothing is tried.

use crate::limits::{HOLD_AFTER, TAKEN_AGAIN, TRIED_EACH};

#[derive(Clone, Copy)]
enum Standing {
    Takes,
    /// It was full at each try since this reading.
    Full(u64),
    /// It is tried seldom: the latest try was at this reading, and it took so many since it was full.
    Held(u64, u32),
}

/// Whether a destination's socket is tried at each datagram, or seldom.
#[derive(Clone, Copy)]
pub(crate) struct Hold {
    standing: Standing,
}

impl Hold {
    /// Each datagram is tried.
    pub(crate) fn new() -> Hold {
        Hold {
            standing: Standing::Takes,
        }
    }

    /// Whether a datagram at this reading isn't tried.
    pub(crate) fn holds(&self, now: u64) -> bool {
        match self.standing {
            Standing::Held(tried, _) => now.saturating_sub(tried) < TRIED_EACH,
            _ => false,
        }
    }

    /// Whether datagrams are tried seldom.
    pub(crate) fn is_held(&self) -> bool {
        matches!(self.standing, Standing::Held(_, _))
    }

    /// Notes a try at a reading. Returns whether datagrams are tried seldom from now on, or no longer.
    pub(crate) fn note(&mut self, now: u64, is_full: bool) -> bool {
        let was_held = self.is_held();
        self.standing = self.after(now, is_full);
        was_held != self.is_held()
    }

    fn after(&self, now: u64, is_full: bool) -> Standing {
        match self.standing {
            Standing::Takes => {
                if is_full {
                    Standing::Full(now)
                } else {
                    Standing::Takes
                }
            }
            Standing::Full(since) => {
                if !is_full {
                    Standing::Takes
                } else if now.saturating_sub(since) < HOLD_AFTER {
                    Standing::Full(since)
                } else {
                    Standing::Held(now, 0)
                }
            }
            Standing::Held(_, taken) => {
                if is_full {
                    Standing::Held(now, 0)
                } else if taken < TAKEN_AGAIN {
                    Standing::Held(now, taken + 1)
                } else {
                    Standing::Takes
                }
            }
        }
    }
}
