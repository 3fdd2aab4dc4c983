//! How long what is received can have waited.
ghost use Rattle.std.specs.Prelude.{◌≡◌};
ghost use Rattle.sacn_gateway.specs.Backlogs.{nothing_waits, with_datagram, is_late};

use crate::limits::MOST_WAITING;
use sacn_sources::NETWORK_DATA_LOSS;

/// What is known of the datagrams that wait in a device. No more than `MOST_WAITING` wait at once: so after as many receives as that, all that
/// waited at a reading has been received, also where the device never ran empty.
#[derive(Clone, Copy)]
pub struct Backlog {
    /// What is received from now on came after this reading.
    emptied: u64,
    /// A later reading, or the same.
    mark: u64,
    /// How many datagrams were received since that.
    received: u64,
}

impl Backlog {
    /// Nothing waits at a reading.
    pub fn none(now: u64) -> Backlog
        ensures { result ≡ nothing_waits now }
    {
        Backlog {
            emptied: now,
            mark: now,
            received: 0,
        }
    }

    /// After a datagram that was received at a reading.
    pub fn with_datagram(&self, now: u64) -> Backlog
        ensures { result ≡ with_datagram now self.now }
    {
        if self.received < MOST_WAITING {
            return Backlog {
                emptied: self.emptied,
                mark: self.mark,
                received: self.received + 1,
            };
        }
        Backlog {
            emptied: self.mark,
            mark: now,
            received: 0,
        }
    }

    /// Whether a datagram that is received at a reading may have waited longer than the network data loss time.
    pub fn is_late(&self, now: u64) -> bool
        ensures { result ≡ is_late self.now now }
    {
        now.saturating_sub(self.emptied) > NETWORK_DATA_LOSS
    }
}
