//! Why an order is refused.
ghost use Rattle.std.specs.Prelude.{◌≡◌};
ghost use Rattle.sacn_orders.specs.declared.fault.OrderFault.TheVariants.{OutOfMemory};

use sacn_console::TextFault;
use std::alloc::{AllocError, AllocFailed};
use thiserror::Error;

/// Why `order_of` refuses a line: the first fault in the order of its words. Nothing was made.
///
/// Each fault has a number of its own, which `number` gives.
#[derive(Clone, Copy, Debug, PartialEq, Eq, Error)]
pub enum OrderFault {
    /// A request for memory was refused.
    #[error("out of memory")]
    OutOfMemory,
    /// The line speaks of no channels, and is no other order either.
    #[error("{0}")]
    Text(TextFault),
    /// Nothing stands before `at`.
    #[error("there is nothing before at")]
    NoChannels,
    /// A word stands, or the line ends, where a channel's number, `thru`, a sign or `at` was expected.
    #[error("a number, thru or at was expected")]
    Word,
    /// A channel isn't 1 to `MAX_CHANNELS`.
    #[error("a channel is 1 to 2048")]
    Channel,
    /// The last channel of a span is below its first.
    #[error("a span goes backwards")]
    Backwards,
    /// The selection has more than `MAX_PARTS` parts.
    #[error("a selection has at most 64 parts")]
    TooManyParts,
    /// What stands behind `at` is neither `full` nor a percent, 0 to 100 with two decimals at most.
    #[error("a level is 0 to 100, full or 65535 with set")]
    Level,
}

impl OrderFault {
    ghost use Rattle.sacn_orders.specs.OrderFaults.{order_fault_number};

    /// The fault's number, from 1 to 8.
    pub fn number(self) -> u8
        ensures { result ≡ order_fault_number self }
    {
        match self {
            OrderFault::OutOfMemory => 1,
            OrderFault::Text(_) => 2,
            OrderFault::NoChannels => 3,
            OrderFault::Word => 4,
            OrderFault::Channel => 5,
            OrderFault::Backwards => 6,
            OrderFault::TooManyParts => 7,
            OrderFault::Level => 8,
        }
    }
}

impl From<AllocError> for OrderFault {
    ghost from_gives = { λ _ fault. fault ≡ OutOfMemory };

    fn from(_refused: AllocError) -> OrderFault {
        OrderFault::OutOfMemory
    }
}

impl<T: Drop> From<AllocFailed<T>> for OrderFault {
    ghost from_gives = { λ _ fault. fault ≡ OutOfMemory };

    fn from(_refused: AllocFailed<T>) -> OrderFault {
        OrderFault::OutOfMemory
    }
}
