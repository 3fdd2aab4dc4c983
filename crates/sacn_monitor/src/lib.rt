//! What happens on a network of streaming ACN (ANSI E1.31-2018): who sends on which universe, since when, at which
//! priority, what was lost on the way, and when a source ended or fell silent.
//!
//! A [`Monitor`] is handed each datagram with its moment and its sender, and keeps an account of each source on each
//! universe. Every number of an account is said by the packets of that source on that universe alone.
#![tactic(auto)]

mod account;
mod going_on;
mod holding;
mod kinds;
pub mod laws;
mod limits;
mod monitor;
mod news;
mod numbering;
mod rate;
mod register;
mod rivals;
mod silence;
mod stream;
mod tally;

pub use account::{Account, Endpoint};
pub use holding::Holding;
pub use kinds::Kinds;
pub use limits::MAX_STREAMS;
pub use monitor::Monitor;
pub use news::{Change, News, Noted, StreamEvent};
pub use numbering::Numbering;
pub use rate::Rate;
pub use stream::{Stream, StreamState};
pub use tally::Tally;
