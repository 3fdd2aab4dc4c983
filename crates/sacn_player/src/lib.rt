//! A recording played by a machine: its file, what sends its datagrams, and the orders that are typed while it plays.
//!
//! What goes out, and when, is said by `sacn_replay`, whose loop these devices serve. They tell nothing; what they do is tested.
#![tactic(auto)]

mod counted_link;
mod file_tape;
mod moments;
mod order_line;
mod played_link;
mod said;
mod tape_choice;
mod typed_orders;

pub use counted_link::CountedLink;
pub use file_tape::FileTape;
pub use moments::{day_millis, millis_in};
pub use played_link::PlayedLink;
pub use said::{PlayedAs, SourceTotals, write_source_totals, write_start, write_totals};
pub use tape_choice::TapeChoice;
pub use typed_orders::TypedOrders;
