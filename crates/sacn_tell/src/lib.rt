//! What happens on a network of streaming ACN (ANSI E1.31-2018), told as it happens or from a recording: a line for each thing
//! that happens, in order, the frames of a node with their causes, and then tables of the sources and universes with all counts.
#![tactic(auto)]

mod account_lines;
mod cause;
mod event_words;
mod fault;
mod follow;
mod follower;
mod frames;
mod json;
pub mod laws;
mod line_writer;
mod listed;
mod listings;
mod numbers;
mod options;
mod packet_lines;
mod places;
mod refusals;
mod report;
mod spelling;
mod stage;
mod stream_rows;
mod table_rows;
mod tables;
mod teller;

pub use event_words::{
    NamedSource, begin as begin_line, push_named_source, push_seconds, push_short_cid, push_stop,
};
pub use fault::{ExplainFault, TellFault};
pub use follow::{Timeline, explain};
pub use follower::Follower;
pub use json::{
    begin as begin_object, push_foreign, push_key, push_number, push_sender_members,
    push_source as push_source_members, push_word,
};
pub use line_writer::LineWriter;
pub use listings::{Listings, MAX_LISTINGS};
pub use numbers::{push_numbers, push_ranges};
pub use options::{Form, Options};
pub use refusals::fault_words;
pub use report::{Report, has_unread, total, unread_members, unread_text};
pub use spelling::{push_cid, push_decimal, push_digits, push_long_digits, push_name, push_sender};
pub use stream_rows::{push_counts, push_state_members};
