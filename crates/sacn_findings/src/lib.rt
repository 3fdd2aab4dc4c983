//! What an [`Audit`](sacn_audit::Audit) found, as text for people and as objects of JSON for programs: for each source which rules of
//! streaming ACN (ANSI E1.31-2018) its packets broke, on which universes, how often and when; and what senders sent that can't be read.
//!
//! That totals are sums of what was counted is proved; how they are spelled is tested.
#![tactic(auto)]

mod clauses;
mod findings;
mod list_findings;
mod namesakes;
mod objects;
mod rule_rows;
mod sentences;
mod sources;
mod unread;

pub use findings::total_of;
pub use namesakes::namesake_at;
pub use objects::push_objects;
pub use sentences::{push_source_text, push_text, push_text_end};
pub use unread::{push_unread, push_unread_objects};
