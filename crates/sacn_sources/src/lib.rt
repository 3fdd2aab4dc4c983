//! What a universe's sources show, as a receiver holds it: who sends there, what each showed last, for how long it counts,
//! and the merge of what is shown (E1.31, 6 and 6.7.1; the rest is this project's profile).
//!
//! [`SourceTable`] is the table that a receiver runs. [`plain`] has the same table as a plain program. Both stand on the rule
//! of sequence numbers ([`sequence`]) and on levels, their merge and the frame that goes out ([`slots`]).
#![tactic(auto)]

mod answer;
mod entry;
mod fault;
mod givers;
mod held_view;
mod kind;
pub mod laws;
mod limits;
pub mod plain;
pub mod sequence;
pub mod slots;
mod store;
mod table;

pub use answer::Taken;
pub use fault::TableFault;
pub use givers::Givers;
pub use held_view::HeldView;
pub use kind::{Kind, kind_of};
pub use limits::{MAX_SOURCES, NETWORK_DATA_LOSS};
pub use sequence::{LATE_ABOVE, in_sequence, signed_step};
pub use slots::{Layer, Levels, frame_bytes, merge_into};
pub use table::SourceTable;
