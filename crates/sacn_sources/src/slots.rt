//! The slots of a universe: the levels that a source gave, the merge of several sources, and the frame that goes out.
//!
//! A universe has 512 slots of eight bits. A packet gives the levels of the first ones ([`Levels`]); a receiver that
//! holds several sources merges what they show ([`merge_into`]) and puts the start code before the result
//! ([`frame_bytes`]).
//!
//! The merge is one of a set. The sources of the greatest priority are followed (E1.31, 6.2.3), and among
//! them the highest level takes precedence, slot by slot (profile: the standard leaves this to the receiver). Neither
//! the order of the sources nor how often one is given counts, which is a law here ([`laws::merge_is_of_a_set`]).

mod block;
mod frame;
pub mod laws;
mod levels;
mod merge;
pub mod plain;

pub use frame::frame_bytes;
pub use levels::Levels;
pub use merge::{Layer, merge_into};
