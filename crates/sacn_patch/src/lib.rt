//! Which channel each slot of each universe shows.
//!
//! A `Patch` is a finite map from (universe, slot) to the high or the low octet of a channel's
//! level. `Patch::fill` writes the slots of one universe from any source of levels, a `LevelOf`.
#![tactic(auto)]

mod fault;
mod flat;
pub mod laws;
mod level;
pub mod limits;
mod part;
mod patch;

pub use fault::PatchFault;
pub use flat::FlatPatch;
pub use level::{LevelOf, RestOf};
pub use limits::MAX_CHANNELS;
pub use patch::Patch;
