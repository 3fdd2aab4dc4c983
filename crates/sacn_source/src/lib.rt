//! The core of a source: a program hands it levels, and it says which datagrams are due.
//!
//! It is a console's core with kept levels in place of cues. What a sender keeps of one universe, when that asks for a
//! packet, and all times and bounds are those of `sacn_console`.
#![tactic(auto)]

mod fault;
pub mod laws;
mod looks;
mod source;
mod source_universe;
mod source_universes;

pub use fault::SourceFault;
pub use source::SourceCore;
pub use source_universe::SourceUniverse;
