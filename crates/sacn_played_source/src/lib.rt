//! A recording played as a source of one's own: the pure core of a backup that stands beside a console.
//!
//! A [`PlayedSource`] merges a recording's sources on each universe as a node merges them, and sends the merge as one source with a CID,
//! a name and a priority of its own, by a console's rules. The moments of the recording and the machine's clock are two clocks: a recording
//! that is paused keeps its light. What is sent over any list of calls stands in [`laws`].
#![tactic(auto)]

pub mod laws;
mod played_source;
mod played_universe;

pub use played_source::PlayedSource;
