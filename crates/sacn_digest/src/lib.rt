//! What each source did in a recording (ANSI E1.31-2018), as sentences: an incident is told once for all its universes, as a line for
//! people or an object of JSON for programs.
//!
//! A [`Network`](sacn_network::Network) tells what happens universe by universe, and `sacn_incidents` gathers it. That none is left out
//! there, and none told twice, is proved; how it is spelled here is tested.
#![tactic(auto)]

mod digest;
mod gatherer;
mod live;
mod names;
mod objects;
mod presences;
mod sentences;
mod source_lines;
mod universes;

pub use digest::{Parts, tell_digest};
pub use live::LiveDigest;
pub use presences::Presences;
pub use source_lines::push_source_line;
