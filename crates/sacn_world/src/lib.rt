//! Consoles, nodes and the network between them, event by event.
//!
//! A [`World`] is made of shows and of node setups, and takes [`Event`]s: orders and polls of a console, deliveries of sent
//! datagrams to a node in any order, repeated or late, looks at a port, restarts, and noise. Its value knows places, the indices
//! of packets in unbounded streams; its nodes read octets and know eight-bit numbers alone. Each call's contract is the world's
//! rule by places, and `laws` says what holds of every list of events: `laws::headline` says the whole, and the others its parts.
//!
//! `read_world` reads a world's consoles and nodes from a TOML document, and `read_schedule` the events of a schedule, a line
//! each; both stand in the crate `sacn_schedule`.
#![tactic(auto)]

mod answer;
mod console;
mod datagram;
mod fault;
pub mod laws;
mod limits;
mod mark;
mod world;
mod world_node;

pub use answer::Answer;
pub use fault::{NewFault, RunFault, WorldFault};
pub use limits::TOO_FAR_BEHIND;
pub use sacn_schedule::{
    Event, NEWEST_WORLD, TextFault, WorldTextFault, read_schedule, read_world,
};
pub use world::World;
