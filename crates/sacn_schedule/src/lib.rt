//! The files of a simulated world: its consoles and nodes, and a schedule of what happens in it.
//!
//! `read_world` reads a world's consoles and nodes from a TOML document and `world_of` from a document's table, and
//! `read_schedule` the [`Event`]s of a schedule, a line each. What a world answers to them, and what then holds of it, is said above.
#![tactic(auto)]

mod cids;
mod event;
mod schedule;
mod world_file;

pub use cids::has_same_cid;
pub use event::Event;
pub use sacn_files::faults::TextFault;
pub use schedule::read_schedule;
pub use world_file::{NEWEST_WORLD, WorldTextFault, read_world, world_of};
