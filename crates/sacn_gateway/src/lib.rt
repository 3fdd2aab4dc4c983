//! A gateway: its loop, what is noted of it, and its interfaces.
//!
//! A gateway has one node or several, each of a setup of its own, behind one receiver.
//! What the loop does is stated over devices that tell what was asked of them, those of `sacn_machine`.
#![tactic(auto)]

mod backlog;
mod counts;
mod diagnosis;
mod gateway;
mod hearing;
mod interface;
pub mod laws;
pub mod limits;
mod nodes;
mod slot_lines;
mod slot_notes;

pub use counts::Allowance;
pub use diagnosis::Diagnosis;
pub use gateway::{Span, run_gateway};
pub use hearing::{Notes, PassedOver};
pub use interface::Interface;
pub use nodes::GatewayNode;
pub use slot_lines::slots_line;
pub use slot_notes::SlotNotes;
