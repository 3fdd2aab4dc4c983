//! The commands over the lower crates, and how any command ends: datagrams decoded and worlds simulated
//! (`printing`), a console and a node on 127.0.0.1 (`network`), gateways (`gateway`), desks (`live`, `hosts`,
//! `prompting`, `paging`), the groups of their universes (`groups`); what is wrong in a refused file (`places`).
//!
//! What watches a network or tells a recording stands in the program, over crates that are proved later.
#![tactic(auto)]

pub mod ending;
pub mod files;
pub mod gateway;
pub mod groups;
pub mod hosts;
pub mod live;
pub mod naming;
pub mod network;
pub mod paging;
pub mod places;
pub mod printing;
mod prompting;
