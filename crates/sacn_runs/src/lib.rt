//! Laws that join the loops to worlds. They cost nothing when they run.
//!
//! The contract of [`sacn_edge::run_node`] says what a node writes over what its link brought and its clock read, and that of
//! [`sacn_world::World`] says what a world answers. Here the one is the other: a node that runs in its loop writes what a
//! world's node shows to which the same packets come at the same moments; and a console that runs in its loop hands over what a
//! world's console sends that is given the same commands and polls. So do a gateway and a desk, of [`sacn_gateway::run_gateway`]
//! and [`sacn_desk::run_desk`], and what a gateway offers its interfaces are the frames that the world shows.
#![tactic(auto)]

pub mod laws;
