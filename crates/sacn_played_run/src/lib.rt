//! The loop of a recording that is played as a source.
//!
//! [`run_as_source`] takes each record that is due into a [`sacn_played_source::PlayedSource`], and sends by the machine's clock what that
//! source sends. What it calls, and what is handed over by that, are lists that stand beside one another in its contract.
#![tactic(auto)]

mod ending;
pub mod laws;
mod run;
mod sending;
mod taking;

pub use ending::MAX_END_ROUNDS;
pub use run::run_as_source;
