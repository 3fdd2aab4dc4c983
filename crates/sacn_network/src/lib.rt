//! The one account of what a network of streaming ACN (ANSI E1.31-2018) carries, and what happens there, told in order.
//!
//! A [`Network`] is handed each datagram with its moment and its sender. It tells an [`Observer`] each thing that happens as
//! an [`Occurrence`], once, at its own moment: losses, what packets tell that is new, contests of universes. What that
//! comes to over any calls stands in [`laws`].
//!
//! A [`LitUniverse`] shows the levels of one universe, and who gives each of them.
#![tactic(auto)]

pub mod laws;
mod ledger;
mod light_ends;
mod lit_universe;
mod network;
mod observer;
mod occurrence;
mod places;
mod stirring;
mod universe_set;

pub use lit_universe::LitUniverse;
pub use network::Network;
pub use observer::{Observer, Unobserved};
pub use occurrence::{Contest, Occurrence, What};
