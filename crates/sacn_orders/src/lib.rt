//! Orders as a lighting crew says them, read into a console's commands.
//!
//! A line's words are cut at the signs `+`, `-` and `%` (`pieces`). A line that speaks of channels is a selection, `at`
//! and a level: `grammar` and `part` read the first, `level` the last. `order_of` says what a line is, and
//! `LevelCommands` gives the commands of one that sets levels, in turn. Each contract is the word's definition in
//! `specs/Orders.antt`.
#![tactic(auto)]

mod fault;
mod giving;
mod grammar;
pub mod laws;
mod level;
pub mod limits;
mod order;
mod part;
mod pieces;
mod selection;

pub use fault::OrderFault;
pub use giving::LevelCommands;
pub use order::{Order, order_of};
pub use part::Part;
pub use selection::Selection;
