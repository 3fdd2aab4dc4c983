//! The core of a console: what it sends, and when.
#![tactic(auto)]

mod command;
mod console;
pub mod laws;
pub mod limits;
mod line;
mod script;
mod sender;
mod show;
mod universe_lines;
pub mod waking;

pub use command::{Command, ConsoleFault};
pub use console::{ConsoleCore, DueDatagram};
pub use limits::CONSOLE_UNIVERSES;
pub use line::{
    Begun, Look, Run, State, UniverseLine, asks, can_end, can_start, has_passed, same, when_passed,
};
pub use sacn_files::faults::TextFault;
pub use script::{command_of, read_script};
pub use sender::Sender;
pub use show::{PatchRow, Show, ShowFault, read_show, show_of};
pub use universe_lines::{first_lines, list_standing, place_of};
