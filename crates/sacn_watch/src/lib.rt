//! What happens on a network of streaming ACN (ANSI E1.31-2018), watched as it happens: as lines, or as a screen of a terminal.
#![tactic(auto)]

mod alarms;
mod digits;
mod fault;
mod keys;
mod layout;
mod leaving;
mod levels;
mod line_watcher;
mod listener;
mod marks;
mod numbers;
mod page;
mod run;
mod running;
mod sized_screen;
mod steering;
mod terminal;
mod view;
mod watch;

pub use fault::WatchFault;
pub use keys::{Awaited, Decoder, Key, Keyboard};
pub use layout::screen;
pub use leaving::{Leaving, LeavingListener};
pub use listener::Listener;
pub use marks::Marks;
pub use page::{Cell, Ink, Page, Row, Size, is_shown, printable};
pub use run::{watch_lines, watch_terminal};
pub use running::{MOST_BETWEEN, RunningClock, RunningListener};
pub use sized_screen::{Screen, Sizes};
pub use steering::{LevelForm, Steering};
pub use terminal::{MIN_WAIT, Terminal, ToldKeys};
pub use view::View;
pub use watch::{Watcher, run_watch};
