//! Universe discovery (ANSI E1.31, 6.4 and 8): a console's list of universes written as
//! pages, and the lists of all consoles collected from the pages that came.
//!
//! A collector keeps, for each source, the latest copy of each page since the last page number
//! changed. A list is known when all its pages are there.
#![tactic(auto)]

mod collector;
mod fault;
pub mod laws;
mod limits;
mod pages;
mod source_pages;

pub use collector::Collector;
pub use fault::DiscoveryFault;
pub use limits::FORGOTTEN_AFTER;
pub use pages::{page_count, write_page};
