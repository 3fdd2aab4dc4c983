//! A page that orders a desk (ANSI E1.31-2018): it shows browsers what runs, and takes orders from those that have its key. Each is obeyed as a
//! typed one is.
#![tactic(auto)]

mod callers;
mod documents;
mod guard;
pub mod limits;
mod markup;
mod paged;
mod penalty;
mod place;
mod request;
mod response;
mod server;

pub use callers::{Callers, Desk};
pub use guard::is_order;
pub use paged::{PagedOrders, ServedDesk};
pub use penalty::Penalty;
pub use request::{DeskRefusal, DeskRequest, read_request};
pub use server::DeskPage;
