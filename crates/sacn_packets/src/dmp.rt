//! The DMP layer of a data packet of streaming ACN (ANSI E1.31, 7): a start code and slots.

pub mod layout;
mod reading;
mod writing;

pub use reading::{DmpView, check_dmp, read_dmp};
pub use writing::write_dmp;
