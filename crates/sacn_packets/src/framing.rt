//! Packets of streaming ACN (ANSI E1.31-2018): data packets, universe discovery pages and
//! synchronization packets, read from datagrams and written to them.
//!
//! `read_packet` returns a packet exactly where a prefix of the octets is its text, and otherwise the
//! first check of the standard's layouts that fails. Views lend names and slots out of the datagram.
//! `write_data` writes the text that is read back as the same fields.

mod data;
mod data_layer;
mod extended_layer;
pub mod laws;
mod layers;
pub mod layout;
mod names;
mod packet;
mod page;
mod writing;

pub use data::DataView;
pub use extended_layer::{DISCOVERY_VECTOR, LIST_VECTOR};
pub use names::{MAX_NAME, multicast_group, source_name, up_to_nul};
pub use packet::{Packet, Reading, read_packet};
pub use page::{PAGE_NUMBERS, PageView};
pub use writing::{DataFields, write_data};
