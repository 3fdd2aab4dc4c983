//! The root layer of a packet of streaming ACN (ANSI E1.31, 5), and the octets that
//! all its layers are made of.
//!
//! All numbers in a packet are big-endian. A PDU (protocol data unit) begins with two octets of
//! flags, 7 in the high four bits, and length, in the low twelve, which counts from these two
//! octets to the PDU's end.

mod fault;
pub mod laws;
pub mod layout;
mod octets;
mod reading;
mod writing;

pub use fault::{FAULT_NUMBERS, PacketFault};
pub use octets::{PDU_FLAGS, flags_at, length_at, u16_at, u32_at};
pub use reading::{DATA_VECTOR, EXTENDED_VECTOR, RootView, read_root};
pub use writing::{pdu_field, put, write_root};
