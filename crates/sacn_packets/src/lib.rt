//! Packets of streaming ACN (ANSI E1.31-2018): a datagram is read, once, and written.
//!
//! Each layer has a module, and stands on those before it: the numbers that all share ([`universe`]), the root layer and the
//! octets that all layers are made of ([`root`]), the DMP layer ([`dmp`]), and whole packets ([`framing`]). What they export
//! is named here too. Where the fields of a layer stand says its `layout`, and what its numbers are its `laws`.
#![tactic(auto)]

pub mod dmp;
pub mod framing;
pub mod root;
pub mod universe;

pub use dmp::{DmpView, check_dmp, read_dmp, write_dmp};
pub use framing::{
    DISCOVERY_VECTOR, DataFields, DataView, LIST_VECTOR, MAX_NAME, PAGE_NUMBERS, Packet, PageView,
    Reading, multicast_group, read_packet, source_name, up_to_nul, write_data,
};
pub use root::{
    DATA_VECTOR, EXTENDED_VECTOR, FAULT_NUMBERS, PDU_FLAGS, PacketFault, RootView, flags_at,
    length_at, pdu_field, put, read_root, u16_at, u32_at, write_root,
};
pub use universe::{
    FRAME_OCTETS, MAX_PRIORITY, MAX_UNIVERSE, MIN_UNIVERSE, NULL_START_CODE, SLOTS,
};
