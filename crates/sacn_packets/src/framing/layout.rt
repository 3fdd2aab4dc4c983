//! Where the fields of a framing layer stand among its octets, of data packets (E1.31, 6.2) and of universe discovery (6.4 and 8).
//! Readers, writers and the tables of checks take them from here. The root layer's stand in `crate::root::layout`, the DMP layer's in
//! `crate::dmp::layout`.

/// Vector (6.2.1, 6.4.1), four octets, after flags and length (6.1).
pub const VECTOR_AT: usize = 2;

/// Source name (6.2.2, 6.4.2), 64 octets.
pub const NAME_AT: usize = 6;

/// Priority (6.2.3).
pub const PRIORITY_AT: usize = 70;

/// Synchronization address (6.2.4), two octets.
pub const SYNCHRONIZATION_AT: usize = 71;

/// Sequence number (6.2.5).
pub const SEQUENCE_NUMBER_AT: usize = 73;

/// Options (6.2.6).
pub const OPTIONS_AT: usize = 74;

/// Universe (6.2.7), two octets.
pub const UNIVERSE_AT: usize = 75;

/// The DMP layer of a data packet.
pub const DMP_AT: usize = 77;

/// The discovery layer of a page: its flags and length (8.1), after four reserved octets.
pub const DISCOVERY_AT: usize = 74;

/// Its vector (8.2), four octets.
pub const LIST_VECTOR_AT: usize = 76;

/// The number of the page (8.3).
pub const PAGE_AT: usize = 80;

/// The number of the last page (8.4).
pub const LAST_PAGE_AT: usize = 81;

/// The universes (8.5), two octets each.
pub const UNIVERSES_AT: usize = 82;
