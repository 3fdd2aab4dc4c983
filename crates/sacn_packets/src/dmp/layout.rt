//! Where the fields of a DMP layer stand among its octets (E1.31, 7). Reader, writer and the table of checks take them from here.

/// Vector (7.2), after flags and length (7.1).
pub const VECTOR_AT: usize = 2;

/// Address type and data type (7.3).
pub const ADDRESS_TYPE_AT: usize = 3;

/// First property address (7.4).
pub const FIRST_ADDRESS_AT: usize = 4;

/// Address increment (7.5).
pub const INCREMENT_AT: usize = 6;

/// Property value count (7.6).
pub const COUNT_AT: usize = 8;

/// Property values (7.7): the start code, and then the slots.
pub const VALUES_AT: usize = 10;

/// The first slot.
pub const SLOTS_AT: usize = 11;
