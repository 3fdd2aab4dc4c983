//! Where the fields of a root layer stand among its octets (E1.31, 5). Reader, writer and the table of checks take them from here.

/// Preamble size (5.1).
pub const PREAMBLE_SIZE_AT: usize = 0;

/// Post-amble size (5.2).
pub const POSTAMBLE_SIZE_AT: usize = 2;

/// ACN packet identifier (5.3), twelve octets.
pub const IDENTIFIER_AT: usize = 4;

/// The root PDU: its flags and length (5.4), which counts from here.
pub const PDU_AT: usize = 16;

/// Vector (5.5), four octets.
pub const VECTOR_AT: usize = 18;

/// The sender's CID (5.6), sixteen octets.
pub const CID_AT: usize = 22;

/// What the layer carries: the framing layer.
pub const BODY_AT: usize = 38;
