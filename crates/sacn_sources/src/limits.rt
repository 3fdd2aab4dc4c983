//! The numbers of the table.

/// The most sources that a table holds, ended ones too (profile). A further source is answered `SourcesExceeded`.
pub const MAX_SOURCES: usize = 16;

/// Network data loss (E1.31, 6.7.1), in milliseconds: a source that was not renewed for so long is lost.
pub const NETWORK_DATA_LOSS: u64 = 2500;
