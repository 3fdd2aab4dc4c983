//! The statuses that the border itself answers; all others are the numbers of faults.

/// The call was made.
pub const DONE: u32 = 0;

/// A length is out of the range that the call documents.
pub const LENGTH: u32 = 1002;

/// The handle stands for something else.
pub const WRONG_HANDLE: u32 = 1003;

/// An argument is out of the range that the call documents, or there is nothing of this number.
pub const RANGE: u32 = 1004;

/// A request for memory was refused.
pub const OUT_OF_MEMORY: u32 = 1006;

/// A name isn't UTF-8, has a NUL, or is longer than 63 octets.
pub const NAME: u32 = 1007;
