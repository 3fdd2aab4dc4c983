//! What is recorded, and into which files.

/// The universe of universe discovery (E1.31, 9.1), to whose group pages are sent.
pub const DISCOVERY: u16 = 64214;

/// What is asked of a recorder.
#[derive(Clone, Copy)]
pub struct RecordPlan<'a> {
    /// The name of the recording program, with its version, in at most `LONGEST_PROGRAM` octets.
    pub program: &'a str,
    /// The address that datagrams were sent to which went to no group.
    pub host: [u8; 4],
    /// The UDP port that is listened at.
    pub port: u16,
    /// The universes whose data packets are recorded; all where none is named.
    pub universes: &'a [u16],
    /// For how many milliseconds a file takes what is heard; then another is begun.
    pub longest: u64,
}
