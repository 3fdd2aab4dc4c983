//! What is recorded.

/// The most octets that a recorded datagram may carry.
pub const LONGEST_PAYLOAD: usize = 2048;

/// The most octets that the name of the recording program may have.
pub const LONGEST_PROGRAM: usize = 64;

/// A datagram that was heard.
#[derive(Clone, Copy)]
pub struct Heard<'a> {
    /// When it was heard, in microseconds since 1970.
    pub moment: u64,
    /// The sender's address.
    pub sender: [u8; 4],
    pub sender_port: u16,
    /// The address that it was sent to: a host's, a broadcast or a multicast address.
    pub destination: [u8; 4],
    pub destination_port: u16,
    /// The octets that it carries, at most `LONGEST_PAYLOAD`.
    pub payload: &'a [u8],
}
