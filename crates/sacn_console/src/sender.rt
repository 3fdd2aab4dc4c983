//! Who sends.

/// What every packet of a console says of its sender: the CID (E1.31, 5.6), the source name
/// with NUL to its end (6.2.2), and the priority, 0 to 200 (6.2.3).
#[derive(Clone, Copy)]
pub struct Sender {
    pub cid: [u8; 16],
    pub name: [u8; 64],
    pub priority: u8,
}
