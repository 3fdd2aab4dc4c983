//! Numbers among octets, in either byte order.

ghost use Rattle.std.specs.Prelude.{◌≡◌, ◌+◌, ◌≤◌, length};
ghost use Rattle.sacn_capture.specs.Octets.{number16, number32, number64};

/// Which octet of a number stands first: the order of the machine that wrote the file.
#[derive(Clone, Copy)]
pub enum ByteOrder {
    /// The high octet first, as on a network.
    Big,
    /// The low octet first.
    Little,
}

impl ByteOrder {
    /// The number in the two octets at a place.
    pub fn u16_at(self, octets: &[u8], at: usize) -> u16
        requires { at + 2 ≤ length octets.now }
        ensures { result ≡ number16 self octets.now at }
    {
        let two = [octets[at], octets[at + 1]];
        match self {
            ByteOrder::Big => u16::from_be_bytes(two),
            ByteOrder::Little => u16::from_le_bytes(two),
        }
    }

    /// The number in the four octets at a place.
    pub fn u32_at(self, octets: &[u8], at: usize) -> u32
        requires { at + 4 ≤ length octets.now }
        ensures { result ≡ number32 self octets.now at }
    {
        let four = [octets[at], octets[at + 1], octets[at + 2], octets[at + 3]];
        match self {
            ByteOrder::Big => u32::from_be_bytes(four),
            ByteOrder::Little => u32::from_le_bytes(four),
        }
    }

    /// The number in the eight octets at a place.
    pub fn u64_at(self, octets: &[u8], at: usize) -> u64
        requires { at + 8 ≤ length octets.now }
        ensures { result ≡ number64 self octets.now at }
    {
        let first = u64::from(self.u32_at(octets, at));
        let second = u64::from(self.u32_at(octets, at + 4));
        match self {
            ByteOrder::Big => first * 0x1_0000_0000 + second,
            ByteOrder::Little => first + second * 0x1_0000_0000,
        }
    }
}
