//! Numbers among octets, the high octet first.

ghost use Rattle.std.specs.Prelude.{◌≡◌, ◌+◌, ◌≤◌, length};
ghost use Rattle.sacn_packets.specs.Octets.{number16_at, number32_at, flags_of, length_of};

/// The flags of every PDU: it has a length, a vector, a header and data of its own (5.4).
pub const PDU_FLAGS: u16 = 7;

/// The length of a PDU has twelve bits, below the four of the flags.
const LENGTH_BITS: u32 = 12;

const LENGTH_MASK: u16 = 0x0fff;

/// The number in the two octets at a place.
pub fn u16_at(octets: &[u8], at: usize) -> u16
    requires { at + 2 ≤ length octets.now }
    ensures { result ≡ number16_at octets.now at }
{
    u16::from_be_bytes([octets[at], octets[at + 1]])
}

/// The number in the four octets at a place.
pub fn u32_at(octets: &[u8], at: usize) -> u32
    requires { at + 4 ≤ length octets.now }
    ensures { result ≡ number32_at octets.now at }
{
    u32::from_be_bytes([octets[at], octets[at + 1], octets[at + 2], octets[at + 3]])
}

/// The flags in the flags-and-length field at a place, from 0 to 15.
pub fn flags_at(octets: &[u8], at: usize) -> u16
    requires { at + 2 ≤ length octets.now }
    ensures { result ≡ flags_of octets.now at }
{
    u16_at(octets, at) >> LENGTH_BITS
}

/// The length in the flags-and-length field at a place, from 0 to 4095 octets.
pub fn length_at(octets: &[u8], at: usize) -> usize
    requires { at + 2 ≤ length octets.now }
    ensures { result ≡ length_of octets.now at }
{
    (u16_at(octets, at) & LENGTH_MASK) as usize
}
