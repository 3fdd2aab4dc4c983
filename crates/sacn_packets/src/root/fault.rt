//! Why octets are no packet.
ghost use Rattle.std.specs.Prelude.{◌≡◌};

use thiserror::Error;

/// How many numbers `PacketFault::number` may give, with 0, which is no fault's.
pub const FAULT_NUMBERS: usize = 19;

/// The first check of a datagram's octets that fails.
///
/// Each fault has a number of its own, from 1 to 18, which `number` gives. The checks are made in
/// the order of the layers: root (E1.31, 5), framing (6), DMP (7) or universe
/// discovery (8).
#[derive(Clone, Copy, Debug, PartialEq, Eq, Error)]
pub enum PacketFault {
    /// The octets end before a field of the root layer, or before the end of the root PDU.
    #[error("the octets end too early")]
    TooShort = 1,
    /// The preamble size isn't 0x0010 (5.1).
    #[error("the preamble size is wrong")]
    Preamble = 2,
    /// The post-amble size isn't 0 (5.2).
    #[error("the post-amble size is wrong")]
    Postamble = 3,
    /// The ACN packet identifier isn't `ASC-E1.17` and three zeros (5.3).
    #[error("the packet identifier is wrong")]
    Identifier = 4,
    /// The high four bits of a flags-and-length field aren't 7 (5.4, 6.1, 7.1, 8.1).
    #[error("the flags of a length field are wrong")]
    Flags = 5,
    /// A layer's length doesn't agree with the octets that hold it, or is too small for its fields.
    #[error("a length is wrong")]
    Length = 6,
    /// The root vector is neither 4 (data) nor 8 (extended) (5.5).
    #[error("the root vector is unknown")]
    RootVector = 7,
    /// The framing vector isn't 2 in a data packet, or is neither 1 nor 2 in an extended one (6.2.1, 6.3.1, 6.4.1).
    #[error("the framing vector is unknown")]
    FramingVector = 8,
    /// The DMP vector isn't 2 (7.2).
    #[error("the DMP vector is wrong")]
    DmpVector = 9,
    /// The address and data type isn't 0xa1 (7.3).
    #[error("the address and data type is wrong")]
    AddressType = 10,
    /// The first property address isn't 0 (7.4).
    #[error("the first property address is wrong")]
    FirstAddress = 11,
    /// The address increment isn't 1 (7.5).
    #[error("the address increment is wrong")]
    Increment = 12,
    /// The property value count isn't 1 to 513, or isn't that of the values that are there (7.6).
    #[error("the property value count is wrong")]
    ValueCount = 13,
    /// The priority is above 200 (6.2.3).
    #[error("the priority is above 200")]
    Priority = 14,
    /// The universe isn't 1 to 63999 (6.2.7).
    #[error("the universe is out of range")]
    Universe = 15,
    /// The universe discovery vector isn't 1 (8.2).
    #[error("the discovery vector is wrong")]
    DiscoveryVector = 16,
    /// The page is above the last page (8.3, 8.4).
    #[error("the page is above the last page")]
    PageRange = 17,
    /// The page has more than 512 universe numbers (8.5).
    #[error("the page has too many universes")]
    TooManyUniverses = 18,
}

impl PacketFault {
    ghost use Rattle.sacn_packets.specs.PacketFaults.{fault_number};

    /// The fault's number, from 1 to 18.
    pub fn number(self) -> u8
        ensures { result ≡ fault_number self }
    {
        self as u8
    }
}
