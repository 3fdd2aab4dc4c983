//! Why octets are no packet, in words.

ghost use Rattle.std.specs.Prelude.{◌≡◌};
ghost use Rattle.sacn_tell.specs.Refusals.{fault_name, fault_words};

use sacn_packets::PacketFault;

/// What is said of a fault: the text of its `Display`.
pub fn fault_words(fault: PacketFault) -> &'static str
    ensures { result.now ≡ fault_words fault }
{
    match fault {
        PacketFault::TooShort => "the octets end too early",
        PacketFault::Preamble => "the preamble size is wrong",
        PacketFault::Postamble => "the post-amble size is wrong",
        PacketFault::Identifier => "the packet identifier is wrong",
        PacketFault::Flags => "the flags of a length field are wrong",
        PacketFault::Length => "a length is wrong",
        PacketFault::RootVector => "the root vector is unknown",
        PacketFault::FramingVector => "the framing vector is unknown",
        PacketFault::DmpVector => "the DMP vector is wrong",
        PacketFault::AddressType => "the address and data type is wrong",
        PacketFault::FirstAddress => "the first property address is wrong",
        PacketFault::Increment => "the address increment is wrong",
        PacketFault::ValueCount => "the property value count is wrong",
        PacketFault::Priority => "the priority is above 200",
        PacketFault::Universe => "the universe is out of range",
        PacketFault::DiscoveryVector => "the discovery vector is wrong",
        PacketFault::PageRange => "the page is above the last page",
        PacketFault::TooManyUniverses => "the page has too many universes",
    }
}

/// A fault's name: the text of its `Debug`.
pub fn fault_name(fault: PacketFault) -> &'static str
    ensures { result.now ≡ fault_name fault }
{
    match fault {
        PacketFault::TooShort => "TooShort",
        PacketFault::Preamble => "Preamble",
        PacketFault::Postamble => "Postamble",
        PacketFault::Identifier => "Identifier",
        PacketFault::Flags => "Flags",
        PacketFault::Length => "Length",
        PacketFault::RootVector => "RootVector",
        PacketFault::FramingVector => "FramingVector",
        PacketFault::DmpVector => "DmpVector",
        PacketFault::AddressType => "AddressType",
        PacketFault::FirstAddress => "FirstAddress",
        PacketFault::Increment => "Increment",
        PacketFault::ValueCount => "ValueCount",
        PacketFault::Priority => "Priority",
        PacketFault::Universe => "Universe",
        PacketFault::DiscoveryVector => "DiscoveryVector",
        PacketFault::PageRange => "PageRange",
        PacketFault::TooManyUniverses => "TooManyUniverses",
    }
}
