//! Which clauses packets break that can't be read.

use sacn_packets::PacketFault;

/// Whether octets with this fault are no packet of streaming ACN: the root layer's first fields are missing or others.
pub(crate) fn is_foreign(fault: PacketFault) -> bool {
    matches!(
        fault,
        PacketFault::TooShort
            | PacketFault::Preamble
            | PacketFault::Postamble
            | PacketFault::Identifier
    )
}

/// The clauses of E1.31-2018 that a fault breaks: of several layers where each has such a field. None where no clause stands here.
pub(crate) fn clauses_of(fault: PacketFault) -> Option<&'static str> {
    let clauses = match fault {
        PacketFault::Flags | PacketFault::Length => "5.4, 6.1, 7.1, 8.1",
        PacketFault::RootVector => "5.5",
        PacketFault::FramingVector => "6.2.1, 6.3.1, 6.4.1",
        PacketFault::DmpVector => "7.2",
        PacketFault::AddressType => "7.3",
        PacketFault::FirstAddress => "7.4",
        PacketFault::Increment => "7.5",
        PacketFault::ValueCount => "7.6",
        PacketFault::Priority => "6.2.3",
        PacketFault::Universe => "6.2.7",
        PacketFault::DiscoveryVector => "8.2",
        PacketFault::PageRange => "8.3, 8.4",
        PacketFault::TooManyUniverses => "8.5",
        _ => return None,
    };
    Some(clauses)
}
