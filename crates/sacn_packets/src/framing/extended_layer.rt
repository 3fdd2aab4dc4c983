//! The framing layer of an extended packet, read from octets (E1.31, 6.3, 6.4 and 8).

ghost use Rattle.std.specs.Prelude.{◌≡◌};
ghost use Rattle.sacn_packets.specs.PageReading.{reading_extended_vector, checking_page};

use crate::framing::layout::{
    DISCOVERY_AT, LAST_PAGE_AT, LIST_VECTOR_AT, PAGE_AT, UNIVERSES_AT, VECTOR_AT,
};
use crate::framing::page::PAGE_NUMBERS;
use crate::root::{PDU_FLAGS, PacketFault, flags_at, length_at, u32_at};

/// VECTOR_E131_EXTENDED_SYNCHRONIZATION (6.3.1).
pub const SYNC_VECTOR: u32 = 1;

/// VECTOR_E131_EXTENDED_DISCOVERY (6.4.1).
pub const DISCOVERY_VECTOR: u32 = 2;

/// VECTOR_UNIVERSE_DISCOVERY_UNIVERSE_LIST (8.2).
pub const LIST_VECTOR: u32 = 1;

/// Flags and length, and the vector: the least framing layer.
const MIN_LAYER: usize = 6;

/// A page's framing layer with 512 universe numbers of two octets.
const MAX_PAGE_LAYER: usize = UNIVERSES_AT + 2 * PAGE_NUMBERS;

/// The framing vector of an extended packet.
pub fn read_extended_vector(octets: &[u8]) -> Result<u32, PacketFault>
    ensures { result ≡ reading_extended_vector octets.now }
{
    if octets.len() < 2 {
        return Err(PacketFault::Length);
    }
    if flags_at(octets, 0) != PDU_FLAGS {
        return Err(PacketFault::Flags);
    }
    if length_at(octets, 0) != octets.len() || octets.len() < MIN_LAYER {
        return Err(PacketFault::Length);
    }
    let vector = u32_at(octets, VECTOR_AT);
    if vector != SYNC_VECTOR && vector != DISCOVERY_VECTOR {
        return Err(PacketFault::FramingVector);
    }
    Ok(vector)
}

/// Checks that all of the octets, a framing layer of framing vector 2, are the layers of a page.
///
/// Errors: the first of the checks of `reading_page` that fails: Length, Flags, DiscoveryVector,
/// PageRange or TooManyUniverses.
pub fn check_page(octets: &[u8]) -> Result<(), PacketFault>
    ensures { result ≡ checking_page octets.now }
{
    // The checks in their order, a row of the table for each. An odd length is refused by itself.
    if octets.len() < UNIVERSES_AT {
        return Err(PacketFault::Length);
    }
    if flags_at(octets, DISCOVERY_AT) != PDU_FLAGS {
        return Err(PacketFault::Flags);
    }
    let length = length_at(octets, DISCOVERY_AT);
    if length + DISCOVERY_AT != octets.len() || length % 2 != 0 {
        return Err(PacketFault::Length);
    }
    if u32_at(octets, LIST_VECTOR_AT) != LIST_VECTOR {
        return Err(PacketFault::DiscoveryVector);
    }
    let page = octets[PAGE_AT];
    let last = octets[LAST_PAGE_AT];
    if page > last {
        return Err(PacketFault::PageRange);
    }
    if octets.len() > MAX_PAGE_LAYER {
        return Err(PacketFault::TooManyUniverses);
    }
    Ok(())
}
