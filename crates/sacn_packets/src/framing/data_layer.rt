//! The framing layer of a data packet, read from octets (E1.31, 6.1 and 6.2).

ghost use Rattle.std.specs.Prelude.{◌≡◌, ◌↔◌, IsTrue, Err};
ghost use Rattle.sacn_packets.specs.Results.{map_ok};
ghost use Rattle.sacn_packets.specs.FramingReading.{reading_body, IsHead};

use crate::framing::layout::{DMP_AT, PRIORITY_AT, UNIVERSE_AT, VECTOR_AT};
use crate::root::{PDU_FLAGS, PacketFault, flags_at, length_at, u16_at, u32_at};
use crate::universe::{MAX_PRIORITY, MAX_UNIVERSE, MIN_UNIVERSE};

/// VECTOR_E131_DATA_PACKET (6.2.1).
pub const DATA_PACKET_VECTOR: u32 = 2;

/// The flags of the layer's flags-and-length field, 7, above the twelve bits of its length (6.1).
const FLAGS_FIELD: usize = 0x7000;

/// The most octets that a length of twelve bits counts.
const MAX_LENGTH: usize = 0x0fff;

/// The body of the framing layer that all of the octets are: a DMP layer.
///
/// Errors: the first of the checks of `reading_framing` that fails: Length, Flags, FramingVector,
/// Priority or Universe.
pub fn framing_body(octets: &[u8]) -> Result<&[u8], PacketFault>
    ensures { map_ok (λ body. body.now) result ≡ reading_body octets.now }
{
    // The checks in their order, those of the head together.
    if !has_head(octets) {
        return Err(head_fault(octets));
    }
    let priority = octets[PRIORITY_AT];
    if priority > MAX_PRIORITY {
        return Err(PacketFault::Priority);
    }
    let universe = u16_at(octets, UNIVERSE_AT);
    if universe < MIN_UNIVERSE || universe > MAX_UNIVERSE {
        return Err(PacketFault::Universe);
    }
    Ok(&octets[DMP_AT..])
}

// Whether the checks before that of the priority pass: of the flags, the length and the vector.
fn has_head(octets: &[u8]) -> bool
    ensures { IsTrue result ↔ IsHead octets.now }
{
    let len = octets.len();
    if len < DMP_AT || len > MAX_LENGTH {
        return false;
    }
    (u16_at(octets, 0) as usize == FLAGS_FIELD + len)
        & (u32_at(octets, VECTOR_AT) == DATA_PACKET_VECTOR)
}

// The first of those checks that fails, where one does. Out of line, since few packets come here.
#[inline(never)]
fn head_fault(octets: &[u8]) -> PacketFault
    requires { IsHead octets.now → ⊥ }
    ensures { Err result ≡ reading_body octets.now }
{
    if octets.len() < 2 {
        return PacketFault::Length;
    }
    if flags_at(octets, 0) != PDU_FLAGS {
        return PacketFault::Flags;
    }
    if length_at(octets, 0) != octets.len() {
        return PacketFault::Length;
    }
    if octets.len() < DMP_AT {
        return PacketFault::Length;
    }
    PacketFault::FramingVector
}
