//! The root layer read from octets (E1.31, 5).

ghost use Rattle.std.specs.Prelude.{◌≡◌, ◌+◌, ◌≤◌, IfOk, Ok, length, slice_range, true};
ghost use Rattle.std.specs.Str.{bytes_eq};
ghost use Rattle.sacn_packets.specs.Results.{map_ok};
ghost use Rattle.sacn_packets.specs.RootText.{Root, ReadsRoot, root_of, identifier};
ghost use Rattle.sacn_packets.specs.Octets.{length_of};
ghost use Rattle.sacn_packets.specs.RootReading.{reading_root, root_at};

use crate::root::fault::PacketFault;
use crate::root::layout::{
    BODY_AT, CID_AT, IDENTIFIER_AT, PDU_AT, POSTAMBLE_SIZE_AT, PREAMBLE_SIZE_AT, VECTOR_AT,
};
use crate::root::octets::{PDU_FLAGS, flags_at, length_at, u16_at, u32_at};

/// The root vector of a data packet, VECTOR_ROOT_E131_DATA (5.5).
pub const DATA_VECTOR: u32 = 4;

/// The root vector of a synchronization or universe discovery packet, VECTOR_ROOT_E131_EXTENDED (5.5).
pub const EXTENDED_VECTOR: u32 = 8;

/// A root layer, lent out of the octets that it was read from.
#[derive(Clone, Copy)]
pub struct RootView<'a> {
    /// 4 for a data packet, 8 for an extended one (5.5).
    pub vector: u32,
    /// The sender's component identifier, a UUID (5.6).
    pub cid: [u8; 16],
    /// What the layer carries: the framing PDU, to the root PDU's end.
    pub body: &'a [u8],
}

/// The preamble of UDP has this many octets (5.1).
const PREAMBLE_SIZE: u16 = 0x0010;

/// There is no post-amble (5.2).
const POSTAMBLE_SIZE: u16 = 0;

/// Preamble and post-amble as one number.
const FRONT: u32 = 0x0010_0000;

/// The ACN packet identifier, "ASC-E1.17" and three zeros (5.3), as three numbers of four octets.
const IDENTIFIER_FRONT: u32 = 0x4153_432d;

const IDENTIFIER_MIDDLE: u32 = 0x4531_2e31;

const IDENTIFIER_BACK: u32 = 0x3700_0000;

/// The octets of the PDU before its body: flags and length, vector, CID.
const HEAD: usize = BODY_AT - PDU_AT;

/// The root layer at the front of the octets. What follows it is free.
///
/// Errors: the first of the checks of `reading_root` that fails, from TooShort to RootVector.
#[inline(always)]
pub fn read_root(octets: &[u8]) -> Result<RootView<'_>, PacketFault>
    // What is read stands there.
    ensures found { IfOk result (λ view. ReadsRoot octets.now (root_of view)) }
    // What stands there is read.
    ensures only { (r : Root) → ReadsRoot octets.now r → map_ok root_of result ≡ Ok r }
    // Which fault it is.
    ensures exact { map_ok root_of result ≡ reading_root octets.now }
{
    checked_root(octets)
}

// What is whole is read by few comparisons. For the others the first check that fails is looked for.
#[inline(always)]
fn checked_root(octets: &[u8]) -> Result<RootView<'_>, PacketFault>
    ensures { map_ok root_of result ≡ reading_root octets.now }
{
    if is_root(octets) {
        return Ok(view_of(octets));
    }
    each_checked(octets)
}

// Whether every check passes: those of neighbouring octets are one comparison.
fn is_root(octets: &[u8]) -> bool
    ensures there { result ≡ true → reading_root octets.now ≡ Ok (root_at octets.now) }
    ensures least { result ≡ true → 22 ≤ length_of octets.now 16 }
    ensures whole { result ≡ true → 16 + length_of octets.now 16 ≤ length octets.now }
{
    if octets.len() < BODY_AT
        || u32_at(octets, PREAMBLE_SIZE_AT) != FRONT
        || !has_identifier(octets)
    {
        return false;
    }
    let length = length_at(octets, PDU_AT);
    if flags_at(octets, PDU_AT) != PDU_FLAGS || length < HEAD || octets.len() < PDU_AT + length {
        return false;
    }
    let vector = u32_at(octets, VECTOR_AT);
    (vector == DATA_VECTOR) | (vector == EXTENDED_VECTOR)
}

// The root layer that stands there.
fn view_of(octets: &[u8]) -> RootView<'_>
    requires least { 22 ≤ length_of octets.now 16 }
    requires whole { 16 + length_of octets.now 16 ≤ length octets.now }
    ensures { root_of result ≡ root_at octets.now }
{
    let mut cid = [0; 16];
    cid.copy_from_slice(&octets[CID_AT..BODY_AT]);
    RootView {
        vector: u32_at(octets, VECTOR_AT),
        cid,
        body: &octets[BODY_AT..PDU_AT + length_at(octets, PDU_AT)],
    }
}

// The checks in their order, a row of the table for each.
#[inline(always)]
fn each_checked(octets: &[u8]) -> Result<RootView<'_>, PacketFault>
    ensures { map_ok root_of result ≡ reading_root octets.now }
{
    if octets.len() < 2 {
        return Err(PacketFault::TooShort);
    }
    if u16_at(octets, PREAMBLE_SIZE_AT) != PREAMBLE_SIZE {
        return Err(PacketFault::Preamble);
    }
    if octets.len() < 4 {
        return Err(PacketFault::TooShort);
    }
    if u16_at(octets, POSTAMBLE_SIZE_AT) != POSTAMBLE_SIZE {
        return Err(PacketFault::Postamble);
    }
    if octets.len() < PDU_AT {
        return Err(PacketFault::TooShort);
    }
    if !has_identifier(octets) {
        return Err(PacketFault::Identifier);
    }
    if octets.len() < PDU_AT + 2 {
        return Err(PacketFault::TooShort);
    }
    if flags_at(octets, PDU_AT) != PDU_FLAGS {
        return Err(PacketFault::Flags);
    }
    let length = length_at(octets, PDU_AT);
    if length < HEAD {
        return Err(PacketFault::Length);
    }
    if octets.len() < PDU_AT + length {
        return Err(PacketFault::TooShort);
    }
    let vector = u32_at(octets, VECTOR_AT);
    if vector != DATA_VECTOR && vector != EXTENDED_VECTOR {
        return Err(PacketFault::RootVector);
    }
    Ok(view_of(octets))
}

// Whether the ACN packet identifier stands in octets 4 to 15. Numbers compare without a loop.
fn has_identifier(octets: &[u8]) -> bool
    requires { 16 ≤ length octets.now }
    ensures { result ≡ bytes_eq (slice_range octets.now 4 16) identifier }
{
    (u32_at(octets, IDENTIFIER_AT) == IDENTIFIER_FRONT)
        & (u32_at(octets, IDENTIFIER_AT + 4) == IDENTIFIER_MIDDLE)
        & (u32_at(octets, IDENTIFIER_AT + 8) == IDENTIFIER_BACK)
}
