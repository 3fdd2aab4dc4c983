//! The DMP layer read from octets (E1.31, 7).

ghost use Rattle.std.specs.Prelude.{◌≡◌, ◌≤◌, IfOk, Ok, length, true};
ghost use Rattle.sacn_packets.specs.Results.{map_ok};
ghost use Rattle.sacn_packets.specs.DmpText.{Dmp, IsDmp, dmp_text, dmp_of};
ghost use Rattle.sacn_packets.specs.DmpReading.{checking_dmp, reading_dmp, dmp_at};

use crate::dmp::layout::{
    ADDRESS_TYPE_AT, COUNT_AT, FIRST_ADDRESS_AT, INCREMENT_AT, SLOTS_AT, VALUES_AT, VECTOR_AT,
};
use crate::root::{PDU_FLAGS, PacketFault, flags_at, length_at, u16_at, u32_at};
use crate::universe::FRAME_OCTETS;

/// A DMP layer, lent out of the octets that it was read from.
#[derive(Clone, Copy)]
pub struct DmpView<'a> {
    /// The first property value: the start code of DMX512-A, 0 for levels (7.7).
    pub start: u8,
    /// The other property values: at most 512 slots, from slot 1 on.
    pub slots: &'a [u8],
}

/// VECTOR_DMP_SET_PROPERTY (7.2).
const VECTOR: u8 = 0x02;

/// Relative addresses, and data of a range of octets (7.3).
const ADDRESS_AND_DATA_TYPE: u8 = 0xa1;

/// The start code stands at address 0 (7.4).
const FIRST_ADDRESS: u16 = 0;

/// Each property has one octet (7.5).
const INCREMENT: u16 = 1;

/// The flags of the layer's flags-and-length field, 7, above the twelve bits of its length (7.1).
const FLAGS_FIELD: usize = 0x7000;

/// Vector, address and data type, and first property address, as one number.
const VECTOR_TO_ADDRESS: u32 = 0x02a1_0000;

/// Address increment and property value count, of a count of 0, as one number.
const INCREMENT_TO_COUNT: usize = 0x0001_0000;

/// The DMP layer that all of the octets are.
///
/// Errors: the first of the checks of `reading_dmp` that fails: Length, Flags, DmpVector,
/// AddressType, FirstAddress, Increment or ValueCount.
#[inline(always)]
pub fn read_dmp(octets: &[u8]) -> Result<DmpView<'_>, PacketFault>
    // What is read stands there.
    ensures found { IfOk result
        (λ view. IsDmp (dmp_of view) × (octets.now ≡ dmp_text (dmp_of view))) }
    // What stands there is read.
    ensures only { (d : Dmp) → IsDmp d → octets.now ≡ dmp_text d → map_ok dmp_of result ≡ Ok d }
    // Which fault it is.
    ensures exact { map_ok dmp_of result ≡ reading_dmp octets.now }
{
    checked_dmp(octets)
}

#[inline(always)]
fn checked_dmp(octets: &[u8]) -> Result<DmpView<'_>, PacketFault>
    ensures { map_ok dmp_of result ≡ reading_dmp octets.now }
{
    check_dmp(octets)?;
    Ok(view_of(octets))
}

/// Checks that all of the octets are a DMP layer, for whoever reads its fields where they stand.
///
/// Errors: those of `read_dmp`.
#[inline(always)]
pub fn check_dmp(octets: &[u8]) -> Result<(), PacketFault>
    ensures { result ≡ checking_dmp octets.now }
{
    // What is whole passes by few comparisons. For the others the first check that fails is looked for.
    if is_dmp(octets) {
        return Ok(());
    }
    each_checked(octets)
}

// Whether every check passes: what stands before the values follows from the length alone.
fn is_dmp(octets: &[u8]) -> bool
    ensures { result ≡ true → checking_dmp octets.now ≡ Ok tt }
{
    let len = octets.len();
    if len <= VALUES_AT || len > VALUES_AT + FRAME_OCTETS {
        return false;
    }
    (u16_at(octets, 0) as usize == FLAGS_FIELD + len)
        & (u32_at(octets, VECTOR_AT) == VECTOR_TO_ADDRESS)
        & (u32_at(octets, INCREMENT_AT) as usize == INCREMENT_TO_COUNT + (len - VALUES_AT))
}

// The DMP layer that the octets are.
fn view_of(octets: &[u8]) -> DmpView<'_>
    requires { 11 ≤ length octets.now }
    ensures { dmp_of result ≡ dmp_at octets.now }
{
    DmpView {
        start: octets[VALUES_AT],
        slots: &octets[SLOTS_AT..],
    }
}

// The checks in their order, a row of the table for each.
#[inline(always)]
fn each_checked(octets: &[u8]) -> Result<(), PacketFault>
    ensures { result ≡ checking_dmp octets.now }
{
    if octets.len() < 2 {
        return Err(PacketFault::Length);
    }
    if flags_at(octets, 0) != PDU_FLAGS {
        return Err(PacketFault::Flags);
    }
    if length_at(octets, 0) != octets.len() || octets.len() < VALUES_AT {
        return Err(PacketFault::Length);
    }
    if octets[VECTOR_AT] != VECTOR {
        return Err(PacketFault::DmpVector);
    }
    if octets[ADDRESS_TYPE_AT] != ADDRESS_AND_DATA_TYPE {
        return Err(PacketFault::AddressType);
    }
    if u16_at(octets, FIRST_ADDRESS_AT) != FIRST_ADDRESS {
        return Err(PacketFault::FirstAddress);
    }
    if u16_at(octets, INCREMENT_AT) != INCREMENT {
        return Err(PacketFault::Increment);
    }
    let count = u16_at(octets, COUNT_AT) as usize;
    if count == 0 || count > FRAME_OCTETS || count != octets.len() - VALUES_AT {
        return Err(PacketFault::ValueCount);
    }
    Ok(())
}
