//! The blocks of a pcapng file: section header, interface description, enhanced and simple packet.

ghost use Rattle.std.specs.Prelude.{◌≡◌, ◌+◌, ◌<◌, ◌≤◌, ◌↔◌, length, drop, option_map, IfOk, IfNone, IsTrue};
ghost use Rattle.sacn_capture.specs.Check.{map_ok};
ghost use Rattle.sacn_capture.specs.Octets.{number32};
ghost use Rattle.sacn_capture.specs.declared.octets.ByteOrder.TheVariants.{Big};
ghost use Rattle.sacn_capture.specs.Pcapng.{option_answer, option_size, IsOption, section_type, section_at, units_of_options, kept_of, kind_of, order_of, reading_block, reading_section, option_value, resolution_by, shift_by, shift_of_options, interface_of, reading_interface, reading_enhanced, reading_simple};

use crate::clock::{Shift, shift_of, units_in};
use crate::faults::FaultKind;
use crate::interface::Described;
use crate::links::link_type;
use crate::octets::ByteOrder;

/// The octets of a block's type and length.
pub const BLOCK_HEAD: usize = 8;

/// A block's type, its length, and its length again behind the body.
pub const BLOCK_FRAME: u32 = 12;

/// A section header up to the version.
pub const SECTION_HEAD: usize = 16;

/// What stands before the frame in an enhanced and in a simple packet block, after the block's head.
pub const ENHANCED_HEAD: usize = 20;

pub const SIMPLE_HEAD: usize = 4;

const SECTION: u32 = 0x0a0d_0d0a;

const INTERFACE: u32 = 1;

const SIMPLE: u32 = 3;

const ENHANCED: u32 = 6;

const ORDER_MAGIC: u32 = 0x1a2b_3c4d;

/// The version's first number.
const MAJOR: u16 = 1;

/// A section header without options.
const MIN_SECTION: u32 = 28;

/// The options of an interface that are looked at, by their codes.
const OPTION_END: u16 = 0;

const OPTION_RESOLUTION: u16 = 9;

const OPTION_SHIFT: u16 = 14;

/// An option's code and length.
const OPTION_HEAD: usize = 4;

/// An interface without a resolution of its own counts microseconds: 10^6 ticks a second.
const MICROSECONDS: u8 = 6;

/// What a block is, by its type.
#[derive(Clone, Copy)]
pub enum BlockKind {
    /// An interface description (1).
    Interface,
    /// A simple packet (3).
    Simple,
    /// An enhanced packet (6).
    Enhanced,
    /// Any other, which is skipped.
    Other,
}

/// What stands before a block's body.
#[derive(Clone, Copy)]
pub struct BlockHead {
    pub kind: BlockKind,
    /// The octets of the whole block: at least 12, in fours.
    pub length: u32,
}

/// The front of a section header.
#[derive(Clone, Copy)]
pub struct Section {
    /// The order of the section's numbers.
    pub order: ByteOrder,
    /// The octets of the whole block: at least 28, in fours.
    pub length: u32,
}

/// What stands before the frame in an enhanced packet block.
#[derive(Clone, Copy)]
pub struct EnhancedHead {
    /// The interface that took the frame, counted from 0 in its section.
    pub interface: u32,
    /// When, in ticks of that interface since 1970.
    pub ticks: u64,
    /// The octets of the frame that the block has.
    pub captured: u32,
}

/// Whether four octets begin a section header. Its type reads the same in either order.
pub fn is_section(octets: &[u8]) -> bool
    requires { 4 ≤ length octets.now }
    ensures { IsTrue result ↔ (number32 Big octets.now 0 ≡ section_type) }
{
    ByteOrder::Big.u32_at(octets, 0) == SECTION
}

/// The head of a block that isn't a section header.
///
/// Errors, the first that holds: CutShort (fewer than 8 octets), Length (below 12, or not in fours).
pub fn pcapng_block_head(order: ByteOrder, octets: &[u8]) -> Result<BlockHead, FaultKind>
    ensures head { result ≡ reading_block order octets.now }
    ensures least { IfOk result (λ head. 12 ≤ head.length) }
{
    if octets.len() < BLOCK_HEAD {
        return Err(FaultKind::CutShort);
    }
    let length = order.u32_at(octets, 4);
    if length < BLOCK_FRAME {
        return Err(FaultKind::Length);
    }
    if length % 4 != 0 {
        return Err(FaultKind::Length);
    }
    Ok(BlockHead {
        kind: kind_in(order.u32_at(octets, 0)),
        length,
    })
}

/// The front of a section header.
///
/// Errors, the first that holds: NotACapture (no section header), CutShort (fewer than 16 octets), NotACapture (no
/// byte order), Version, Length (below 28, or not in fours).
pub fn section_in(octets: &[u8]) -> Result<Section, FaultKind>
    ensures section { result ≡ reading_section octets.now }
    ensures least { IfOk result (λ section. 28 ≤ section.length) }
{
    if octets.len() < 4 {
        return Err(FaultKind::NotACapture);
    }
    if ByteOrder::Big.u32_at(octets, 0) != SECTION {
        return Err(FaultKind::NotACapture);
    }
    if octets.len() < SECTION_HEAD {
        return Err(FaultKind::CutShort);
    }
    let order = order_in(octets).ok_or(FaultKind::NotACapture)?;
    checked_section(order, octets)
}

// What is left to check once the order is known.
fn checked_section(order: ByteOrder, octets: &[u8]) -> Result<Section, FaultKind>
    requires { 16 ≤ length octets.now }
    ensures section { result ≡ section_at order octets.now }
    ensures least { IfOk result (λ section. 28 ≤ section.length) }
{
    if order.u16_at(octets, 12) != MAJOR {
        return Err(FaultKind::Version);
    }
    let length = order.u32_at(octets, 4);
    if length < MIN_SECTION {
        return Err(FaultKind::Length);
    }
    if length % 4 != 0 {
        return Err(FaultKind::Length);
    }
    Ok(Section { order, length })
}

/// The interface that a block's body describes.
///
/// Errors, the first that holds: Length (fewer than 8 octets, or an option that runs over the end), Resolution.
pub fn interface_in(order: ByteOrder, body: &[u8]) -> Result<Described, FaultKind>
    ensures { map_ok interface_of result ≡ reading_interface order body.now }
{
    if body.len() < 8 {
        return Err(FaultKind::Length);
    }
    let units = units_among(order, &body[8..])?;
    let shift = shift_among(order, &body[8..])?;
    Ok(Described {
        link: link_type(order.u16_at(body, 0)),
        longest: order.u32_at(body, 4),
        units,
        shift,
    })
}

/// The head of a frame in an enhanced packet block of `length` octets, from what follows the block's head.
///
/// Errors, the first that holds: Length (a block too short for the head), CutShort (fewer than 20 octets), Length (a
/// frame that the block can't hold).
pub fn enhanced_in(order: ByteOrder, length: u32, octets: &[u8]) -> Result<EnhancedHead, FaultKind>
    ensures head { result ≡ reading_enhanced order length octets.now }
    ensures fits { IfOk result (λ head. head.captured + 32 ≤ length) }
{
    if length < 32 {
        return Err(FaultKind::Length);
    }
    if octets.len() < ENHANCED_HEAD {
        return Err(FaultKind::CutShort);
    }
    let captured = order.u32_at(octets, 12);
    if captured > length - 32 {
        return Err(FaultKind::Length);
    }
    let high = u64::from(order.u32_at(octets, 4));
    let low = u64::from(order.u32_at(octets, 8));
    Ok(EnhancedHead {
        interface: order.u32_at(octets, 0),
        ticks: high * 0x1_0000_0000 + low,
        captured,
    })
}

/// The octets of the frame in a simple packet block of `length` octets, from what follows the block's head. `longest`
/// is the most that the section's first interface keeps of a frame, 0 for all.
///
/// Errors, the first that holds: Length (a block too short for the head), CutShort (fewer than 4 octets), Length (a
/// frame that the block can't hold).
pub fn simple_in(
    order: ByteOrder,
    length: u32,
    longest: u32,
    octets: &[u8],
) -> Result<u32, FaultKind>
    ensures captured { result ≡ reading_simple order length longest octets.now }
    ensures fits { IfOk result (λ captured. captured + 16 ≤ length) }
{
    if length < 16 {
        return Err(FaultKind::Length);
    }
    if octets.len() < SIMPLE_HEAD {
        return Err(FaultKind::CutShort);
    }
    let captured = captured_length(longest, order.u32_at(octets, 0));
    if captured > length - 16 {
        return Err(FaultKind::Length);
    }
    Ok(captured)
}

// What is kept of a frame.
fn captured_length(longest: u32, original: u32) -> u32
    ensures { result ≡ kept_of longest original }
{
    if longest == 0 {
        return original;
    }
    original.min(longest)
}

fn units_among(order: ByteOrder, options: &[u8]) -> Result<u64, FaultKind>
    ensures units { result ≡ units_of_options order options.now }
    ensures some { IfOk result (λ units. 0 < units) }
{
    let value = option_value(order, OPTION_RESOLUTION, options)?;
    units_in(resolution_by(value)?)
}

fn shift_among(order: ByteOrder, options: &[u8]) -> Result<Option<Shift>, FaultKind>
    ensures { result ≡ shift_of_options order options.now }
{
    let value = option_value(order, OPTION_SHIFT, options)?;
    shift_by(order, value)
}

// The resolution that an option gives, or that of microseconds.
fn resolution_by(value: Option<&[u8]>) -> Result<u8, FaultKind>
    ensures { result ≡ resolution_by (option_map (λ octets. octets.now) value.entry) }
{
    let Some(octets) = value else {
        return Ok(MICROSECONDS);
    };
    if octets.len() != 1 {
        return Err(FaultKind::Length);
    }
    Ok(octets[0])
}

// The shift that an option gives.
fn shift_by(order: ByteOrder, value: Option<&[u8]>) -> Result<Option<Shift>, FaultKind>
    ensures { result ≡ shift_by order (option_map (λ octets. octets.now) value.entry) }
{
    let Some(octets) = value else {
        return Ok(None);
    };
    if octets.len() != 8 {
        return Err(FaultKind::Length);
    }
    Ok(Some(shift_of(order.u64_at(octets, 0))))
}

// The value of the first option of a code.
fn option_value(order: ByteOrder, code: u16, options: &[u8]) -> Result<Option<&[u8]>, FaultKind>
    ensures { map_ok (λ found. option_map (λ octets. octets.now) found) result
        ≡ option_value code order options.now }
{
    let mut rest = options;
    for turn in 0..options.len() {
        match answer_of_option(order, code, rest) {
            Some(found) => return found,
            None => rest = after_option(order, rest),
        }
    }
    Ok(None)
}

// What the option at the front answers where a code is looked for; none where the next is to be asked.
fn answer_of_option(
    order: ByteOrder,
    code: u16,
    options: &[u8],
) -> Option<Result<Option<&[u8]>, FaultKind>>
    ensures answer { option_map (λ found. map_ok (λ value. option_map (λ octets. octets.now) value) found) result
        ≡ option_answer code order options.now }
    ensures whole { IfNone result (IsOption order options.now) }
{
    if options.len() < OPTION_HEAD {
        return Some(Ok(None));
    }
    let found = order.u16_at(options, 0);
    if found == OPTION_END {
        return Some(Ok(None));
    }
    if options.len() < size_of_option(order, options) {
        return Some(Err(FaultKind::Length));
    }
    if found != code {
        return None;
    }
    let len = order.u16_at(options, 2) as usize;
    Some(Ok(Some(&options[OPTION_HEAD..OPTION_HEAD + len])))
}

// The options behind the first.
fn after_option(order: ByteOrder, options: &[u8]) -> &[u8]
    requires { IsOption order options.now }
    ensures { result.now ≡ drop (option_size order options.now) options.now }
{
    &options[size_of_option(order, options)..]
}

// The octets of the option at the front.
fn size_of_option(order: ByteOrder, options: &[u8]) -> usize
    requires { 4 ≤ length options.now }
    ensures { result ≡ option_size order options.now }
{
    OPTION_HEAD + (order.u16_at(options, 2) as usize + 3) / 4 * 4
}

fn kind_in(number: u32) -> BlockKind
    ensures { result ≡ kind_of number }
{
    match number {
        INTERFACE => BlockKind::Interface,
        SIMPLE => BlockKind::Simple,
        ENHANCED => BlockKind::Enhanced,
        _ => BlockKind::Other,
    }
}

// The order in which the section's own number is known.
fn order_in(octets: &[u8]) -> Option<ByteOrder>
    requires { 12 ≤ length octets.now }
    ensures { result ≡ order_of octets.now }
{
    if ByteOrder::Big.u32_at(octets, 8) == ORDER_MAGIC {
        return Some(ByteOrder::Big);
    }
    if ByteOrder::Little.u32_at(octets, 8) == ORDER_MAGIC {
        return Some(ByteOrder::Little);
    }
    None
}
