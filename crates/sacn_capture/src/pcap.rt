//! The headers of a pcap file and of its records.

ghost use Rattle.std.specs.Prelude.{◌≡◌, ◌≤◌, length};
ghost use Rattle.sacn_capture.specs.Pcap.{fraction_of, header_at, stamp_of, link_number, reading_header, reading_record, record_milliseconds};

use crate::faults::FaultKind;
use crate::links::{LinkType, link_type};
use crate::octets::ByteOrder;

/// The octets of a file's header, and those of a record's.
pub const HEADER: usize = 24;

pub const RECORD_HEAD: usize = 16;

/// The first four octets of a file whose moments are of micro- or nanoseconds.
const MICRO_MAGIC: u32 = 0xa1b2_c3d4;

const NANO_MAGIC: u32 = 0xa1b2_3c4d;

/// The version's first number.
const MAJOR: u16 = 2;

/// The longest frame that a recording may have, as the usual tools have it.
pub const LONGEST: u32 = 262_144;

/// What a record's moment counts beside its seconds.
#[derive(Clone, Copy)]
pub enum Fraction {
    Micro,
    Nano,
}

/// How a file's numbers are written.
#[derive(Clone, Copy)]
pub struct Stamp {
    pub order: ByteOrder,
    pub fraction: Fraction,
}

/// A file's header.
#[derive(Clone, Copy)]
pub struct PcapHeader {
    pub stamp: Stamp,
    /// The link of all its frames.
    pub link: LinkType,
}

/// What stands before a frame.
#[derive(Clone, Copy)]
pub struct RecordHead {
    /// When the frame was taken, in milliseconds since 1970.
    pub moment: u64,
    /// The octets of the frame that the file has, at most 262,144.
    pub captured: u32,
}

/// The header of a pcap file.
///
/// Errors, the first that holds: NotACapture, CutShort (fewer than 24 octets), Version, LinkType.
pub fn pcap_header(octets: &[u8]) -> Result<PcapHeader, FaultKind>
    ensures { result ≡ reading_header octets.now }
{
    if octets.len() < 4 {
        return Err(FaultKind::NotACapture);
    }
    let stamp = stamp_in(octets).ok_or(FaultKind::NotACapture)?;
    header_in(stamp, octets)
}

/// The header of a pcap file whose first number is known.
///
/// Errors, the first that holds: CutShort (fewer than 24 octets), Version, LinkType.
pub fn header_in(stamp: Stamp, octets: &[u8]) -> Result<PcapHeader, FaultKind>
    ensures { result ≡ header_at stamp octets.now }
{
    if octets.len() < HEADER {
        return Err(FaultKind::CutShort);
    }
    if stamp.order.u16_at(octets, 4) != MAJOR {
        return Err(FaultKind::Version);
    }
    let link = link_type(link_number_in(stamp.order, octets)).ok_or(FaultKind::LinkType)?;
    Ok(PcapHeader { stamp, link })
}

/// The head of a record of a pcap file.
///
/// Errors, the first that holds: CutShort (fewer than 16 octets), Length (a frame above 262,144 octets).
pub fn pcap_record_head(stamp: Stamp, octets: &[u8]) -> Result<RecordHead, FaultKind>
    ensures { result ≡ reading_record stamp octets.now }
{
    if octets.len() < RECORD_HEAD {
        return Err(FaultKind::CutShort);
    }
    let captured = stamp.order.u32_at(octets, 8);
    if captured > LONGEST {
        return Err(FaultKind::Length);
    }
    let seconds = stamp.order.u32_at(octets, 0);
    let fraction = stamp.order.u32_at(octets, 4);
    Ok(RecordHead {
        moment: record_moment(stamp.fraction, seconds, fraction),
        captured,
    })
}

// Whole milliseconds of seconds and a fraction, which may be more than a second.
fn record_moment(kind: Fraction, seconds: u32, fraction: u32) -> u64
    ensures { result ≡ record_milliseconds kind seconds fraction }
{
    let part = match kind {
        Fraction::Micro => fraction / 1000,
        Fraction::Nano => fraction / 1_000_000,
    };
    u64::from(seconds) * 1000 + u64::from(part)
}

/// How the numbers are written, by the first four octets.
pub fn stamp_in(octets: &[u8]) -> Option<Stamp>
    requires { 4 ≤ length octets.now }
    ensures { result ≡ stamp_of octets.now }
{
    match fraction_in(ByteOrder::Big.u32_at(octets, 0)) {
        Some(fraction) => Some(Stamp {
            order: ByteOrder::Big,
            fraction,
        }),
        None => match fraction_in(ByteOrder::Little.u32_at(octets, 0)) {
            Some(fraction) => Some(Stamp {
                order: ByteOrder::Little,
                fraction,
            }),
            None => None,
        },
    }
}

fn fraction_in(magic: u32) -> Option<Fraction>
    ensures { result ≡ fraction_of magic }
{
    match magic {
        MICRO_MAGIC => Some(Fraction::Micro),
        NANO_MAGIC => Some(Fraction::Nano),
        _ => None,
    }
}

// The low half of the link's field: the other has the length of a check sequence.
fn link_number_in(order: ByteOrder, octets: &[u8]) -> u16
    requires { 24 ≤ length octets.now }
    ensures { result ≡ link_number order octets.now }
{
    (order.u32_at(octets, 20) & 0xffff) as u16
}
