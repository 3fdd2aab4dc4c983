//! The headers and block ends of a file, read from its reader.

ghost use Rattle.std.specs.Prelude.{◌≡◌, ◌-◌, ◌≤◌, ◌++◌, length, take};
ghost use Rattle.sacn_capture.specs.Check.{map_ok};
ghost use Rattle.sacn_capture.specs.Files.{octets as so_many, gives, ◌▷◌};
ghost use Rattle.sacn_capture.specs.Inputs.{ReadsInput};
ghost use Rattle.sacn_capture.specs.Recordings.{opening, opening_behind, pcap_behind, header_behind, first_octets, section_behind, closed, skipped};

use crate::faults::FaultKind;
use crate::input::Input;
use crate::octets::ByteOrder;
use crate::pcap::{HEADER, PcapHeader, Stamp, header_in, stamp_in};
use crate::pcapng::{BLOCK_HEAD, SECTION_HEAD, Section, is_section, section_in};
use std::io::BufRead;

/// How the file is written.
#[derive(Clone, Copy)]
pub enum Format {
    Pcap(PcapHeader),
    Pcapng(ByteOrder),
}

/// The first header, which says how the file is written.
pub fn first_header<R: BufRead>(input: &mut Input<R>) -> Result<Format, FaultKind>
    ensures { ReadsInput R.Read.remaining opening input.old input.new result }
{
    let front = front_of(input)?;
    by_front(input, front)
}

// The first header, whose first octets were read.
fn by_front<R: BufRead>(input: &mut Input<R>, front: [u8; BLOCK_HEAD]) -> Result<Format, FaultKind>
    ensures { ReadsInput R.Read.remaining (opening_behind front) input.old input.new result }
{
    if is_section(&front) {
        return Ok(Format::Pcapng(section(input, front)?));
    }
    by_stamp(input, front)
}

// The header of a pcap file, whose first octets were read.
fn by_stamp<R: BufRead>(input: &mut Input<R>, front: [u8; BLOCK_HEAD]) -> Result<Format, FaultKind>
    ensures { ReadsInput R.Read.remaining (pcap_behind front) input.old input.new result }
{
    let stamp = stamp_in(&front).ok_or(FaultKind::NotACapture)?;
    stamped_header(input, stamp, front)
}

fn stamped_header<R: BufRead>(
    input: &mut Input<R>,
    stamp: Stamp,
    front: [u8; BLOCK_HEAD],
) -> Result<Format, FaultKind>
    ensures { ReadsInput R.Read.remaining (header_behind stamp front) input.old input.new result }
{
    let mut octets = [0; HEADER];
    continued(input, front, &mut octets)?;
    Ok(Format::Pcap(header_in(stamp, &octets)?))
}

// The first octets. A file that ends before is no recording.
fn front_of<R: BufRead>(input: &mut Input<R>) -> Result<[u8; BLOCK_HEAD], FaultKind>
    ensures { ReadsInput R.Read.remaining first_octets input.old input.new result }
{
    let mut front = [0; BLOCK_HEAD];
    match input.fill(&mut front) {
        Ok(()) => Ok(front),
        Err(FaultKind::CutShort) => Err(FaultKind::NotACapture),
        Err(fault) => Err(fault),
    }
}

/// A section header, whose block's head was read; its order.
pub fn section<R: BufRead>(
    input: &mut Input<R>,
    front: [u8; BLOCK_HEAD],
) -> Result<ByteOrder, FaultKind>
    ensures { ReadsInput R.Read.remaining (section_behind front) input.old input.new result }
{
    let mut octets = [0; SECTION_HEAD];
    continued(input, front, &mut octets)?;
    section_end(input, section_in(&octets)?)
}

// A section header's options and its end; its order.
fn section_end<R: BufRead>(input: &mut Input<R>, section: Section) -> Result<ByteOrder, FaultKind>
    requires { 28 ≤ section.length }
    ensures { ReadsInput R.Read.remaining (skipped (section.length - 20) section.order
        section.length ▷ λ _. gives section.order) input.old input.new result }
{
    skip_to_end(input, section.length - 20, section.order, section.length)?;
    Ok(section.order)
}

// A header whose first octets were read, read to its end.
fn continued<R: BufRead>(
    input: &mut Input<R>,
    front: [u8; BLOCK_HEAD],
    octets: &mut [u8],
) -> Result<(), FaultKind>
    requires { 8 ≤ length octets.old }
    ensures { ReadsInput R.Read.remaining (so_many (length octets.old - 8) ▷ λ more.
        gives (front ++ more)) input.old input.new (map_ok (λ _. octets.new) result) }
{
    put_front(front, octets);
    input.fill_from(octets, BLOCK_HEAD)
}

// The first octets, put where they stand.
fn put_front(front: [u8; BLOCK_HEAD], octets: &mut [u8])
    requires { 8 ≤ length octets.old }
    ensures front { take 8 octets.new ≡ front }
    ensures len { length octets.new ≡ length octets.old }
{
    octets[..BLOCK_HEAD].copy_from_slice(&front);
}

/// So many octets of a block that aren't looked at, and its end.
pub fn skip_to_end<R: BufRead>(
    input: &mut Input<R>,
    count: u32,
    order: ByteOrder,
    size: u32,
) -> Result<(), FaultKind>
    ensures { ReadsInput R.Read.remaining (skipped count order size) input.old input.new
        (map_ok (λ _. size) result) }
{
    input.skip(u64::from(count))?;
    end_of_block(input, order, size)
}

/// A block's length, which stands again at its end. Error: Length where it doesn't.
pub fn end_of_block<R: BufRead>(
    input: &mut Input<R>,
    order: ByteOrder,
    size: u32,
) -> Result<(), FaultKind>
    ensures { ReadsInput R.Read.remaining (closed order size) input.old input.new
        (map_ok (λ _. size) result) }
{
    let mut octets = [0; 4];
    input.fill(&mut octets)?;
    if order.u32_at(&octets, 0) != size {
        return Err(FaultKind::Length);
    }
    Ok(())
}
