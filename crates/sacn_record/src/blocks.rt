//! The blocks of a recording.

ghost use Rattle.std.specs.Prelude.{◌≡◌, ◌-◌, ◌%◌, ◌≤◌, [], length};
ghost use Rattle.sacn_record.specs.Blocks.{padding as padding_of};
ghost use Rattle.sacn_record.specs.Laws.{Fits};
ghost use Rattle.sacn_record.specs.Recordings.{beginning, datagram_block, taken_of};

use crate::heard::{Heard, LONGEST_PAYLOAD, LONGEST_PROGRAM};
use crate::packets::{PACKET_HEAD, put_packet};
use crate::put::{put, put_words};
use arrayvec::ArrayVec;

/// The octets of an enhanced packet block besides the packet and its padding.
const PACKET_FRAME: usize = 32;

/// The octets of a section header besides the program's name and its padding.
const SECTION_FRAME: usize = 36;

/// The octets of the block of an interface.
const INTERFACE_LEN: usize = 32;

/// The most octets of a block with a datagram.
pub const LONGEST_BLOCK: usize = PACKET_FRAME + PACKET_HEAD + LONGEST_PAYLOAD;

/// The most octets before the first datagram.
pub const LONGEST_BEGINNING: usize = SECTION_FRAME + LONGEST_PROGRAM + INTERFACE_LEN;

/// Zeros for padding.
const ZEROS: [u8; 3] = [0; 3];

/// The type of a section header.
const SECTION: u32 = 0x0a0d_0d0a;

/// The number by which the byte order is known.
const ORDER: u32 = 0x1a2b_3c4d;

/// Half of the length of a section whose length isn't known.
const UNKNOWN: u32 = 0xffff_ffff;

/// The code of the option that names the program.
const PROGRAM: u16 = 4;

/// The option that ends a block's options: code and length 0.
const END_OF_OPTIONS: u32 = 0;

/// The block of the interface: type 1 and length, link 228, frames of any length, the resolution's option (9, of one octet), 6 for
/// microseconds, the options' end, the length.
const INTERFACE: [u32; 8] = [1, 32, 228, 0, 0x1_0009, 6, 0, 32];

/// A moment is written as two numbers below this.
const HALF: u64 = 1 << 32;

/// The type of an enhanced packet block.
const ENHANCED: u32 = 6;

/// Puts what stands before the first datagram.
pub fn put_beginning(out: &mut ArrayVec<u8, LONGEST_BEGINNING>, program: &str)
    requires short { length program.now ≤ 64 }
    requires empty { out.old.items ≡ [] }
    ensures { out.new.items ≡ beginning program.now }
{
    let pad = padding(program.len());
    let size = (SECTION_FRAME + program.len() + pad.len()) as u32;
    put_words(out, &[SECTION, size, ORDER, 1, UNKNOWN, UNKNOWN]);
    put(out, &PROGRAM.to_le_bytes());
    put(out, &(program.len() as u16).to_le_bytes());
    put(out, program.as_bytes());
    put(out, pad);
    put_words(out, &[END_OF_OPTIONS]);
    put_words(out, &[size]);
    put_words(out, &INTERFACE);
}

/// Puts a datagram in its block.
pub fn put_datagram(out: &mut ArrayVec<u8, LONGEST_BLOCK>, heard: &Heard<'_>)
    requires payload { length heard.now.payload.now ≤ 2048 }
    requires empty { out.old.items ≡ [] }
    ensures block { out.new.items ≡ datagram_block (taken_of heard.now) }
    ensures fits { Fits (taken_of heard.now) }
{
    let len = PACKET_HEAD + heard.payload.len();
    let pad = padding(len);
    let size = (PACKET_FRAME + len + pad.len()) as u32;
    let high = (heard.moment / HALF) as u32;
    let low = (heard.moment % HALF) as u32;
    put_words(out, &[ENHANCED, size, 0, high, low, len as u32, len as u32]);
    put_packet(out, heard);
    put(out, pad);
    put_words(out, &[size]);
}

// Zeros up to the next multiple of four.
#[tactic(auto, unfolding(crate::specs::Blocks::padding))]
fn padding(len: usize) -> &'static [u8]
    ensures zeros { result.now ≡ padding_of len }
    ensures few { length result.now ≡ (4 - len % 4) % 4 }
{
    &ZEROS[..(4 - len % 4) % 4]
}
