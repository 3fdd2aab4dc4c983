//! The root layer written over octets (E1.31, 5).

ghost use Rattle.std.specs.Prelude.{◌≡◌, ◌+◌, ◌<◌, ◌≤◌, ◌^◌, ◌++◌, ◌⊎◌, length, drop};
ghost use Rattle.sacn_packets.specs.RootText.{flags_and_length, root_head};
ghost use Rattle.sacn_packets.specs.Writing.{put_at};

use crate::root::layout::{BODY_AT, CID_AT, PDU_AT, PREAMBLE_SIZE_AT, VECTOR_AT};

/// Preamble size, post-amble size and ACN packet identifier (5.1 to 5.3).
const FRONT: [u8; 16] = *b"\0\x10\0\0ASC-E1.17\0\0\0";

/// A PDU's flags, 7, above the twelve bits of its length (5.4).
const FLAGS_FIELD: u16 = 0x7000;

/// The octets of the root PDU before its body: flags and length, vector, CID.
const HEAD: usize = BODY_AT - PDU_AT;

/// Writes a text over the octets at a place. The octets round it stay as they are.
pub fn put(out: &mut [u8], place: usize, text: &[u8])
    requires { place + length text.now ≤ length out.old }
    ensures { out.new ≡ put_at out.old place text.now }
{
    out[place..place + text.len()].copy_from_slice(text);
}

/// The flags-and-length field of a PDU of `len` octets.
pub fn pdu_field(len: usize) -> [u8; 2]
    requires { len < 2 ^ 12 }
    ensures { result ≡ flags_and_length len }
{
    (FLAGS_FIELD + len as u16).to_be_bytes()
}

/// Writes all that stands before the body of `body_len` octets, in octets 0 to 37, and no other octets.
pub fn write_root(out: &mut [u8], vector: u32, cid: &[u8; 16], body_len: usize)
    requires room { 38 ≤ length out.old }
    requires vector { (vector ≡ 4) ⊎ (vector ≡ 8) }
    requires body { body_len ≤ 4073 }
    ensures { out.new ≡ root_head vector cid.now body_len ++ drop 38 out.old }
{
    // Copies of its own lie apart from the octets that are written, so each is put by a few stores.
    let front = FRONT;
    let sender = *cid;
    put(out, PREAMBLE_SIZE_AT, &front);
    put(out, PDU_AT, &pdu_field(HEAD + body_len));
    put(out, VECTOR_AT, &vector.to_be_bytes());
    put(out, CID_AT, &sender);
}
