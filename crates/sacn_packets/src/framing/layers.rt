//! What the layers of every packet have at fixed places among its octets.

ghost use Rattle.std.specs.Prelude.{◌≡◌, ◌+◌, ◌≤◌, length, slice_range};
ghost use Rattle.sacn_packets.specs.Octets.{length_of};

use crate::framing::layout;
use crate::root::layout::{BODY_AT, CID_AT, PDU_AT};
use crate::root::length_at;

/// Where the source name stands, in data packets (6.2.2) and in pages (6.4.2).
const NAME_AT: usize = BODY_AT + layout::NAME_AT;

const NAME_END: usize = NAME_AT + 64;

/// The CID of these octets.
pub fn cid_in(octets: &[u8]) -> [u8; 16]
    requires { 38 ≤ length octets.now }
    ensures { result ≡ slice_range octets.now 22 38 }
{
    let mut cid = [0; 16];
    cid.copy_from_slice(&octets[CID_AT..BODY_AT]);
    cid
}

/// The field of the source name, 64 octets.
pub fn name_in(octets: &[u8]) -> &[u8]
    requires { 108 ≤ length octets.now }
    ensures { result.now ≡ slice_range octets.now 44 108 }
{
    &octets[NAME_AT..NAME_END]
}

/// The same field, as an array: what copies it copies a length that is known.
pub fn name_field_in(octets: &[u8]) -> &[u8; 64]
    requires { 108 ≤ length octets.now }
    ensures { result.now ≡ slice_range octets.now 44 108 }
{
    <&[u8; 64]>::try_from(name_in(octets)).unwrap()
}

/// Where the root PDU ends.
pub fn packet_end(octets: &[u8]) -> usize
    requires { 18 ≤ length octets.now }
    ensures { result ≡ 16 + length_of octets.now 16 }
{
    PDU_AT + length_at(octets, PDU_AT)
}
