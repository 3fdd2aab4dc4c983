//! The DMP layer written over octets (E1.31, 7).

ghost use Rattle.std.specs.Prelude.{◌≡◌, ◌+◌, ◌≤◌, ◌++◌, length, drop};
ghost use Rattle.sacn_packets.specs.DmpText.{dmp_text};

use crate::dmp::layout::{COUNT_AT, SLOTS_AT, VALUES_AT, VECTOR_AT};
use crate::root::{pdu_field, put};

/// Vector, address and data type, first property address, address increment (7.2 to 7.5).
const VECTOR_TO_INCREMENT: [u8; 6] = [0x02, 0xa1, 0, 0, 0, 1];

/// Writes a DMP layer at the front, and returns its length in octets, 11 and one for each slot. No
/// other octets are written.
pub fn write_dmp(out: &mut [u8], start: u8, slots: &[u8]) -> usize
    requires slots { length slots.now ≤ 512 }
    requires room { 11 + length slots.now ≤ length out.old }
    ensures text { out.new
        ≡ dmp_text (record { start = start; slots = slots.now }) ++ drop result out.old }
    ensures len { result ≡ 11 + length slots.now }
{
    let count = 1 + slots.len();
    // A copy of its own lies apart from the octets that are written, so it is put by two stores.
    let fixed = VECTOR_TO_INCREMENT;
    put(out, 0, &pdu_field(VALUES_AT + count));
    put(out, VECTOR_AT, &fixed);
    put(out, COUNT_AT, &(count as u16).to_be_bytes());
    put(out, VALUES_AT, &[start]);
    put(out, SLOTS_AT, slots);
    VALUES_AT + count
}
