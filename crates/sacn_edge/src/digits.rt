//! The lower case digits of octets, written by blocks.
ghost use Rattle.std.specs.Prelude.{◌≡◌, ◌*◌, ◌/◌, ◌%◌, ◌++◌, map, slice_index, length};
ghost use Rattle.hex.specs.Hex.{encode_lower, lower_digits};

use std::simd::prelude::*;

/// Octets in lanes, one lane for each: as many as a register of the processor has.
type Lanes = u8x16;

/// How many octets a block has.
const BLOCK: usize = 16;

/// The sixteen digits.
const DIGITS: [u8; 16] = *b"0123456789abcdef";

/// Writes the two lower case digits of each octet, the high four bits first: the same as `hex::encode_to_slice`, which reads a
/// table and stores an octet for each digit. Here a block of octets is read, looked up and stored as a whole.
pub fn write_digits(octets: &[u8], digits: &mut [u8])
    requires { length digits.old ≡ 2 * length octets.now }
    ensures { digits.new ≡ encode_lower octets.now }
{
    let blocks = octets.len() / BLOCK;
    for block in 0..blocks {
        let at = BLOCK * block;
        write_block(
            &octets[at..at + BLOCK],
            &mut digits[2 * at..2 * at + 2 * BLOCK],
        );
    }
    let at = BLOCK * blocks;
    write_rest(&octets[at..], &mut digits[2 * at..]);
}

// The digits of octets that fill no block.
fn write_rest(octets: &[u8], digits: &mut [u8])
    requires { length digits.old ≡ 2 * length octets.now }
    ensures { digits.new ≡ encode_lower octets.now }
{
    let _ = hex::encode_to_slice(octets, digits);
}

// The digits of a block.
fn write_block(octets: &[u8], digits: &mut [u8])
    requires whole { length octets.now ≡ BLOCK }
    requires room { length digits.old ≡ 2 * BLOCK }
    ensures { digits.new ≡ encode_lower octets.now }
{
    let (front, back) = digits_of_lanes(Lanes::from_slice(octets));
    front.copy_to_slice(digits);
    back.copy_to_slice(&mut digits[BLOCK..]);
}

// The digits of the octets in lanes, those of the first half of them in front.
fn digits_of_lanes(octets: Lanes) -> (Lanes, Lanes)
    ensures front { length result.0 ≡ BLOCK }
    ensures back { length result.1 ≡ BLOCK }
    ensures digits { result.0 ++ result.1 ≡ encode_lower octets }
{
    high_digits(octets).interleave(low_digits(octets))
}

// The digit of the high four bits of each octet.
fn high_digits(octets: Lanes) -> Lanes
    ensures { result ≡ map (λ octet. slice_index lower_digits (octet / 16)) octets }
{
    Lanes::from_array(DIGITS).swizzle_dyn(octets >> Lanes::splat(4))
}

// The digit of the low four bits of each octet.
fn low_digits(octets: Lanes) -> Lanes
    ensures { result ≡ map (λ octet. slice_index lower_digits (octet % 16)) octets }
{
    Lanes::from_array(DIGITS).swizzle_dyn(octets & Lanes::splat(15))
}
