//! Digits of a slot, letter by letter: a screen has 512 slots, and is drawn anew several times a second.

ghost use Rattle.std.specs.Prelude.{◌≡◌};

use crate::page::{Ink, Row};
use std::alloc::AllocError;

// The digit of a number from 0 to 15.
fn digit(number: u8) -> u32 {
    if number < 10 {
        '0' as u32 + u32::from(number)
    } else {
        'a' as u32 - 10 + u32::from(number % 16)
    }
}

/// Puts the two letters of `{octet:02x}` into a row.
pub(crate) fn put_hex(row: &mut Row, octet: u8, ink: Ink) -> Result<(), AllocError>
    ensures { row.new.width ≡ row.old.width }
{
    row.put(digit(octet / 16), ink)?;
    row.put(digit(octet % 16), ink)
}

/// Puts the three letters of `{number:>3}` into a row.
pub(crate) fn put_number(row: &mut Row, number: u8, ink: Ink) -> Result<(), AllocError>
    ensures { row.new.width ≡ row.old.width }
{
    row.put(leading(number / 100, number >= 100), ink)?;
    row.put(leading(number / 10 % 10, number >= 10), ink)?;
    row.put(digit(number % 10), ink)
}

// A digit, or a space in place of a zero in front.
fn leading(number: u8, is_shown: bool) -> u32 {
    if is_shown { digit(number) } else { ' ' as u32 }
}
