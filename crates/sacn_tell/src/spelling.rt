//! How names, CIDs and moments are spelled.

ghost use Rattle.std.specs.Prelude.{◌≡◌, ◌≤◌, ◌*◌, ◌++◌, OnOk, length, string_bytes, chars, decimal, replicate, IsAscii};
ghost use Rattle.std.specs.List.{flat_map};
ghost use Rattle.sacn_tell.specs.Spelling.{flush_left, octets_text, address_text, sender_text, moment_text, escape_text, letter_text, letters_of, long_text, longs_text, name_text};

use crate::places::{ROOM, SECONDS, put_address, put_port, put_seconds};
use itoa::Buffer;
use sacn_edge::write_digits;
use sacn_monitor::Endpoint;
use sacn_packets::SLOTS;
use std::alloc::AllocError;
use std::fmt::Write;
use std::str;

/// Octets whose digits are pushed at once: the slots of a frame.
const PIECE: usize = SLOTS;

/// A word of ASCII, left-aligned in so many places.
pub fn push_left(text: &mut String, word: &str, width: usize) -> Result<(), AllocError>
    ensures { OnOk result (string_bytes text.new ≡ string_bytes text.old ++ flush_left width word.now) }
{
    text.push_str(word)?;
    push_spaces(text, width.saturating_sub(word.len()))
}

fn push_spaces(text: &mut String, spaces: usize) -> Result<(), AllocError>
    ensures { OnOk result (string_bytes text.new ≡ string_bytes text.old ++ replicate spaces 32) }
{
    for _space in 0..spaces {
        text.push(' ')?;
    }
    Ok(())
}

/// The digits of octets, two for each, in pieces that are written into an array and pushed at once: the same as two digits pushed
/// for each octet, without a formatter for each.
pub fn push_digits(text: &mut String, octets: &[u8]) -> Result<(), AllocError>
    ensures { OnOk result
        (string_bytes text.new ≡ string_bytes text.old ++ octets_text octets.now) }
{
    for piece in octets.chunks(PIECE) {
        push_piece(text, piece)?;
    }
    Ok(())
}

fn push_piece(text: &mut String, piece: &[u8]) -> Result<(), AllocError>
    requires { length piece.now ≤ PIECE }
    ensures { OnOk result
        (string_bytes text.new ≡ string_bytes text.old ++ octets_text piece.now) }
{
    let mut digits = [0; 2 * PIECE];
    push_written(text, piece, &mut digits[..2 * piece.len()])
}

// The digits of a piece, written into so many octets first.
fn push_written(text: &mut String, piece: &[u8], digits: &mut [u8]) -> Result<(), AllocError>
    requires { length digits.old ≡ 2 * length piece.now }
    ensures { OnOk result
        (string_bytes text.new ≡ string_bytes text.old ++ octets_text piece.now) }
{
    write_digits(piece, digits);
    let Ok(letters) = str::from_utf8(digits) else {
        unreachable!();
    };
    text.push_str(letters)
}

/// A CID's 32 digits (E1.31, 5.6): the same as `push_digits` writes, by way of an array of their own size.
pub fn push_cid(text: &mut String, cid: &[u8; 16]) -> Result<(), AllocError>
    ensures { OnOk result (string_bytes text.new ≡ string_bytes text.old ++ octets_text cid.now) }
{
    let mut digits = [0; 32];
    push_written(text, cid, &mut digits)
}

/// Four digits of each number.
pub fn push_long_digits(text: &mut String, numbers: &[u16]) -> Result<(), AllocError>
    ensures { OnOk result
        (string_bytes text.new ≡ string_bytes text.old ++ longs_text numbers.now) }
{
    for number in numbers {
        push_long(text, *number)?;
    }
    Ok(())
}

fn push_long(text: &mut String, number: u16) -> Result<(), AllocError>
    ensures { OnOk result (string_bytes text.new ≡ string_bytes text.old ++ long_text number) }
{
    let mut digits = [0; 4];
    push_written(text, &number.to_be_bytes(), &mut digits)
}

/// A number in decimals: the same as a formatter writes, without one.
pub fn push_decimal(text: &mut String, number: u64) -> Result<(), AllocError>
    ensures { OnOk result (string_bytes text.new ≡ string_bytes text.old ++ decimal number) }
{
    text.push_str(Buffer::new().format(number))
}

/// An address, a colon and a port.
#[tactic(auto, unfolding(crate::specs::Spelling::sender_text))]
pub fn push_sender(text: &mut String, sender: &Endpoint) -> Result<(), AllocError>
    ensures { OnOk result
        (string_bytes text.new ≡ string_bytes text.old ++ sender_text sender.now) }
{
    let mut room = [0; ROOM];
    let colon = put_port(&mut room, sender.port);
    let start = put_address(&mut room, colon, &sender.address);
    push_ascii(text, &room[start..])
}

/// An IPv4 address.
pub fn push_address(text: &mut String, address: &[u8; 4]) -> Result<(), AllocError>
    ensures { OnOk result
        (string_bytes text.new ≡ string_bytes text.old ++ address_text address.now) }
{
    let mut room = [0; ROOM];
    let start = put_address(&mut room, ROOM, address);
    push_ascii(text, &room[start..])
}

/// A moment in seconds, with three places behind the point, right-aligned in ten places.
pub fn push_moment(text: &mut String, moment: u64) -> Result<(), AllocError>
    ensures { OnOk result (string_bytes text.new ≡ string_bytes text.old ++ moment_text moment) }
{
    let seconds = moment / 1000;
    let rest = moment % 1000;
    let mut room = [b' '; ROOM];
    let start = put_seconds(&mut room, seconds, rest);
    push_ascii(text, &room[start.min(SECONDS)..])
}

/// Letters of ASCII.
pub(crate) fn push_ascii(text: &mut String, letters: &[u8]) -> Result<(), AllocError>
    requires { IsAscii letters.now }
    ensures { OnOk result (string_bytes text.new ≡ string_bytes text.old ++ letters.now) }
{
    let Ok(letters) = str::from_utf8(letters) else {
        unreachable!();
    };
    text.push_str(letters)
}

/// A name between quotes, as JSON writes a string. One that isn't UTF-8 has its octets as characters below 256.
#[tactic(auto, unfolding(crate::specs::Spelling::name_text))]
pub fn push_name(text: &mut String, name: &[u8]) -> Result<(), AllocError>
    ensures { OnOk result (string_bytes text.new ≡ string_bytes text.old ++ name_text name.now) }
{
    text.push_str("\"")?;
    push_name_letters(text, name)?;
    text.push_str("\"")
}

#[tactic(auto, using(crate::proofs::Letters::of_text, crate::proofs::Letters::of_octets))]
fn push_name_letters(text: &mut String, name: &[u8]) -> Result<(), AllocError>
    ensures { OnOk result (string_bytes text.new
        ≡ string_bytes text.old ++ flat_map letter_text (letters_of name.now)) }
{
    match str::from_utf8(name) {
        Ok(letters) => push_letters(text, letters),
        Err(_) => push_octets(text, name),
    }
}

fn push_letters(text: &mut String, letters: &str) -> Result<(), AllocError>
    ensures { OnOk result (string_bytes text.new
        ≡ string_bytes text.old ++ flat_map letter_text (chars letters.now)) }
{
    for letter in letters.chars() {
        push_letter(text, letter)?;
    }
    Ok(())
}

fn push_octets(text: &mut String, octets: &[u8]) -> Result<(), AllocError>
    ensures { OnOk result
        (string_bytes text.new ≡ string_bytes text.old ++ flat_map letter_text octets.now) }
{
    for octet in octets {
        push_letter(text, char::from(*octet))?;
    }
    Ok(())
}

#[tactic(auto, unfolding(crate::specs::Spelling::letter_text))]
fn push_letter(text: &mut String, letter: char) -> Result<(), AllocError>
    ensures { OnOk result (string_bytes text.new ≡ string_bytes text.old ++ letter_text letter) }
{
    match letter {
        '"' => text.push_str("\\\""),
        '\\' => text.push_str("\\\\"),
        '\0'..='\u{1f}' | '\u{7f}'..='\u{9f}' => push_escape(text, letter as u16),
        _ => text.push(letter),
    }
}

/// A unit of UTF-16 as an escape of JSON (RFC 8259, 7).
#[tactic(auto, unfolding(crate::specs::Spelling::escape_text), using(crate::proofs::Padding::zeros_is))]
pub fn push_escape(text: &mut String, unit: u16) -> Result<(), AllocError>
    ensures { OnOk result (string_bytes text.new ≡ string_bytes text.old ++ escape_text unit) }
{
    write!(text, "\\u{unit:04x}")
}
