//! Names and numbers in a printed text.

ghost use Rattle.std.specs.Prelude.{◌≡◌, ◌++◌, IfOk};
ghost use Rattle.sacn_text.specs.Words.{is_plain, escape, escaped, spaced, list_text, yes_or_no};

use std::alloc::{AllocError, Global};

/// The printing characters of ASCII: space to tilde.
const FIRST_PLAIN: u8 = 0x20;

const LAST_PLAIN: u8 = 0x7e;

/// It begins an escape, and so is escaped itself.
const BACKSLASH: u8 = b'\\';

/// `yes` or `no`.
pub fn yes_or_no(answer: bool) -> &'static str
    ensures { result.now ≡ yes_or_no answer }
{
    if answer { "yes" } else { "no" }
}

// Whether an octet of a name is printed as it is: from 20 to 7e, other than the backslash.
fn is_plain(octet: u8) -> bool
    ensures { result ≡ is_plain octet }
{
    (FIRST_PLAIN <= octet) & (octet <= LAST_PLAIN) & (octet != BACKSLASH)
}

// An octet of a name as it is printed.
fn escape(alloc: Global, octet: u8) -> Result<Vec<u8>, AllocError>
    ensures { IfOk result (λ text. text.items ≡ escape octet) }
{
    let mut text = Vec::new(alloc);
    if is_plain(octet) {
        text.push(octet)?;
        return Ok(text);
    }
    let digits = hex::encode(alloc, &[octet])?;
    text.extend_from_slice(b"\\x")?;
    text.extend_from_slice(digits.as_bytes())?;
    Ok(text)
}

/// A name, each octet that isn't plain as an escape.
pub fn escaped(alloc: Global, name: &[u8]) -> Result<Vec<u8>, AllocError>
    ensures { IfOk result (λ text. text.items ≡ escaped name.now) }
{
    let mut text = Vec::new(alloc);
    for i in 0..name.len() {
        let piece = escape(alloc, name[i])?;
        text.extend_from_slice(piece.as_slice())?;
    }
    Ok(text)
}

/// Each number after a space, or none.
pub fn list_text(alloc: Global, numbers: &[u16]) -> Result<Vec<u8>, AllocError>
    ensures { IfOk result (λ text. text.items ≡ list_text numbers.now) }
{
    if numbers.is_empty() {
        return Vec::from_slice(alloc, b" none");
    }
    spaced(alloc, numbers)
}

// Each number after a space.
fn spaced(alloc: Global, numbers: &[u16]) -> Result<Vec<u8>, AllocError>
    ensures { IfOk result (λ text. text.items ≡ spaced numbers.now) }
{
    let mut text = Vec::new(alloc);
    for i in 0..numbers.len() {
        let number = numbers[i];
        let piece = format!(in alloc; " {number}")?;
        text.extend_from_slice(piece.as_bytes())?;
    }
    Ok(text)
}

/// Three texts, joined, in room that is taken at once.
pub fn join(alloc: Global, first: &[u8], second: &[u8], third: &[u8]) -> Result<Vec<u8>, AllocError>
    ensures { IfOk result (λ text. text.items ≡ first.now ++ second.now ++ third.now) }
{
    let room = first
        .len()
        .saturating_add(second.len())
        .saturating_add(third.len());
    let mut text = Vec::with_capacity(alloc, room)?;
    text.extend_from_slice(first)?;
    text.extend_from_slice(second)?;
    text.extend_from_slice(third)?;
    Ok(text)
}
