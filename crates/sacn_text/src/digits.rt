//! A datagram given as hexadecimal digits.
ghost use Rattle.std.specs.Prelude.{◌≡◌, ◌⊎◌, IfOk, IfErr, Ok, Err};
ghost use Rattle.hex.specs.declared.error.FromHexError.TheVariants.{OutOfMemory};
ghost use Rattle.hex.specs.Hex.{decode_of};
ghost use Rattle.sacn_text.specs.Digits.{is_skipped, digits_of};

use hex::FromHexError;
use std::alloc::Global;

/// Whether an octet between digits is skipped: a space, a tab, LF or CR.
fn is_skipped(octet: u8) -> bool
    ensures { result ≡ is_skipped octet }
{
    (octet == b' ') | (octet == b'\t') | (octet == b'\n') | (octet == b'\r')
}

/// The octets that a text of digits spells, two of either case for each, with spaces, tabs and line
/// ends anywhere between them; or the first fault of that spelling, `OutOfMemory` apart.
pub fn octets_of_digits(alloc: Global, text: &[u8]) -> Result<Vec<u8>, FromHexError>
    ensures spelled { IfOk result (λ octets. decode_of (digits_of text.now) ≡ Ok octets.items) }
    ensures refused { IfErr result
        (λ fault. (fault ≡ OutOfMemory) ⊎ (decode_of (digits_of text.now) ≡ Err fault)) }
{
    let mut digits = Vec::with_capacity(alloc, text.len())?;
    for octet in text.iter() {
        if !is_skipped(*octet) && digits.push(*octet).is_err() {
            return Err(FromHexError::OutOfMemory);
        }
    }
    hex::decode(alloc, digits.as_slice())
}
