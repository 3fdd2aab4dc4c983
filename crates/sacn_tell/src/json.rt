//! JSON: the front of an object, its members, and text from elsewhere.

ghost use Rattle.std.specs.Prelude.{◌≡◌, ◌++◌, OnOk, string_bytes, chars};
ghost use Rattle.sacn_tell.specs.Members.{object_front, row_front, number_member, word_member, stream_members, source_members, quoted_address, key_text, sender_members};
ghost use Rattle.std.specs.List.{flat_map};
ghost use Rattle.sacn_tell.specs.Foreign.{foreign_letter, foreign_text, is_plain, units_text};

use crate::spelling::{push_address, push_cid, push_decimal, push_escape, push_name};
use sacn_monitor::{Endpoint, Stream};
use sacn_packets::up_to_nul;
use std::alloc::AllocError;

/// The front of an event's object: the moment and the event's key.
#[tactic(auto, unfolding(crate::specs::Members::object_front))]
pub fn begin(text: &mut String, moment: u64, event: &str) -> Result<(), AllocError>
    ensures { OnOk result
        (string_bytes text.new ≡ string_bytes text.old ++ object_front moment event.now) }
{
    text.push_str("{\"ms\":")?;
    push_decimal(text, moment)?;
    text.push_str(",\"event\":\"")?;
    text.push_str(event)?;
    text.push_str("\"")
}

/// The front of the object of a table's row.
#[tactic(auto, unfolding(crate::specs::Members::row_front))]
pub fn begin_row(text: &mut String, row: &str) -> Result<(), AllocError>
    ensures { OnOk result (string_bytes text.new ≡ string_bytes text.old ++ row_front row.now) }
{
    text.push_str("{\"row\":\"")?;
    text.push_str(row)?;
    text.push_str("\"")
}

/// A member that is a number.
#[tactic(auto, unfolding(crate::specs::Members::number_member, crate::specs::Members::key_text))]
pub fn push_number(text: &mut String, key: &str, number: u64) -> Result<(), AllocError>
    ensures { OnOk result
        (string_bytes text.new ≡ string_bytes text.old ++ number_member key.now number) }
{
    push_key(text, key)?;
    push_decimal(text, number)
}

/// A member that is a word.
#[tactic(auto, unfolding(crate::specs::Members::word_member, crate::specs::Members::key_text))]
pub fn push_word(text: &mut String, key: &str, word: &str) -> Result<(), AllocError>
    ensures { OnOk result
        (string_bytes text.new ≡ string_bytes text.old ++ word_member key.now word.now) }
{
    push_key(text, key)?;
    text.push_str("\"")?;
    text.push_str(word)?;
    text.push_str("\"")
}

/// A stream: its universe, CID and name.
#[tactic(auto, unfolding(crate::specs::Members::stream_members))]
pub fn push_stream(text: &mut String, stream: &Stream) -> Result<(), AllocError>
    ensures { OnOk result
        (string_bytes text.new ≡ string_bytes text.old ++ stream_members stream.now) }
{
    push_number(text, "universe", u64::from(stream.universe))?;
    push_source(text, &stream.cid, up_to_nul(&stream.account.name))
}

/// A source: its CID and name.
#[tactic(auto, unfolding(crate::specs::Members::source_members))]
pub fn push_source(text: &mut String, cid: &[u8; 16], name: &[u8]) -> Result<(), AllocError>
    ensures { OnOk result
        (string_bytes text.new ≡ string_bytes text.old ++ source_members cid.now name.now) }
{
    text.push_str(",\"cid\":\"")?;
    push_cid(text, cid)?;
    text.push_str("\",\"name\":")?;
    push_name(text, name)
}

/// A sender: its address and port.
#[tactic(auto, unfolding(crate::specs::Members::sender_members))]
pub fn push_sender_members(text: &mut String, sender: &Endpoint) -> Result<(), AllocError>
    ensures { OnOk result
        (string_bytes text.new ≡ string_bytes text.old ++ sender_members sender.now) }
{
    push_key(text, "address")?;
    push_quoted_address(text, &sender.address)?;
    push_number(text, "port", u64::from(sender.port))
}

#[tactic(auto, unfolding(crate::specs::Members::quoted_address))]
fn push_quoted_address(text: &mut String, address: &[u8; 4]) -> Result<(), AllocError>
    ensures { OnOk result
        (string_bytes text.new ≡ string_bytes text.old ++ quoted_address address.now) }
{
    text.push_str("\"")?;
    push_address(text, address)?;
    text.push_str("\"")
}

/// A member's key, before its value.
#[tactic(auto, unfolding(crate::specs::Members::key_text))]
pub fn push_key(text: &mut String, key: &str) -> Result<(), AllocError>
    ensures { OnOk result (string_bytes text.new ≡ string_bytes text.old ++ key_text key.now) }
{
    text.push_str(",\"")?;
    text.push_str(key)?;
    text.push_str("\":")
}

// Texts from elsewhere, as they stand between the quotes of a string of JSON and in a page. All that is written is ASCII.

/// Stands for octets that aren't UTF-8.
const UNKNOWN: char = '\u{fffd}';

/// A text from elsewhere: what isn't UTF-8 as U+FFFD, and each letter that isn't plain as an escape.
///
/// Errors: a growth was refused.
pub fn push_foreign(text: &mut String, octets: &[u8]) -> Result<(), AllocError>
    ensures { OnOk result
        (string_bytes text.new ≡ string_bytes text.old ++ foreign_text octets.now) }
{
    for chunk in octets.utf8_chunks() {
        push_letters(text, chunk.valid())?;
        if !chunk.invalid().is_empty() {
            push_letter(text, UNKNOWN)?;
        }
    }
    Ok(())
}

fn push_letters(text: &mut String, letters: &str) -> Result<(), AllocError>
    ensures { OnOk result (string_bytes text.new
        ≡ string_bytes text.old ++ flat_map foreign_letter (chars letters.now)) }
{
    for letter in letters.chars() {
        push_letter(text, letter)?;
    }
    Ok(())
}

#[tactic(auto, unfolding(crate::specs::Foreign::foreign_letter))]
fn push_letter(text: &mut String, letter: char) -> Result<(), AllocError>
    ensures { OnOk result
        (string_bytes text.new ≡ string_bytes text.old ++ foreign_letter letter) }
{
    if is_plain(letter) {
        return text.push(letter);
    }
    push_units(text, letter.encode_utf16(&mut [0; 2]))
}

// Whether a letter stands for itself in a string of JSON, and in a page.
fn is_plain(letter: char) -> bool
    ensures { result ≡ is_plain letter }
{
    match letter {
        '"' | '&' | '<' | '>' | '\\' => false,
        ' '..='~' => true,
        _ => false,
    }
}

fn push_units(text: &mut String, units: &[u16]) -> Result<(), AllocError>
    ensures { OnOk result
        (string_bytes text.new ≡ string_bytes text.old ++ units_text units.now) }
{
    for unit in units {
        push_escape(text, *unit)?;
    }
    Ok(())
}
