//! The moment that a line says, in milliseconds since the start.
use std::str;

/// What the object of an event begins with.
const OBJECT_FRONT: &[u8] = b"{\"ms\":";

/// The key of the moment in the object of a table's row, where it stands last.
const ROW_KEY: &[u8] = b",\"ms\":";

/// What the object of a table's row begins with.
const ROW_FRONT: &[u8] = b"{\"row\":";

/// The end of an object's line.
const OBJECT_END: &[u8] = b"}\n";

/// An object of JSON that says its moment.
#[derive(Clone, Copy)]
pub struct TimedObject<'a> {
    /// What stands before the moment.
    pub before: &'a [u8],
    /// The digits of the moment.
    pub digits: &'a [u8],
    /// What stands behind it, up to the line's end.
    pub behind: &'a [u8],
}

// How many digits stand in front.
fn digits_in(octets: &[u8]) -> usize {
    octets
        .iter()
        .position(|octet| !octet.is_ascii_digit())
        .unwrap_or(octets.len())
}

// The number that digits spell.
fn number_of(digits: &[u8]) -> Option<u64> {
    str::from_utf8(digits).ok()?.parse::<u64>().ok()
}

/// An object of JSON in parts, where it says its moment: that of an event in front, and that of a table's row as its last member.
pub fn timed_object(line: &[u8]) -> Option<TimedObject<'_>> {
    if line.starts_with(ROW_FRONT) {
        return timed_row(line);
    }
    let rest = line.strip_prefix(OBJECT_FRONT)?;
    let (digits, behind) = rest.split_at_checked(digits_in(rest))?;
    Some(TimedObject {
        before: OBJECT_FRONT,
        digits,
        behind,
    })
}

fn timed_row(line: &[u8]) -> Option<TimedObject<'_>> {
    let members = line.strip_suffix(OBJECT_END)?;
    let colon = members.iter().rposition(|octet| *octet == b':')?;
    let (before, digits) = members.split_at_checked(colon + 1)?;
    if !before.ends_with(ROW_KEY) || digits_in(digits) != digits.len() {
        return None;
    }
    Some(TimedObject {
        before,
        digits,
        behind: OBJECT_END,
    })
}

/// The moment of an object of JSON.
pub fn millis_of_object(line: &[u8]) -> Option<u64> {
    number_of(timed_object(line)?.digits)
}

/// The moment of a line for people: seconds, a point and three places, and their unit.
pub fn millis_of_text(line: &[u8]) -> Option<u64> {
    let line = line.trim_ascii_start();
    let (seconds, rest) = line.split_at_checked(digits_in(line))?;
    match rest {
        [b'.', places @ ..] => {
            let (places, unit) = places.split_at_checked(3)?;
            if !unit.starts_with(b" s  ") {
                return None;
            }
            number_of(seconds)?
                .checked_mul(1000)?
                .checked_add(number_of(places)?)
        }
        _ => None,
    }
}
