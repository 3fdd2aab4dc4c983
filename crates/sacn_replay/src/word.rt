//! Speeds as they are typed.

ghost use Rattle.std.specs.Prelude.{◌≡◌, ◌<◌, ◌≤◌, ◌-◌, ◌^◌, IfSome, length};
ghost use Rattle.std.specs.Char.{is_ascii_digit};
ghost use Rattle.std.specs.List.{list_all, position};
ghost use Rattle.sacn_replay.specs.Words.{decimals_in, is_number, is_point, number_in, speed_in, thousandths_in, value_after, with_point, without_point};

use crate::fault::ReplayFault;
use crate::speed::Speed;

/// Thousandths in one.
const THOUSANDTHS: u32 = 1000;

/// The most digits before the point.
const MOST_DIGITS: usize = 4;

/// The most digits behind the point.
const MOST_DECIMALS: usize = 3;

/// The speed that a word says, as `2`, `0.5` or `1.25`: one to four digits, and behind a point one to three decimals.
///
/// Errors: the word is of another form, or its number is 0 or above 1000.
pub fn speed_of(word: &str) -> Result<Speed, ReplayFault>
    ensures { result ≡ speed_in word.now }
{
    match thousandths_in(word.as_bytes()) {
        Some(thousandths) => Speed::new(thousandths),
        None => Err(ReplayFault::SpeedWord),
    }
}

// The number of thousandths that a word says.
fn thousandths_in(word: &[u8]) -> Option<u32>
    ensures { result ≡ thousandths_in word.now }
{
    match point_in(word) {
        Some(point) => with_point(&word[..point], &word[point + 1..]),
        None => without_point(word),
    }
}

// The place of the first point.
fn point_in(word: &[u8]) -> Option<usize>
    ensures place { result ≡ position is_point word.now }
    ensures within { IfSome result (λ place. place < length word.now) }
{
    word.iter().position(|octet| is_point(*octet))
}

fn without_point(word: &[u8]) -> Option<u32>
    ensures { result ≡ without_point word.now }
{
    Some(THOUSANDTHS * number_in(word, MOST_DIGITS)?)
}

fn with_point(before: &[u8], behind: &[u8]) -> Option<u32>
    ensures { result ≡ with_point before.now behind.now }
{
    let whole = number_in(before, MOST_DIGITS)?;
    let decimals = decimals_in(behind)?;
    Some(THOUSANDTHS * whole + decimals)
}

/// The number of thousandths that decimals are, one to three digits. None where they are others.
pub fn decimals_in(digits: &[u8]) -> Option<u32>
    ensures value { result ≡ decimals_in digits.now }
    ensures bound { IfSome result (λ n. n ≤ 230000000) }
{
    let value = number_in(digits, MOST_DECIMALS)?;
    Some(scale(digits.len()) * value)
}

// What the last of so many decimals counts in thousandths.
fn scale(places: usize) -> u32
    requires { places ≤ 3 }
    ensures value { result ≡ 10 ^ (3 - places) }
    ensures bound { result ≤ 1000 }
{
    match places {
        0 => 1000,
        1 => 100,
        2 => 10,
        _ => 1,
    }
}

// The value of one digit or more, up to so many.
fn number_in(digits: &[u8], most: usize) -> Option<u32>
    requires { most ≤ 4 }
    ensures value { result ≡ number_in most digits.now }
    ensures few { IfSome result (λ _. length digits.now ≤ most) }
    ensures bound { IfSome result (λ n. n ≤ 230000) }
{
    if !is_number(digits, most) {
        return None;
    }
    Some(value_of(digits))
}

fn is_number(digits: &[u8], most: usize) -> bool
    ensures { result ≡ is_number most digits.now }
{
    digits.len() > 0 && digits.len() <= most && all_digits(digits)
}

fn all_digits(octets: &[u8]) -> bool
    ensures { result ≡ list_all is_ascii_digit octets.now }
{
    octets.iter().all(|octet| is_digit(*octet))
}

fn is_digit(octet: u8) -> bool
    ensures { result ≡ is_ascii_digit octet }
{
    octet.is_ascii_digit()
}

fn is_point(octet: u8) -> bool
    ensures { result ≡ is_point octet }
{
    octet == b'.'
}

// The value of digits.
fn value_of(digits: &[u8]) -> u32
    requires { length digits.now ≤ 4 }
    ensures value { result ≡ value_after 0 digits.now }
    ensures bound { result ≤ 230000 }
{
    let mut value = 0;
    for digit in digits.iter() {
        value = 10 * value + u32::from(digit.saturating_sub(b'0'));
    }
    value
}
