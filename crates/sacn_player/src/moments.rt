//! Moments as they are typed.
use sacn_files::words::number_in;
use sacn_replay::decimals_in;

/// The most seconds that a word says: more than thirty years.
const MAX_SECONDS: u64 = 1_000_000_000;

/// The milliseconds of a minute.
const MINUTE: u64 = 60_000;

/// The milliseconds of a day.
const DAY: u64 = 24 * 60 * MINUTE;

/// The milliseconds of seconds, as `90` or `12.5`: at most 1000000000, with one to three decimals behind a point.
pub fn millis_in(word: &str) -> Option<u64> {
    let (whole, decimals) = match word.split_once('.') {
        Some((whole, digits)) => (whole, u64::from(decimals_in(digits.as_bytes())?)),
        None => (word, 0),
    };
    let seconds = number_in(MAX_SECONDS, whole)?;
    Some(seconds.saturating_mul(1000).saturating_add(decimals))
}

/// The milliseconds since midnight of a time of day, as `20:13:05` or `20:13:05.125`.
pub fn day_millis(word: &str) -> Option<u64> {
    let (hours, rest) = word.split_once(':')?;
    let (minutes, seconds) = rest.split_once(':')?;
    let minutes = number_in(23, hours)?
        .saturating_mul(60)
        .saturating_add(number_in(59, minutes)?);
    let millis = millis_in(seconds)?;
    if millis >= MINUTE {
        return None;
    }
    Some(minutes.saturating_mul(MINUTE).saturating_add(millis))
}

/// How long after one time of day another comes, on the same day or the next, in milliseconds.
pub(crate) fn behind(first: u64, other: u64) -> u64 {
    if other >= first {
        return other - first;
    }
    other.saturating_add(DAY).saturating_sub(first)
}
