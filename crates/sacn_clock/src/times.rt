//! Moments as texts. They are milliseconds since 1970 (UTC).
use arrayvec::ArrayString;
use jiff::Timestamp;
use jiff::tz::TimeZone;
use std::fmt::Write;

/// The letters of a time of day in front of a line, a space among them.
pub const CLOCK_LETTERS: usize = 13;

/// A time of day in front of a line, as `20:13:05.125 `.
pub type ClockText = ArrayString<CLOCK_LETTERS>;

/// A moment by RFC 3339, in UTC, as `2026-11-29T20:13:05.125Z`.
pub type TimeText = ArrayString<24>;

/// What stands in front of a line whose moment isn't known.
const UNKNOWN: &str = "--:--:--.--- ";

// A moment on the calendar, which ends in the year 9999.
fn timestamp_of(millis: u64) -> Option<Timestamp> {
    let millis = i64::try_from(millis).ok()?;
    Timestamp::from_millisecond(millis).ok()
}

/// A moment by RFC 3339; None where the calendar doesn't have it.
pub fn time_text(millis: u64) -> Option<TimeText> {
    let moment = timestamp_of(millis)?;
    let mut text = ArrayString::new();
    write!(text, "{moment:.3}").ok()?;
    Some(text)
}

/// A moment as a time of day of a zone. One that isn't known, or that the calendar doesn't have, is dashes.
pub fn clock_text(millis: Option<u64>, zone: &TimeZone<'_>) -> ClockText {
    let mut text = ArrayString::new();
    let _ = match millis.and_then(timestamp_of) {
        Some(moment) => {
            let time = zone.to_datetime(moment).time();
            write!(text, "{time:.3} ")
        }
        None => write!(text, "{UNKNOWN}"),
    };
    text
}
