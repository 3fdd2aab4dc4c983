//! Moments: ticks of a clock to milliseconds.

ghost use Rattle.std.specs.Prelude.{◌≡◌, ◌<◌, ◌^◌, IfOk, IfSome, SomeIff};
ghost use Rattle.sacn_capture.specs.Clocks.{milliseconds, reading_units, shift_of, shifted};

use crate::faults::FaultKind;

/// Milliseconds in a second.
const MILLISECONDS: u128 = 1000;

/// The bit of a time resolution that says that it is a power of two.
const BINARY: u8 = 0x80;

/// Milliseconds in a second of a shift.
const SECOND: u64 = 1000;

/// From here on a number of 64 bits in two's complement is below 0.
const SIGN: u64 = 0x8000_0000_0000_0000;

/// How much later or earlier moments are than a clock's ticks say, in seconds.
#[derive(Clone, Copy)]
pub enum Shift {
    Later(u64),
    Earlier(u64),
}

/// The shift of so many seconds in two's complement.
pub fn shift_of(seconds: u64) -> Shift
    ensures { result ≡ shift_of seconds }
{
    if seconds < SIGN {
        return Shift::Later(seconds);
    }
    Shift::Earlier(u64::MAX - seconds + 1)
}

/// A moment in milliseconds, later or earlier; from 0 to 2^64 - 1.
pub fn shifted(shift: Option<Shift>, moment: u64) -> u64
    ensures { result ≡ shifted shift moment }
{
    match shift {
        None => moment,
        Some(Shift::Later(seconds)) => moment.saturating_add(seconds.saturating_mul(SECOND)),
        Some(Shift::Earlier(seconds)) => moment.saturating_sub(seconds.saturating_mul(SECOND)),
    }
}

/// So many ticks, of which `units` are a second, in whole milliseconds; at most 2^64 - 1.
pub fn milliseconds_of(ticks: u64, units: u64) -> u64
    requires { 0 < units }
    ensures { result ≡ milliseconds ticks units }
{
    let whole = ticks as u128 * MILLISECONDS / units as u128;
    if whole > u64::MAX as u128 {
        return u64::MAX;
    }
    whole as u64
}

/// The ticks of a second by the octet of `if_tsresol`: 10^n, or 2^n where the high bit is set, n being the other
/// seven.
///
/// Errors: Resolution where that is 2^64 or more.
pub fn units_in(resolution: u8) -> Result<u64, FaultKind>
    ensures units { result ≡ reading_units resolution }
    ensures some { IfOk result (λ units. 0 < units) }
{
    let units = if resolution < BINARY {
        power(10, u32::from(resolution))
    } else {
        power(2, u32::from(resolution - BINARY))
    };
    units.ok_or(FaultKind::Resolution)
}

// A power below 2^64.
fn power(base: u64, exponent: u32) -> Option<u64>
    requires { 0 < base }
    ensures value { SomeIff result (base ^ exponent < 2 ^ 64) (base ^ exponent) }
    ensures some { IfSome result (λ p. 0 < p) }
{
    base.checked_pow(exponent)
}
