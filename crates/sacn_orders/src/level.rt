//! A level: a percent, or `full`.
ghost use Rattle.std.specs.Prelude.{◌≡◌, ◌≤◌, IfSome, map};
ghost use Rattle.sacn_files.specs.Words.{number_in};
ghost use Rattle.sacn_orders.specs.declared.limits.TheConstants.{FULL_HUNDREDTHS};
ghost use Rattle.sacn_orders.specs.Orders.{decimals_in, hundredths_in, level_in, level_of, level_said, percent_of};

use crate::fault::OrderFault;
use crate::limits::FULL_HUNDREDTHS;
use sacn_cues::FULL;
use sacn_files::words::number_in;

/// A whole number, at most a small limit.
fn small_in(limit: u64, digits: &str) -> Option<u64>
    ensures number { result ≡ number_in limit digits.now }
    ensures small { IfSome result (λ n. n ≤ limit) }
{
    number_in(limit, digits)
}

/// How many hundredths one decimal is, or two.
fn decimals_in(decimals: &str) -> Option<u64>
    ensures hundredths { result ≡ decimals_in decimals.now }
    ensures small { IfSome result (λ n. n ≤ 99) }
{
    match decimals.len() {
        1 => match small_in(9, decimals) {
            Some(tenths) => Some(tenths * 10),
            None => None,
        },
        2 => small_in(99, decimals),
        _ => None,
    }
}

/// Percents and hundredths of one together, unless they are more than all.
fn percent_of(percents: u64, hundredths: u64) -> Option<u64>
    requires percents { percents ≤ 100 }
    requires hundredths { hundredths ≤ 99 }
    ensures hundredths { result ≡ percent_of percents hundredths }
    ensures small { IfSome result (λ n. n ≤ FULL_HUNDREDTHS) }
{
    let all = percents * 100 + hundredths;
    if all <= FULL_HUNDREDTHS as u64 {
        Some(all)
    } else {
        None
    }
}

/// A percent in hundredths: 0 to 100, with one decimal or two behind a point, or with none and no point.
fn hundredths_in(piece: &str) -> Option<u64>
    ensures hundredths { result ≡ hundredths_in piece.now }
    ensures small { IfSome result (λ n. n ≤ FULL_HUNDREDTHS) }
{
    match piece.split_once('.') {
        Some((percents, decimals)) => {
            let percents = small_in(100, percents)?;
            let hundredths = decimals_in(decimals)?;
            percent_of(percents, hundredths)
        }
        None => {
            let percents = small_in(100, piece)?;
            percent_of(percents, 0)
        }
    }
}

/// The level of so many hundredths of a percent, rounded down.
fn level_of(hundredths: u64) -> u16
    requires { hundredths ≤ FULL_HUNDREDTHS }
    ensures { result ≡ level_of hundredths }
{
    (hundredths * FULL as u64 / FULL_HUNDREDTHS as u64) as u16
}

fn level_said(piece: &str) -> Result<u16, OrderFault>
    ensures { result ≡ level_said piece.now }
{
    match hundredths_in(piece) {
        Some(hundredths) => Ok(level_of(hundredths)),
        None => Err(OrderFault::Level),
    }
}

/// The level that stands behind `at`: `full`, or a percent, behind which `%` may stand.
///
/// Errors: `Level` for all else.
pub(crate) fn level_in(pieces: &[&str]) -> Result<u16, OrderFault>
    ensures { result ≡ level_in (map (λ w. w.now) pieces.now) }
{
    match pieces {
        [piece] => {
            if *piece == "full" {
                Ok(FULL)
            } else {
                level_said(piece)
            }
        }
        [piece, sign] => {
            if *sign == "%" {
                level_said(piece)
            } else {
                Err(OrderFault::Level)
            }
        }
        _ => Err(OrderFault::Level),
    }
}
