//! A part of a selection: a channel or a span.
ghost use Rattle.std.specs.Prelude.{◌≡◌, map};
ghost use Rattle.std.specs.Char.{is_ascii_digit};
ghost use Rattle.std.specs.List.{list_all};
ghost use Rattle.sacn_orders.specs.Orders.{channel_in, ended, is_in, last_in, part_in, span_to};

use crate::fault::OrderFault;
use sacn_files::words::number_in;
use sacn_patch::MAX_CHANNELS;

/// The channels from `first` to `last`, which a selection adds or takes away.
#[derive(Clone, Copy, Debug, Default, PartialEq, Eq)]
pub struct Part {
    /// The lowest channel.
    pub first: u16,
    /// The highest channel.
    pub last: u16,
    /// Whether the channels are added. Else they are taken away.
    pub is_added: bool,
}

impl Part {
    /// Whether a channel is one of the part's.
    pub fn holds(&self, channel: u16) -> bool
        ensures { result ≡ is_in channel self.now }
    {
        self.first <= channel && channel <= self.last
    }
}

fn is_digit(octet: u8) -> bool
    ensures { result ≡ is_ascii_digit octet }
{
    octet.is_ascii_digit()
}

fn is_digits(piece: &str) -> bool
    ensures { result ≡ list_all is_ascii_digit piece.now }
{
    piece.as_bytes().iter().all(|octet| is_digit(*octet))
}

/// A channel's number, 1 to `MAX_CHANNELS`. Errors: `Word` where the piece isn't digits, else `Channel`.
fn channel_in(piece: &str) -> Result<u16, OrderFault>
    ensures { result ≡ channel_in piece.now }
{
    if !is_digits(piece) {
        return Err(OrderFault::Word);
    }
    match number_in(MAX_CHANNELS as u64, piece) {
        Some(channel) => {
            if channel == 0 {
                Err(OrderFault::Channel)
            } else {
                Ok(channel as u16)
            }
        }
        None => Err(OrderFault::Channel),
    }
}

/// A part's last channel, where nothing more stands in the part.
fn ended(channel: u16, pieces: &[&str]) -> Result<u16, OrderFault>
    ensures { result ≡ ended channel (map (λ w. w.now) pieces.now) }
{
    match pieces {
        [] => Ok(channel),
        _ => Err(OrderFault::Word),
    }
}

/// A span's last channel, by what stands behind `thru`.
fn span_to(first: u16, pieces: &[&str]) -> Result<u16, OrderFault>
    ensures { result ≡ span_to first (map (λ w. w.now) pieces.now) }
{
    match pieces {
        [] => Err(OrderFault::Word),
        [piece, rest @ ..] => {
            let last = channel_in(piece)?;
            if last < first {
                Err(OrderFault::Backwards)
            } else {
                ended(last, rest)
            }
        }
    }
}

/// A part's last channel, by what stands behind its first.
fn last_in(first: u16, pieces: &[&str]) -> Result<u16, OrderFault>
    ensures { result ≡ last_in first (map (λ w. w.now) pieces.now) }
{
    match pieces {
        [] => Ok(first),
        [piece, rest @ ..] => {
            if *piece == "thru" {
                span_to(first, rest)
            } else {
                Err(OrderFault::Word)
            }
        }
    }
}

/// The part that some pieces are: `N`, or `N thru M`.
///
/// Errors: `Word`, `Channel` and `Backwards`, the first in the order of the pieces.
pub(crate) fn part_in(is_added: bool, pieces: &[&str]) -> Result<Part, OrderFault>
    ensures { result ≡ part_in is_added (map (λ w. w.now) pieces.now) }
{
    match pieces {
        [] => Err(OrderFault::Word),
        [piece, rest @ ..] => {
            let first = channel_in(piece)?;
            let last = last_in(first, rest)?;
            Ok(Part {
                first,
                last,
                is_added,
            })
        }
    }
}
