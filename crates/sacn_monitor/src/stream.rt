//! A source on a universe.

ghost use Rattle.std.specs.Prelude.{◌≡◌, bytes_eq, drop, take};
ghost use Rattle.std.specs.Int.{from_be_bytes, w64};
ghost use Rattle.sacn_monitor.specs.Accounts.{IsFitted, news_of};
ghost use Rattle.sacn_monitor.specs.Holdings.{light_end};
ghost use Rattle.sacn_monitor.specs.Rivals.{lights, priority_at};
ghost use Rattle.sacn_monitor.specs.Streams.{is_of, first_stream, stream_after, loss_of, falls_silent, state_of};

use crate::account::{Account, Endpoint};
use crate::news::News;
use sacn_packets::DataView;
use sacn_sources::NETWORK_DATA_LOSS;

/// Whether a source is there.
#[derive(Clone, Copy, Debug, PartialEq, Eq)]
pub enum StreamState {
    /// It sends.
    Sending,
    /// Its latest packet ended the stream (E1.31, 6.2.6).
    Ended,
    /// No packet of it was taken for 2500 ms (E1.31, 6.7.1).
    Lost,
}

/// A source on a universe, and what is known of it there.
#[derive(Clone, Copy, PartialEq, Eq)]
pub struct Stream {
    /// The universe, 1 to 63999 (E1.31, 6.2.7).
    pub universe: u16,
    /// The source's CID, a UUID (E1.31, 5.6).
    pub cid: [u8; 16],
    pub account: Account,
    /// Whether its loss was told since its latest packet.
    pub told: bool,
}

impl Stream {
    /// Whether the source sends, at a moment that is no earlier than its latest packet.
    pub fn state(&self, moment: u64) -> StreamState
        ensures { result ≡ state_of moment self.now }
    {
        if self.account.ended {
            return StreamState::Ended;
        }
        if self.account.is_fresh(moment) {
            StreamState::Sending
        } else {
            StreamState::Lost
        }
    }

    /// Whether a node holds levels of the source on this universe, at a moment that is no earlier than its latest packet: from a
    /// packet with levels for the stage on, until its stream ends, or 2500 ms after the latest such packet (E1.31, 6.7.1).
    pub fn lights(&self, universe: u16, moment: u64) -> bool
        ensures { result ≡ lights universe moment self.now }
    {
        // Most streams are of other universes, and nothing more is asked of these.
        if self.universe != universe {
            return false;
        }
        self.account.holding.light(moment).is_some()
    }

    /// The priority of the levels that a node holds of it at a moment (E1.31, 6.2.3), 0 where it holds none.
    pub fn priority_at(&self, moment: u64) -> u8
        ensures { result ≡ priority_at moment self.now }
    {
        match self.account.holding.light(moment) {
            Some(priority) => priority,
            None => 0,
        }
    }

    /// The moment at which its light goes out where no levels follow (E1.31, 6.7.1), if it lights its universe at another one;
    /// else `u64::MAX`.
    pub fn light_end(&self, moment: u64) -> u64
        ensures { result ≡ light_end moment self.now.account.holding }
    {
        self.account.holding.light_end(moment)
    }

    /// A stream whose first packet this is.
    pub(crate) fn begin(moment: u64, sender: Endpoint, packet: &DataView<'_>) -> Self
        ensures { result ≡ first_stream moment sender packet.now }
    {
        Stream {
            universe: packet.universe(),
            cid: packet.cid(),
            account: Account::begin(moment, sender, packet),
            told: false,
        }
    }

    /// Whether it is the stream of a source on a universe.
    pub(crate) fn is_of(&self, universe: u16, cid: &[u8; 16]) -> bool
        ensures { result ≡ is_of universe cid.now self.now }
    {
        (self.universe == universe) & is_same(&self.cid, cid)
    }

    /// A packet more. Returns what it tells that is new.
    pub(crate) fn hear(&mut self, moment: u64, sender: Endpoint, packet: &DataView<'_>) -> News
        requires { IsFitted self.old.account.name }
        ensures news { result ≡ news_of moment sender packet.now self.old.account }
        ensures stream { self.new ≡ stream_after moment sender packet.now self.old }
    {
        self.told = false;
        self.account.hear(moment, sender, packet)
    }

    /// The moment at which it is lost if it stays silent, where that wasn't told yet; else `u64::MAX`.
    pub(crate) fn loss(&self) -> u64
        ensures { result ≡ loss_of self.now }
    {
        if self.told | self.account.ended {
            u64::MAX
        } else {
            self.account.latest.saturating_add(NETWORK_DATA_LOSS)
        }
    }

    /// Whether it is lost at this moment, and that wasn't told yet.
    pub(crate) fn falls_silent(&self, moment: u64) -> bool
        ensures { result ≡ falls_silent moment self.now }
    {
        !(self.told | self.account.ended) & !self.account.is_fresh(moment)
    }
}

// Whether two CIDs are the same: eight octets at once, as a comparison of all octets in turn says it.
fn is_same(a: &[u8; 16], b: &[u8; 16]) -> bool
    ensures { result ≡ bytes_eq a.now b.now }
{
    (front(a) == front(b)) & (back(a) == back(b))
}

fn front(cid: &[u8; 16]) -> u64
    ensures { result ≡ from_be_bytes w64 (take 8 cid.now) }
{
    u64::from_be_bytes([
        cid[0], cid[1], cid[2], cid[3], cid[4], cid[5], cid[6], cid[7],
    ])
}

fn back(cid: &[u8; 16]) -> u64
    ensures { result ≡ from_be_bytes w64 (drop 8 cid.now) }
{
    u64::from_be_bytes([
        cid[8], cid[9], cid[10], cid[11], cid[12], cid[13], cid[14], cid[15],
    ])
}
