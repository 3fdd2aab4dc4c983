//! A page of universe discovery, lent out of the datagram that it was read from.

ghost use Rattle.std.specs.Prelude.{◌≡◌, ◌==◌, ◌<◌, ◌≤◌, length, slice_index};
ghost use Rattle.std.specs.List.{before_first};

use crate::framing::layers::{cid_in, name_field_in, name_in, packet_end};
use crate::framing::layout;
use crate::framing::names::up_to_nul;
use crate::root::layout::BODY_AT;
use crate::root::u16_at;
use std::marker::Model;

/// Where the fields stand among all octets of the packet.
const PAGE_AT: usize = BODY_AT + layout::PAGE_AT;

const LAST_AT: usize = BODY_AT + layout::LAST_PAGE_AT;

const NUMBERS_AT: usize = BODY_AT + layout::UNIVERSES_AT;

/// The most universe numbers of a page (E1.31, 8.5).
pub const PAGE_NUMBERS: usize = 512;

/// A page of universe discovery (E1.31, 6.4 and 8), lent out of the datagram that it was read from. It has the datagram's
/// octets, whose checks have passed, and reads each field where it stands.
///
/// Its value is the record `Page` of its fields. The reserved octets are ignored.
#[derive(Clone, Drop)]
pub struct PageView<'a> {
    pub(crate) octets: &'a [u8],
}

impl<'a> Model for PageView<'a> {
    ghost use Rattle.sacn_packets.specs.Page.{Page};

    ghost Value = { Page };

    ghost use Rattle.sacn_packets.specs.PageViews.{page_of_view, IsShown};

    ghost view = { page_of_view };

    ghost invariant = { IsShown };
}

impl<'a> PageView<'a> {
    /// The sender's component identifier, a UUID (5.6).
    pub fn cid(&self) -> [u8; 16]
        ensures { result ≡ self.now.cid }
    {
        cid_in(self.octets)
    }

    /// The source's name (6.4.2): the octets up to the first NUL, or all 64.
    pub fn name(&self) -> &'a [u8]
        ensures { result.now ≡ before_first (λ octet. octet == 0) self.now.name }
    {
        up_to_nul(name_in(self.octets))
    }

    /// The whole field of the source's name (6.4.2): the name's octets, and behind its first NUL whatever the sender left there.
    pub fn name_field(&self) -> &'a [u8; 64]
        ensures { result.now ≡ self.now.name }
    {
        name_field_in(self.octets)
    }

    /// The number of this page, from 0 to that of the last (8.3).
    pub fn page(&self) -> u8
        ensures page { result ≡ self.now.page }
        ensures bound { result ≤ self.now.last }
    {
        self.octets[PAGE_AT]
    }

    /// The number of the last page (8.4).
    pub fn last(&self) -> u8
        ensures { result ≡ self.now.last }
    {
        self.octets[LAST_AT]
    }

    /// How many universe numbers the page has, at most 512 (8.5).
    #[tactic(auto, using(crate::proofs::Numbers::length_numbers))]
    pub fn count(&self) -> usize
        ensures count { result ≡ length self.now.numbers }
        ensures bound { result ≤ 512 }
    {
        (packet_end(self.octets) - NUMBERS_AT) / 2
    }

    /// A universe number as it came, in any order and range (8.5).
    #[tactic(auto, using(crate::proofs::Numbers::length_numbers, crate::proofs::Numbers::number_at))]
    pub fn number(&self, i: usize) -> u16
        requires { i < length self.now.numbers }
        ensures { result ≡ slice_index self.now.numbers i }
    {
        u16_at(self.octets, NUMBERS_AT + 2 * i)
    }
}
