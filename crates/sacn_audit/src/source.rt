//! A source, over all its universes.

ghost use Rattle.std.specs.Prelude.{◌≡◌};
ghost use Rattle.sacn_audit.specs.Networks.{first_heard, first_source, is_elsewhere, is_from, source_after, source_after_page, source_at};

use crate::breach::Breach;
use crate::page_habits::PageHabits;
use crate::page_verdict::PageVerdict;
use crate::source_numbers::SourceNumbers;
use sacn_packets::{DataView, PageView};
use sacn_sources::NETWORK_DATA_LOSS;

/// A source, over all its universes. Moments are in milliseconds.
#[derive(Clone, Copy, PartialEq, Eq)]
pub struct SourceAudit {
    /// Its CID, a UUID (E1.31, 5.6).
    pub cid: [u8; 16],
    /// The field of its name in the latest packet or page (E1.31, 6.2.2), all 64 octets.
    pub name: [u8; 64],
    /// The IPv4 address that the latest packet or page came from.
    pub address: [u8; 4],
    /// The moment of the first packet or page.
    pub first: u64,
    /// The moment of the latest packet or page: the greatest that was handed in with one of these.
    pub moment: u64,
    /// One CID at two addresses at once (E1.31, 5.6: no other component has it). Broken at each packet or page that comes from another address
    /// than what came of this source before it, at most 2500 ms later, for as long as a silent source counts (6.7.1). So a source
    /// that moves breaks it once, and two devices with one CID do so again and again, as one device does that sends from two
    /// addresses.
    pub two_senders: Breach,
    /// The numbers of its packets, whatever universes they are on; none before its first packet with data.
    pub numbers: Option<SourceNumbers>,
    /// One counter for several universes (E1.31, 6.2.5 and 6.7: a sequence for each universe): eight packets of this source in a row
    /// are each on another universe than the packet before it and have the number after that one's. Broken at the eighth, and at each
    /// further one. Pages in between count for nothing.
    pub one_counter: Breach,
    /// What its pages of universe discovery are like.
    pub pages: PageHabits,
}

impl SourceAudit {
    /// A source whose first packet this is.
    pub(crate) fn begin(moment: u64, address: [u8; 4], packet: &DataView<'_>) -> Self
        ensures { result ≡ first_source moment address packet.now }
    {
        let heard = SourceAudit::first(moment, address, packet.cid(), *packet.name_field());
        SourceAudit {
            numbers: Some(SourceNumbers::first(packet)),
            ..heard
        }
    }

    /// A source whose first page of universe discovery came before any packet of it.
    pub(crate) fn begin_by_page(moment: u64, address: [u8; 4], page: &PageView<'_>) -> Self
        ensures { result ≡ first_heard moment address page.now.cid page.now.name }
    {
        SourceAudit::first(moment, address, page.cid(), *page.name_field())
    }

    fn first(moment: u64, address: [u8; 4], cid: [u8; 16], name: [u8; 64]) -> Self
        ensures { result ≡ first_heard moment address cid name }
    {
        SourceAudit {
            cid,
            name,
            address,
            first: moment,
            moment,
            two_senders: Breach::none(),
            numbers: None,
            one_counter: Breach::none(),
            pages: PageHabits::first(moment),
        }
    }

    /// One packet more.
    pub(crate) fn hear(&mut self, moment: u64, address: [u8; 4], packet: &DataView<'_>)
        ensures { self.new ≡ source_after moment address packet.now self.old }
    {
        let moment = moment.max(self.moment);
        let numbers = SourceNumbers::after(self.numbers, packet);
        self.one_counter.note_if(numbers.has_one_counter(), moment);
        self.numbers = Some(numbers);
        self.pages.hear(moment, self.moment);
        self.appear(moment, address, packet.name_field());
    }

    /// One page of universe discovery more, and what it says beside the streams that are heard.
    pub(crate) fn hear_page(
        &mut self,
        moment: u64,
        address: [u8; 4],
        page: &PageView<'_>,
        verdict: PageVerdict,
    )
        ensures { self.new ≡ source_after_page moment address page.now verdict self.old }
    {
        let moment = moment.max(self.moment);
        self.pages.hear_page(moment, self.moment, verdict);
        self.appear(moment, address, page.name_field());
    }

    // It is heard at a moment, from an address, under a name.
    fn appear(&mut self, moment: u64, address: [u8; 4], name: &[u8; 64])
        ensures { self.new ≡ source_at moment address name.now self.old }
    {
        let is_elsewhere = self.is_elsewhere(moment, &address);
        self.two_senders.note_if(is_elsewhere, moment);
        self.name = *name;
        self.address = address;
        self.moment = moment;
    }

    /// Whether it is this source.
    pub(crate) fn is_from(&self, cid: &[u8; 16]) -> bool
        ensures { result ≡ is_from cid.now self.now }
    {
        self.cid == *cid
    }

    // Whether a packet at this moment comes from another address, and so soon that the source has two at once.
    fn is_elsewhere(&self, moment: u64, address: &[u8; 4]) -> bool
        ensures { result ≡ is_elsewhere moment address.now self.now }
    {
        (self.address != *address) & (moment.saturating_sub(self.moment) <= NETWORK_DATA_LOSS)
    }
}
