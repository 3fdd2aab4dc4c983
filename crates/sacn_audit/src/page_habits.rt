//! What a source's pages of universe discovery are like.

ghost use Rattle.std.specs.Prelude.{◌≡◌};
ghost use Rattle.sacn_audit.specs.UniverseLists.{awaited_since, heard_since, first_pages, is_without_list, pages_after, pages_beside};

use crate::breach::Breach;
use crate::limits::LONGEST_WITHOUT_LIST;
use crate::page_verdict::PageVerdict;
use sacn_sources::NETWORK_DATA_LOSS;

/// What a source's pages of universe discovery are like (E1.31, 8), by which it sends the list of its universes. Moments are in
/// milliseconds.
#[derive(Clone, Copy, PartialEq, Eq)]
pub struct PageHabits {
    /// The source is heard since this moment: that of its first packet or page, or of the first one after more than 12 s of silence.
    pub began: u64,
    /// A list is awaited since this moment: that of the latest page, or of the first packet after more than 2500 ms of silence, by
    /// which a source is lost (6.7.1), or of the first of all.
    pub awaited: u64,
    /// No list of universes for more than 12 s, which are the 10 s of E131_UNIVERSE_DISCOVERY_INTERVAL (4.3) and 2 s of slack. Broken at
    /// the first data packet that comes so late, once for each such time.
    pub no_list: Breach,
    /// A list that lacks a universe that is sent (4.3): a page tells of a universe and doesn't have it, and the source has sent it for more
    /// than 10 s without a silence of more than 2500 ms or an end, the latest packet at most 2500 ms before. A page tells of
    /// the universes from its first number to its last, the first page from 1 on, the last page up to 63999. Broken once a page.
    pub lacking: Breach,
    /// No breach, and told as seen: a page has a universe on which nothing was heard of the source for 12 s, while the source itself
    /// was. The place of recording may not have joined that universe's group. Told once a page.
    pub unheard: Breach,
}

impl PageHabits {
    /// Those of a source that is heard for the first time.
    pub(crate) fn first(moment: u64) -> Self
        ensures { result ≡ first_pages moment }
    {
        PageHabits {
            began: moment,
            awaited: moment,
            no_list: Breach::none(),
            lacking: Breach::none(),
            unheard: Breach::none(),
        }
    }

    /// A data packet, after a packet or page that came before it.
    pub(crate) fn hear(&mut self, moment: u64, before: u64)
        ensures { self.new ≡ pages_beside moment before self.old }
    {
        let was_told = is_without_list(before, self.awaited);
        self.awaited = self.awaited_since(moment, before);
        self.began = self.heard_since(moment, before);
        self.no_list
            .note_if(is_without_list(moment, self.awaited) & !was_told, moment);
    }

    /// A page, after a packet or page that came before it.
    pub(crate) fn hear_page(&mut self, moment: u64, before: u64, verdict: PageVerdict)
        ensures { self.new ≡ pages_after moment before verdict self.old }
    {
        self.began = self.heard_since(moment, before);
        self.awaited = moment;
        let is_known = moment.saturating_sub(self.began) > LONGEST_WITHOUT_LIST;
        self.lacking.note_if(verdict.lacks_universe, moment);
        self.unheard.note_if(verdict.has_unheard & is_known, moment);
    }

    fn heard_since(&self, moment: u64, before: u64) -> u64
        ensures { result ≡ heard_since moment before self.now }
    {
        if moment.saturating_sub(before) > LONGEST_WITHOUT_LIST {
            moment
        } else {
            self.began
        }
    }

    fn awaited_since(&self, moment: u64, before: u64) -> u64
        ensures { result ≡ awaited_since moment before self.now }
    {
        if moment.saturating_sub(before) > NETWORK_DATA_LOSS {
            moment
        } else {
            self.awaited
        }
    }
}

// Whether a list is awaited for too long.
fn is_without_list(moment: u64, awaited: u64) -> bool
    ensures { result ≡ is_without_list moment awaited }
{
    moment.saturating_sub(awaited) > LONGEST_WITHOUT_LIST
}
