//! A page of universe discovery, beside the streams of its source that are heard.

ghost use Rattle.std.specs.Prelude.{◌≡◌};
ghost use Rattle.std.specs.List.{list_any};
ghost use Rattle.sacn_audit.specs.UniverseLists.{begins_by, has_unheard, is_heard, is_left_out, is_sent, lacks_universe, leaves_universe_out, lists, reaches, verdict_of};

use crate::limits::{LIST_INTERVAL, LONGEST_WITHOUT_LIST};
use crate::stream_register::AuditedStream;
use sacn_packets::PageView;
use sacn_sources::NETWORK_DATA_LOSS;

/// What a page says beside the streams of its source that are heard.
#[derive(Clone, Copy, PartialEq, Eq)]
pub struct PageVerdict {
    /// It tells of a universe that the source sends, and doesn't have it.
    pub lacks_universe: bool,
    /// It has a universe on which nothing was heard of the source.
    pub has_unheard: bool,
}

impl PageVerdict {
    /// That of a page at a moment, beside these streams and so many packets of further ones: where there are any, it says nothing.
    pub(crate) fn of(
        moment: u64,
        page: &PageView<'_>,
        untracked: u64,
        streams: &[AuditedStream],
    ) -> Self
        ensures { result ≡ verdict_of moment page.now untracked streams.now }
    {
        let is_whole = untracked == 0;
        PageVerdict {
            lacks_universe: is_whole && lacks_universe(moment, page, streams),
            has_unheard: is_whole && has_unheard(moment, page, streams),
        }
    }
}

fn lacks_universe(moment: u64, page: &PageView<'_>, streams: &[AuditedStream]) -> bool
    ensures { result ≡ lacks_universe moment page.now streams.now }
{
    streams
        .iter()
        .any(|stream| is_left_out(moment, page, stream))
}

fn is_left_out(moment: u64, page: &PageView<'_>, stream: &AuditedStream) -> bool
    ensures { result ≡ is_left_out moment page.now stream.now }
{
    is_sent(moment, &page.cid(), stream) && leaves_universe_out(stream.universe, page)
}

// Whether a source has sent a stream for so long that a list has it.
fn is_sent(moment: u64, cid: &[u8; 16], stream: &AuditedStream) -> bool
    ensures { result ≡ is_sent moment cid.now stream.now }
{
    stream.cid == *cid
        && moment.saturating_sub(stream.began) > LIST_INTERVAL
        && moment.saturating_sub(stream.audit.moment()) <= NETWORK_DATA_LOSS
        && !stream.audit.is_ended()
}

// Whether a page tells of a universe and doesn't have it.
fn leaves_universe_out(universe: u16, page: &PageView<'_>) -> bool
    ensures { result ≡ leaves_universe_out universe page.now }
{
    begins_by(universe, page) && reaches(universe, page) && !lists(universe, page)
}

fn begins_by(universe: u16, page: &PageView<'_>) -> bool
    ensures { result ≡ begins_by universe page.now }
{
    page.page() == 0 || (page.count() > 0 && page.number(0) <= universe)
}

fn reaches(universe: u16, page: &PageView<'_>) -> bool
    ensures { result ≡ reaches universe page.now }
{
    page.page() == page.last() || (page.count() > 0 && universe <= page.number(page.count() - 1))
}

fn lists(universe: u16, page: &PageView<'_>) -> bool
    ensures { result ≡ lists universe page.now }
{
    for i in 0..page.count() {
        if page.number(i) == universe {
            return true;
        }
    }
    false
}

fn has_unheard(moment: u64, page: &PageView<'_>, streams: &[AuditedStream]) -> bool
    ensures { result ≡ has_unheard moment page.now streams.now }
{
    let cid = page.cid();
    for i in 0..page.count() {
        if !is_heard_on(moment, &cid, page.number(i), streams) {
            return true;
        }
    }
    false
}

fn is_heard_on(moment: u64, cid: &[u8; 16], universe: u16, streams: &[AuditedStream]) -> bool
    ensures { result ≡ list_any (is_heard moment cid.now universe) streams.now }
{
    streams
        .iter()
        .any(|stream| is_heard(moment, cid, universe, stream))
}

fn is_heard(moment: u64, cid: &[u8; 16], universe: u16, stream: &AuditedStream) -> bool
    ensures { result ≡ is_heard moment cid.now universe stream.now }
{
    stream.is_of(universe, cid)
        && moment.saturating_sub(stream.audit.moment()) <= LONGEST_WITHOUT_LIST
}
