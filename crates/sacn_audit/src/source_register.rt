//! The sources of a network.

ghost use Rattle.std.specs.Prelude.{◌≡◌, ◌<◌, ◌++◌, ◌∷◌, [], None, IfOk, if◌then◌else◌, length, nat_lt, slice_index_or, slice_set};
ghost use Rattle.sacn_audit.specs.declared.limits.TheConstants.{MAX_STREAMS};
ghost use Rattle.sacn_audit.specs.Networks.{is_known, place_from, source_after, source_after_page, sources_after, sources_after_page};

use crate::hints::{Hints, key_of};
use crate::limits::MAX_STREAMS;
use crate::page_verdict::PageVerdict;
use crate::source::SourceAudit;
use sacn_packets::{DataView, PageView};
use std::alloc::{AllocError, Global};
use std::marker::Model;

/// Up to `MAX_STREAMS` sources in the order in which they appeared, each once.
#[derive(Drop)]
pub(crate) struct SourceRegister {
    sources: Vec<SourceAudit>,
    hints: Hints,
}

impl Model for SourceRegister {
    ghost use Rattle.std.specs.Prelude.{List, ◌≤◌, vec_capacity};
    ghost use Rattle.sacn_audit.specs.declared.limits.TheConstants.{MAX_STREAMS};
    ghost use Rattle.sacn_audit.specs.declared.source.SourceAudit.{SourceAudit};
    ghost use Rattle.sacn_audit.specs.Networks.{AreApart};

    ghost Value = { List SourceAudit };

    ghost view = { λ r. r.sources.items };

    ghost invariant = { λ r. (MAX_STREAMS ≤ vec_capacity r.sources) × AreApart r.sources.items };
}

impl SourceRegister {
    /// No sources, with all its room taken in two requests.
    ///
    /// Errors: a request was refused.
    pub(crate) fn new(alloc: Global) -> Result<Self, AllocError>
        ensures { IfOk result (λ r. r ≡ []) }
    {
        Ok(SourceRegister {
            sources: Vec::with_capacity(alloc, MAX_STREAMS)?,
            hints: Hints::new(alloc)?,
        })
    }

    pub(crate) fn as_slice(&self) -> &[SourceAudit]
        ensures { result.now ≡ self.now }
    {
        self.sources.as_slice()
    }

    /// A packet: of a source that is there, or of a further one, where there is room. Returns whether there was.
    pub(crate) fn hear(&mut self, moment: u64, address: [u8; 4], packet: &DataView<'_>) -> bool
        ensures known { result ≡ is_known packet.now.cid self.old }
        ensures sources { self.new ≡ sources_after moment address packet.now self.old }
    {
        match self.place_from(&packet.cid()) {
            Some(at) => {
                self.hear_at(at, moment, address, packet);
                true
            }
            None => self.admit(SourceAudit::begin(moment, address, packet)),
        }
    }

    /// A page, likewise, and what it says beside the streams that are heard.
    pub(crate) fn hear_page(
        &mut self,
        moment: u64,
        address: [u8; 4],
        page: &PageView<'_>,
        verdict: PageVerdict,
    ) -> bool
        ensures known { result ≡ is_known page.now.cid self.old }
        ensures sources { self.new ≡ sources_after_page moment address page.now verdict self.old }
    {
        match self.place_from(&page.cid()) {
            Some(at) => {
                self.hear_page_at(at, moment, address, page, verdict);
                true
            }
            None => self.admit(SourceAudit::begin_by_page(moment, address, page)),
        }
    }

    /// The place of a source, as a look at all of them in turn finds it.
    pub(crate) fn place_from(&self, cid: &[u8; 16]) -> Option<usize>
        ensures { result ≡ place_from cid.now self.now }
    {
        let place = self.hints.guess(key_of(0, cid));
        if place < self.sources.len() && self.sources[place].is_from(cid) {
            return Some(place);
        }
        place_in(self.sources.as_slice(), cid)
    }

    // A packet of the source at a place.
    fn hear_at(&mut self, at: usize, moment: u64, address: [u8; 4], packet: &DataView<'_>)
        requires { at < length self.old }
        ensures { (s : SourceAudit) → self.new ≡ slice_set self.old at (source_after moment address packet.now (slice_index_or self.old at s)) }
    {
        self.sources[at].hear(moment, address, packet);
        self.hints.keep(key_of(0, &packet.cid()), at);
    }

    // A page of the source at a place.
    fn hear_page_at(
        &mut self,
        at: usize,
        moment: u64,
        address: [u8; 4],
        page: &PageView<'_>,
        verdict: PageVerdict,
    )
        requires { at < length self.old }
        ensures { (s : SourceAudit) → self.new ≡ slice_set self.old at (source_after_page moment address page.now verdict (slice_index_or self.old at s)) }
    {
        self.sources[at].hear_page(moment, address, page, verdict);
        self.hints.keep(key_of(0, &page.cid()), at);
    }

    // A source that is heard for the first time. Returns whether there was room for it.
    fn admit(&mut self, source: SourceAudit) -> bool
        requires { place_from source.cid self.old ≡ None }
        ensures known { result ≡ nat_lt (length self.old) MAX_STREAMS }
        ensures sources { self.new ≡ if nat_lt (length self.old) MAX_STREAMS then self.old ++ source ∷ [] else self.old }
    {
        if self.sources.len() >= MAX_STREAMS {
            return false;
        }
        self.push(source);
        true
    }

    // A source more, of a CID that no other has.
    fn push(&mut self, source: SourceAudit)
        requires room { length self.old < MAX_STREAMS }
        requires unknown { place_from source.cid self.old ≡ None }
        ensures { self.new ≡ self.old ++ source ∷ [] }
    {
        self.hints.keep(key_of(0, &source.cid), self.sources.len());
        self.sources.push_reserved(source);
    }
}

// The place of a source, by a look at all in turn.
fn place_in(sources: &[SourceAudit], cid: &[u8; 16]) -> Option<usize>
    ensures { result ≡ place_from cid.now sources.now }
{
    sources.iter().position(|source| source.is_from(cid))
}
