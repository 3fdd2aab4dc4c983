//! The universes that sources list (E1.31, 8).

ghost use Rattle.std.specs.Prelude.{◌≡◌, ◌==◌, ◌<◌, ◌++◌, ◌∷◌, [], IfErr, IfOk, None, OnOk, Some, false, length, map, slice_get, true, if◌then◌else◌};
ghost use Rattle.std.specs.Str.{bytes_eq};
ghost use Rattle.std.specs.List.{before_first, list_any, position};
ghost use Rattle.std.specs.Option.{is_some, option_and_then, option_map};
ghost use Rattle.sacn_discovery.specs.Collection.{after_expire, known_list};
ghost use Rattle.sacn_tell.specs.Lists.{beside};
ghost use Rattle.sacn_tell.specs.Lines.{kept_list};
ghost use Rattle.sacn_tell.specs.ListsOfPages.{AgreeWithPages};

use sacn_discovery::{Collector, DiscoveryFault};
use sacn_packets::PageView;
use std::alloc::Global;

/// The most sources whose lists are kept. Pages of further sources are counted alone.
pub const MAX_LISTINGS: usize = 256;

/// A source, and the latest list of universes of which all pages came.
#[derive(Drop)]
pub struct Listing {
    /// The source's CID, a UUID (E1.31, 5.6).
    pub cid: [u8; 16],
    /// The source's name in the latest page of that list (E1.31, 6.4.2), up to its NUL.
    pub name: Vec<u8>,
    /// Ascending, each once. None where no list came whole.
    pub universes: Option<Vec<u16>>,
}

/// What a page tells.
#[derive(Clone, Copy)]
pub enum PageNews {
    /// Nothing that is new.
    Nothing,
    /// The first list of its source.
    Appears,
    /// Another list than before.
    Changes,
}

/// The lists of up to `MAX_LISTINGS` sources.
#[derive(Drop)]
pub struct Listings {
    alloc: Global,
    collector: Collector,
    /// The CIDs of the sources, in the order of their first pages.
    sources: Vec<[u8; 16]>,
    /// Their lists, in the same order.
    known: Vec<Listing>,
    passed: u64,
    /// Memory was refused at a page, in the collector or behind it: so a list that is kept may be another one than the pages give.
    /// Else they agree.
    behind: bool,
    ghost paired: { length known.items ≡ length sources.items },
    ghost agrees: { behind ≡ false → AgreeWithPages sources.items (map kept_list known.items) collector },
}

impl Listings {
    ghost use Rattle.sacn_tell.specs.ListBooks.{after_heard, after_list, heard_news, list_at, list_book, news_in, page_news, with_pages, with_source};
    ghost use Rattle.sacn_tell.specs.ListBooks as books;
    ghost use Rattle.sacn_tell.specs.KeptLists.{after_page, collected, is_read, listed_in, listing_of, none_listed};

    /// No list yet.
    pub fn new(alloc: Global) -> Self
        ensures { listed_in result ≡ none_listed }
    {
        Listings {
            alloc,
            collector: Collector::new(alloc),
            sources: Vec::new(alloc),
            known: Vec::new(alloc),
            passed: 0,
            behind: false,
        }
    }

    pub fn alloc(&self) -> Global
        ensures { result ≡ self.now.alloc }
    {
        self.alloc
    }

    /// The sources in the order of their first pages.
    pub fn listings(&self) -> &[Listing]
        ensures { result.now ≡ self.now.known.items }
    {
        self.known.as_slice()
    }

    /// Pages of sources for which there was no room.
    pub fn pages_passed(&self) -> u64
        ensures { result ≡ (listed_in self.now).passed }
    {
        self.passed
    }

    /// The list of a source.
    pub fn of(&self, cid: &[u8; 16]) -> Option<&Listing>
        ensures listing { option_map (λ l. l.now) result ≡ listing_of cid.now self.now }
        ensures kept { option_map (λ l. kept_list l.now) result
            ≡ list_at cid.now (list_book self.now) }
    {
        match self.place_of(cid) {
            Some(place) => self.known.get(place),
            None => None,
        }
    }

    /// A page that came at a moment.
    ///
    /// Errors: OutOfMemory.
    pub fn take(&mut self, now: u64, page: &PageView<'_>) -> Result<PageNews, DiscoveryFault>
        ensures news { IfOk result (λ news. news ≡ page_news now page.now (list_book self.old)) }
        ensures book { OnOk result
            (list_book self.new ≡ books.after_page now page.now (list_book self.old)) }
        ensures listed { OnOk result
            (listed_in self.new ≡ after_page page.now.cid (listed_in self.old)) }
        ensures collector { OnOk result
            (self.new.collector ≡ (if is_read page.now.cid (listed_in self.old)
            then collected now page.now self.old.collector else self.old.collector)) }
    {
        let cid = page.cid();
        if let Some(place) = self.place_of(&cid) {
            return self.collect(place, now, page);
        }
        if self.sources.len() >= MAX_LISTINGS {
            self.passed = self.passed.saturating_add(1);
            return Ok(PageNews::Nothing);
        }
        let place = self.admit(cid)?;
        self.collect(place, now, page)
    }

    // The place of a source.
    fn place_of(&self, cid: &[u8; 16]) -> Option<usize>
        ensures place { result
            ≡ position (λ source. bytes_eq source cid.now) self.now.sources.items }
        ensures known { is_some result
            ≡ list_any (λ source. bytes_eq source cid.now) (listed_in self.now).sources }
    {
        place_in(&self.sources, cid)
    }

    // The place of a source of which no page came before. Where memory is refused nothing is kept of it.
    fn admit(&mut self, cid: [u8; 16]) -> Result<usize, DiscoveryFault>
        requires new { None ≡ position (λ source. bytes_eq source cid) self.old.sources.items }
        ensures place { IfOk result (λ place. Some place
            ≡ position (λ source. bytes_eq source cid) self.new.sources.items) }
        ensures sources { OnOk result
            ((listed_in self.new).sources ≡ (listed_in self.old).sources ++ cid ∷ []) }
        ensures passed { self.new.passed ≡ self.old.passed }
        ensures collector { self.new.collector ≡ self.old.collector }
        ensures book { OnOk result (list_book self.new ≡ with_source cid (list_book self.old)) }
        ensures refused { IfErr result (λ fault. list_book self.new ≡ list_book self.old) }
    {
        self.known.reserve(1)?;
        self.sources.reserve(1)?;
        let listing = Listing {
            cid,
            name: Vec::new(self.alloc),
            universes: None,
        };
        let place = self.sources.len();
        self.known.push_reserved(listing);
        self.sources.push_reserved(cid);
        Ok(place)
    }

    // A page of the source at a place. One that is kept already costs no look at its source's list, unless that may be another
    // one than the pages give.
    fn collect(
        &mut self,
        place: usize,
        now: u64,
        page: &PageView<'_>,
    ) -> Result<PageNews, DiscoveryFault>
        requires place { Some place
            ≡ position (λ source. bytes_eq source page.now.cid) self.old.sources.items }
        ensures news { IfOk result (λ news. news ≡ heard_news now page.now (list_book self.old)) }
        ensures book { OnOk result
            (list_book self.new ≡ after_heard now page.now (list_book self.old)) }
        ensures listed { listed_in self.new ≡ listed_in self.old }
        ensures collector { OnOk result
            (self.new.collector ≡ collected now page.now self.old.collector) }
    {
        let was_behind = self.behind;
        self.behind = true;
        let may_differ = self.collector.take_and_tell(now, page)?;
        if !(may_differ | was_behind) {
            self.collector.expire(now);
            self.behind = false;
            return Ok(PageNews::Nothing);
        }
        let news = self.compare(place, now, page)?;
        self.behind = was_behind;
        Ok(news)
    }

    // A page of the source at a place that the collector has.
    fn compare(
        &mut self,
        place: usize,
        now: u64,
        page: &PageView<'_>,
    ) -> Result<PageNews, DiscoveryFault>
        requires behind { self.old.behind ≡ true }
        requires place { Some place
            ≡ position (λ source. bytes_eq source page.now.cid) self.old.sources.items }
        ensures news { IfOk result (λ news. news ≡ news_in page.now.cid (known_list (after_expire now
            self.old.collector) page.now.cid) (list_book self.old)) }
        ensures book { OnOk result (list_book self.new ≡ after_list page.now.cid (before_first (λ octet.
            octet == 0) page.now.name) (known_list (after_expire now self.old.collector) page.now.cid)
            (with_pages (after_expire now self.old.collector) (list_book self.old))) }
        ensures listed { listed_in self.new ≡ listed_in self.old }
        ensures collector { OnOk result (self.new.collector ≡ after_expire now self.old.collector) }
    {
        let cid = page.cid();
        match self.new_list(place, now, &cid)? {
            Some(universes) => self.keep(place, &cid, page.name(), universes),
            None => Ok(PageNews::Nothing),
        }
    }

    // The whole list of the source at a place, where it is another one than the one that is kept, which would tell nothing: then
    // none is made.
    fn new_list(
        &mut self,
        place: usize,
        now: u64,
        cid: &[u8; 16],
    ) -> Result<Option<Vec<u16>>, DiscoveryFault>
        requires behind { self.old.behind ≡ true }
        requires place { Some place
            ≡ position (λ source. bytes_eq source cid.now) self.old.sources.items }
        ensures list { IfOk result (λ list. option_map (λ v. v.items) list
            ≡ beside (option_and_then (λ l. l.universes) (list_at cid.now (list_book self.old)))
            (known_list (after_expire now self.old.collector) cid.now)) }
        ensures book { list_book self.new
            ≡ with_pages (after_expire now self.old.collector) (list_book self.old) }
        ensures listed { listed_in self.new ≡ listed_in self.old }
        ensures collector { self.new.collector ≡ after_expire now self.old.collector }
        ensures behind { self.new.behind ≡ true }
    {
        let kept = listing_at(&self.known, place);
        list_beside(&mut self.collector, kept, now, cid)
    }

    // A whole list of the source at a place.
    fn keep(
        &mut self,
        place: usize,
        cid: &[u8; 16],
        name: &[u8],
        universes: Vec<u16>,
    ) -> Result<PageNews, DiscoveryFault>
        requires behind { self.old.behind ≡ true }
        requires place { Some place
            ≡ position (λ source. bytes_eq source cid.now) self.old.sources.items }
        ensures news { IfOk result
            (λ news. news ≡ news_in cid.now (Some universes.items) (list_book self.old)) }
        ensures book { OnOk result (list_book self.new
            ≡ after_list cid.now name.now (Some universes.items) (list_book self.old)) }
        ensures listed { listed_in self.new ≡ listed_in self.old }
        ensures collector { self.new.collector ≡ self.old.collector }
    {
        Listing::keep_at(self.alloc, &mut self.known, place, name, universes)
    }
}

// The place of a source among some.
fn place_in(sources: &[[u8; 16]], cid: &[u8; 16]) -> Option<usize>
    ensures { result ≡ position (λ source. bytes_eq source cid.now) sources.now }
{
    sources.iter().position(|source| *source == *cid)
}

// What is kept at a place.
fn listing_at(known: &[Listing], place: usize) -> Option<&Listing>
    ensures { option_map (λ l. kept_list l.now) result ≡ slice_get (map kept_list known.now) place }
{
    known.get(place)
}

// The whole list of a source, where it is another one than that of this listing.
fn list_beside(
    collector: &mut Collector,
    kept: Option<&Listing>,
    now: u64,
    cid: &[u8; 16],
) -> Result<Option<Vec<u16>>, DiscoveryFault>
    ensures list { IfOk result (λ list. option_map (λ v. v.items) list
        ≡ beside (option_and_then (λ l. l.universes) (option_map (λ l. kept_list l.now) kept.entry))
        (known_list (after_expire now collector.old) cid.now)) }
    ensures state { collector.new ≡ after_expire now collector.old }
{
    match kept {
        Some(listing) => listing.other_list(collector, now, cid),
        None => collector.list_of(now, cid),
    }
}

impl Listing {
    ghost use Rattle.sacn_tell.specs.ListBooks.{list_news, news_of, put_list, with_list};

    // A whole list of the source at a place.
    fn keep_at(
        alloc: Global,
        known: &mut [Listing],
        place: usize,
        name: &[u8],
        universes: Vec<u16>,
    ) -> Result<PageNews, DiscoveryFault>
        ensures news { IfOk result
            (λ news. news ≡ news_of universes.items (slice_get (map kept_list known.old) place)) }
        ensures lists { OnOk result (map kept_list known.new ≡ put_list name.now universes.items place
            (map kept_list known.old) (slice_get (map kept_list known.old) place)) }
    {
        if place >= known.len() {
            return Ok(PageNews::Nothing);
        }
        known[place].keep(alloc, name, universes)
    }

    // The whole list of a source, where it is another one than this.
    fn other_list(
        &self,
        collector: &mut Collector,
        now: u64,
        cid: &[u8; 16],
    ) -> Result<Option<Vec<u16>>, DiscoveryFault>
        ensures list { IfOk result (λ list. option_map (λ v. v.items) list
            ≡ beside (kept_list self.now).universes
            (known_list (after_expire now collector.old) cid.now)) }
        ensures state { collector.new ≡ after_expire now collector.old }
    {
        match &self.universes {
            Some(known) => collector.other_list(now, cid, known.as_slice()),
            None => collector.list_of(now, cid),
        }
    }

    // A whole list.
    fn keep(
        &mut self,
        alloc: Global,
        name: &[u8],
        universes: Vec<u16>,
    ) -> Result<PageNews, DiscoveryFault>
        ensures cid { self.new.cid ≡ self.old.cid }
        ensures news { IfOk result
            (λ news. news ≡ list_news (kept_list self.old).universes universes.items) }
        ensures list { OnOk result
            (kept_list self.new ≡ with_list name.now universes.items (kept_list self.old)) }
    {
        let news = match &self.universes {
            None => PageNews::Appears,
            Some(known) if known.as_slice() == universes.as_slice() => return Ok(PageNews::Nothing),
            Some(_) => PageNews::Changes,
        };
        self.name = name.to_vec(alloc)?;
        self.universes = Some(universes);
        Ok(news)
    }
}
