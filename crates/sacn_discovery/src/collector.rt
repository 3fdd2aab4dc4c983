//! The lists of the sources whose pages came.

ghost use Rattle.std.specs.Prelude.{◌≡◌, ◌≤◌, ◌+◌, ◌<◌, IfOk, OnOk, OnErr, Some, true, false, List, length, filter};
ghost use Rattle.std.specs.Option.{option_map};
ghost use Rattle.std.specs.FinMap as map;
ghost use Rattle.sacn_discovery.specs.Storage.{AreSince, HoldsPage};
ghost use Rattle.sacn_discovery.specs.declared.source_pages.Standing.TheVariants.{Kept, Other, Begins};

use crate::fault::DiscoveryFault;
use crate::limits::FORGOTTEN_AFTER;
use crate::source_pages::{SourcePages, Standing};
use sacn_packets::PageView;
use std::alloc::{AllocError, Global};
use std::collections::BTreeMap;
use std::marker::Model;

/// Collects the pages of any number of sources, and gives the list of each.
///
/// Its value is a moment, the greatest that was handed in, and for each CID what is kept of its pages.
/// Each call first moves the clock to the greater of its moment and `now`, in milliseconds, and
/// forgets the sources whose latest page is `FORGOTTEN_AFTER` old or older.
#[derive(Drop)]
pub struct Collector {
    alloc: Global,
    sources: BTreeMap<[u8; 16], SourcePages>,
    moment: u64,
    /// No source's latest page came before this moment.
    earliest: u64,
}

impl Model for Collector {
    ghost use Rattle.sacn_discovery.specs.Collection.{State, state_code};

    ghost Value = { State };

    ghost coded = { state_code };

    ghost use Rattle.std.specs.Prelude.{◌≤◌};
    ghost use Rattle.sacn_discovery.specs.Storage.{sources_of, AreStored, AreSince};

    ghost view = { λ c. record { sources = sources_of c.sources.entries; moment = c.moment } };

    ghost invariant = { λ c. AreStored c.sources.entries × (c.earliest ≤ c.moment)
        × AreSince c.earliest c.sources.entries };
}

impl Collector {
    ghost use Rattle.sacn_discovery.specs.Lists.{forgotten};
    ghost use Rattle.sacn_discovery.specs.Collection.{nothing_known, is_fresh, after_expire, after_take, after_acceptance, goes_on, known_list, other_than, with_source, with_page};

    /// A collector that knows nothing.
    pub fn new(alloc: Global) -> Self
        ensures { result ≡ nothing_known }
    {
        Collector {
            alloc,
            sources: BTreeMap::new(alloc),
            moment: 0,
            earliest: 0,
        }
    }

    /// Keeps a page. One with another last page number drops the pages that its source had.
    ///
    /// Errors: OutOfMemory, and then the page isn't kept.
    pub fn take(&mut self, now: u64, page: &PageView<'_>) -> Result<(), DiscoveryFault>
        ensures ok { OnOk result (self.new ≡ after_take now page.now self.old) }
        ensures err { OnErr result (self.new ≡ after_expire now self.old) }
    {
        self.take_and_tell(now, page)?;
        Ok(())
    }

    /// Keeps a page as `take` does, and says whether the list of its source may be another one than before: not where the page
    /// is the one that is kept, which costs as little as a look at it.
    ///
    /// Errors: OutOfMemory, and then the page isn't kept.
    pub fn take_and_tell(&mut self, now: u64, page: &PageView<'_>) -> Result<bool, DiscoveryFault>
        ensures ok { OnOk result (self.new ≡ after_take now page.now self.old) }
        ensures err { OnErr result (self.new ≡ after_expire now self.old) }
        ensures same { IfOk result (λ may_differ. may_differ ≡ false
            → known_list self.new page.now.cid
            ≡ known_list (after_expire now self.old) page.now.cid) }
    {
        self.expire(now);
        self.keep(page)
    }

    /// The list of a source, ascending and each number once; None where it isn't known, or a page of it
    /// is lacking.
    ///
    /// Errors: OutOfMemory.
    pub fn list_of(&mut self, now: u64, cid: &[u8; 16]) -> Result<Option<Vec<u16>>, DiscoveryFault>
        ensures list { IfOk result (λ list. option_map (λ v. v.items) list
            ≡ known_list (after_expire now self.old) cid.now) }
        ensures state { self.new ≡ after_expire now self.old }
    {
        self.expire(now);
        Ok(self.list_at(cid)?)
    }

    /// The list of a source, as `list_of` gives it, where it is another one than this. Where the pages in their
    /// order are the known list, none is made.
    ///
    /// Errors: OutOfMemory.
    pub fn other_list(
        &mut self,
        now: u64,
        cid: &[u8; 16],
        known: &[u16],
    ) -> Result<Option<Vec<u16>>, DiscoveryFault>
        ensures list { IfOk result (λ list. option_map (λ v. v.items) list
            ≡ other_than known.now (known_list (after_expire now self.old) cid.now)) }
        ensures state { self.new ≡ after_expire now self.old }
    {
        self.expire(now);
        Ok(self.other_at(cid, known)?)
    }

    /// Moves the clock, forgets the sources whose latest page is too old, and returns how many those were.
    pub fn expire(&mut self, now: u64) -> usize
        ensures gone { result + map.len self.new.sources ≡ map.len self.old.sources }
        ensures forgotten { result ≡ forgotten now self.old }
        ensures state { self.new ≡ after_expire now self.old }
    {
        let moment = self.moment.max(now);
        if moment.saturating_sub(self.earliest) < FORGOTTEN_AFTER {
            self.moment = moment;
            return 0;
        }
        self.forget(now)
    }

    // Moves the clock, looks at every source, and forgets those whose latest page is too old. Out of line, so that the test before
    // it is made in the caller.
    #[inline(never)]
    fn forget(&mut self, now: u64) -> usize
        ensures gone { result + map.len self.new.sources ≡ map.len self.old.sources }
        ensures forgotten { result ≡ forgotten now self.old }
        ensures state { self.new ≡ after_expire now self.old }
    {
        let before = self.count();
        self.moment = self.moment.max(now);
        self.sweep();
        before - self.count()
    }

    // How many sources are kept.
    fn count(&self) -> usize
        ensures { result ≡ map.len self.now.sources }
    {
        self.sources.len()
    }

    // Forgets what is too old at the moment that the clock shows.
    fn sweep(&mut self)
        ensures left { map.entries self.new.sources
            ≡ filter (λ e. is_fresh self.old.moment e.1) (map.entries self.old.sources) }
        ensures moment { self.new.moment ≡ self.old.moment }
    {
        let moment = self.moment;
        self.sources.retain(
            |_cid: &[u8; 16], heard: &mut SourcePages| -> bool
                ensures { (result ≡ is_fresh moment heard.old) × (heard.new ≡ heard.old) }
            { heard.is_fresh(moment) },
        );
        self.earliest = earliest_of(&self.sources, moment);
    }

    // Keeps the numbers of a page, and says whether the list of its source may be another one than before.
    fn keep(&mut self, page: &PageView<'_>) -> Result<bool, DiscoveryFault>
        ensures ok { OnOk result (self.new ≡ after_acceptance page.now self.old) }
        ensures err { OnErr result (self.new ≡ self.old) }
        ensures same { IfOk result (λ may_differ. may_differ ≡ false
            → known_list self.new page.now.cid ≡ known_list self.old page.now.cid) }
    {
        let cid = page.cid();
        match self.standing(&cid, page) {
            Standing::Kept => {
                self.renew(&cid, page);
                Ok(false)
            }
            Standing::Other => {
                let numbers = numbers_of(self.alloc, page)?;
                self.add(&cid, page.page(), page.last(), numbers);
                Ok(true)
            }
            Standing::Begins => {
                let numbers = numbers_of(self.alloc, page)?;
                self.begin(cid, page.page(), page.last(), numbers)?;
                Ok(true)
            }
        }
    }

    // What a page is beside those that are kept of its source.
    fn standing(&self, cid: &[u8; 16], page: &PageView<'_>) -> Standing
        ensures kept { result ≡ Kept
            → HoldsPage page.now (map.get self.now.sources cid.now) }
        ensures other { result ≡ Other
            → goes_on page.now.last (map.get self.now.sources cid.now) ≡ true }
        ensures begins { result ≡ Begins
            → goes_on page.now.last (map.get self.now.sources cid.now) ≡ false }
    {
        match self.sources.get(cid) {
            Some(heard) => heard.standing(page),
            None => Standing::Begins,
        }
    }

    // The page that is kept of a source came again.
    fn renew(&mut self, cid: &[u8; 16], page: &PageView<'_>)
        requires cid { cid.now ≡ page.now.cid }
        requires kept { HoldsPage page.now (map.get self.old.sources cid.now) }
        ensures state { self.new ≡ after_acceptance page.now self.old }
        ensures same { known_list self.new page.now.cid ≡ known_list self.old page.now.cid }
    {
        let moment = self.moment;
        match self.sources.get_mut(cid) {
            Some(heard) => heard.renew(moment),
            None => {}
        }
    }

    // Keeps one page more of a source that has pages of this last page number.
    fn add(&mut self, cid: &[u8; 16], page: u8, last: u8, numbers: Vec<u16>)
        requires page { page ≤ last }
        requires known { goes_on last (map.get self.old.sources cid.now) ≡ true }
        ensures { self.new ≡ with_source cid.now (with_page self.old.moment page last numbers.items
            (map.get self.old.sources cid.now)) self.old }
    {
        let moment = self.moment;
        match self.sources.get_mut(cid) {
            Some(heard) => heard.add(moment, page, numbers),
            None => {}
        }
    }

    // Keeps the first page of a source with this last page number.
    fn begin(
        &mut self,
        cid: [u8; 16],
        page: u8,
        last: u8,
        numbers: Vec<u16>,
    ) -> Result<(), DiscoveryFault>
        requires page { page ≤ last }
        requires other { goes_on last (map.get self.old.sources cid) ≡ false }
        ensures ok { OnOk result (self.new ≡ with_source cid (with_page self.old.moment page last
            numbers.items (map.get self.old.sources cid)) self.old) }
        ensures err { OnErr result (self.new ≡ self.old) }
    {
        let heard = SourcePages::begin(self.alloc, self.moment, page, last, numbers)?;
        let _ = self.sources.insert(cid, heard)?;
        Ok(())
    }

    // The list of a source, where all its pages are there.
    fn list_at(&self, cid: &[u8; 16]) -> Result<Option<Vec<u16>>, AllocError>
        ensures { IfOk result
            (λ list. option_map (λ v. v.items) list ≡ known_list self.now cid.now) }
    {
        match self.sources.get(cid) {
            Some(heard) => heard.list(self.alloc),
            None => Ok(None),
        }
    }

    // The list of a source, where all its pages are there and it is another one than this.
    fn other_at(&self, cid: &[u8; 16], known: &[u16]) -> Result<Option<Vec<u16>>, AllocError>
        ensures { IfOk result (λ list. option_map (λ v. v.items) list
            ≡ other_than known.now (known_list self.now cid.now)) }
    {
        match self.sources.get(cid) {
            Some(heard) => heard.other_list(self.alloc, known),
            None => Ok(None),
        }
    }
}

// A moment before which no latest page came, at most this one.
fn earliest_of(sources: &BTreeMap<[u8; 16], SourcePages>, moment: u64) -> u64
    ensures most { result ≤ moment }
    ensures since { AreSince result sources.now.entries }
{
    let mut earliest = moment;
    for heard in sources.values() {
        earliest = earliest.min(heard.moment());
    }
    earliest
}

// The numbers of a page.
fn numbers_of(alloc: Global, page: &PageView<'_>) -> Result<Vec<u16>, AllocError>
    ensures { IfOk result (λ numbers. numbers.items ≡ page.now.numbers) }
{
    let mut numbers = Vec::with_capacity(alloc, page.count())?;
    for i in 0..page.count() {
        numbers.push(page.number(i))?;
    }
    Ok(numbers)
}
