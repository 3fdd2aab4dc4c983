//! What is kept of one source of pages.

ghost use Rattle.std.specs.Prelude.{◌≡◌, ◌≤◌, ◌+◌, ◌-◌, ◌^◌, ◌<◌, ◌==◌, ◌↔◌, length, min, replicate, slice_set, true, false, IfOk, IsTrue, None, Some};
ghost use Rattle.std.specs.List.Sorted.{IsStrictlyIncreasing};
ghost use Rattle.std.specs.Option.{option_map};
ghost use Rattle.sacn_discovery.specs.SourceViews.{pages_of};
ghost use Rattle.sacn_discovery.specs.Storage.{HoldsPage};
ghost use Rattle.sacn_discovery.specs.declared.source_pages.Standing.TheVariants.{Kept, Other, Begins};
ghost use Rattle.sacn_discovery.specs.Collection.{first_page, one_more, is_fresh, ascending, joined, list_in, other_than};

use crate::limits::FORGOTTEN_AFTER;
use sacn_packets::PageView;
use std::alloc::{AllocError, Global};
use std::marker::Model;

/// What a page is beside those that are kept of its source.
#[derive(Clone, Copy)]
pub enum Standing {
    /// The one that is kept.
    Kept,
    /// One more of the same last page number, or other numbers of a page.
    Other,
    /// The first of its last page number.
    Begins,
}

/// The latest copy of each page, by page number.
#[derive(Drop)]
pub struct SourcePages {
    last: u8,
    pages: Vec<Option<Vec<u16>>>,
    moment: u64,
}

impl Model for SourcePages {
    ghost use Rattle.std.specs.Prelude.{◌≡◌, ◌+◌, length};
    ghost use Rattle.sacn_discovery.specs.Collection.{Known, known_code};
    ghost use Rattle.sacn_discovery.specs.SourceViews.{pages_of};

    ghost Value = { Known };

    ghost coded = { known_code };

    ghost view = { λ h. record { last = h.last; pages = pages_of h.pages.items; moment = h.moment } };

    ghost invariant = { λ h. length h.pages.items ≡ h.last + 1 };
}

impl SourcePages {
    /// A source of one page.
    pub fn begin(
        alloc: Global,
        moment: u64,
        page: u8,
        last: u8,
        numbers: Vec<u16>,
    ) -> Result<SourcePages, AllocError>
        requires { page ≤ last }
        ensures { IfOk result (λ heard. heard ≡ first_page moment page last numbers.items) }
    {
        let mut pages = no_pages(alloc, last as usize + 1)?;
        pages[page as usize] = Some(numbers);
        Ok(SourcePages {
            last,
            pages,
            moment,
        })
    }

    /// Keeps one page more.
    pub fn add(&mut self, moment: u64, page: u8, numbers: Vec<u16>)
        requires { page ≤ self.old.last }
        ensures { self.new ≡ one_more moment page numbers.items self.old }
    {
        self.pages[page as usize] = Some(numbers);
        self.moment = moment;
    }

    /// A page that is kept came again.
    pub fn renew(&mut self, now: u64)
        ensures { self.new ≡ record self.old { moment = now } }
    {
        self.moment = now;
    }

    /// What a page is beside those that are kept.
    pub fn standing(&self, page: &PageView<'_>) -> Standing
        ensures kept { result ≡ Kept → HoldsPage page.now (Some self.now) }
        ensures other { result ≡ Other → (self.now.last == page.now.last) ≡ true }
        ensures begins { result ≡ Begins → (self.now.last == page.now.last) ≡ false }
    {
        if self.last != page.last() {
            return Standing::Begins;
        }
        if self.has(page) {
            return Standing::Kept;
        }
        Standing::Other
    }

    // Whether a page is the kept one.
    fn has(&self, page: &PageView<'_>) -> bool
        requires { self.now.last ≡ page.now.last }
        ensures { IsTrue result
            → slice_set self.now.pages page.now.page (Some page.now.numbers) ≡ self.now.pages }
    {
        match &self.pages[page.page() as usize] {
            Some(numbers) => has_numbers(page, numbers.as_slice()),
            None => false,
        }
    }

    /// The moment of the latest page.
    pub fn moment(&self) -> u64
        ensures { result ≡ self.now.moment }
    {
        self.moment
    }

    /// Whether the latest page isn't too old.
    pub fn is_fresh(&self, moment: u64) -> bool
        ensures { result ≡ is_fresh moment self.now }
    {
        moment.saturating_sub(self.moment) < FORGOTTEN_AFTER
    }

    /// The numbers of all pages, ascending, each once. None where a page is lacking.
    pub fn list(&self, alloc: Global) -> Result<Option<Vec<u16>>, AllocError>
        ensures { IfOk result (λ list. option_map (λ v. v.items) list ≡ list_in self.now) }
    {
        let found = all_numbers(alloc, self.pages.as_slice())?;
        match found {
            Some(numbers) => Ok(Some(in_order(numbers))),
            None => Ok(None),
        }
    }

    /// That list, where it is another one than this.
    pub fn other_list(&self, alloc: Global, known: &[u16]) -> Result<Option<Vec<u16>>, AllocError>
        ensures { IfOk result (λ list. option_map (λ v. v.items) list
            ≡ other_than known.now (list_in self.now)) }
    {
        if self.lists(known) {
            return Ok(None);
        }
        let list = self.list(alloc)?;
        Ok(another(list, known))
    }

    // Whether the pages are these numbers, one page behind the other, and these rise: then they are the list,
    // and it needn't be made to see so.
    fn lists(&self, known: &[u16]) -> bool
        ensures { IsTrue result → list_in self.now ≡ Some known.now }
    {
        if !are_joined(self.pages.as_slice(), known) {
            return false;
        }
        rises(known)
    }
}

// Whether these are the numbers of a page.
fn has_numbers(page: &PageView<'_>, numbers: &[u16]) -> bool
    ensures { IsTrue result → numbers.now ≡ page.now.numbers }
{
    if numbers.len() != page.count() {
        return false;
    }
    for i in 0..numbers.len() {
        if numbers[i] != page.number(i) {
            return false;
        }
    }
    true
}

// So many places for pages, all empty.
fn no_pages(alloc: Global, count: usize) -> Result<Vec<Option<Vec<u16>>>, AllocError>
    ensures pages { IfOk result (λ pages. pages.items ≡ replicate count None) }
{
    let mut pages = Vec::with_capacity(alloc, count)?;
    for _ in 0..count {
        pages.push(None)?;
    }
    Ok(pages)
}

// How many numbers all pages have, where every page is there.
fn count_of(pages: &[Option<Vec<u16>>]) -> Option<usize>
    ensures { result ≡ option_map (λ numbers. min (length numbers) (2 ^ 64 - 1)) (joined (pages_of pages.now)) }
{
    let mut count: usize = 0;
    for i in 0..pages.len() {
        match &pages[i] {
            Some(numbers) => count = count.saturating_add(numbers.len()),
            None => return None,
        }
    }
    Some(count)
}

// The numbers of all pages in their order, where every page is there. Room is taken once, for all of them.
fn all_numbers(alloc: Global, pages: &[Option<Vec<u16>>]) -> Result<Option<Vec<u16>>, AllocError>
    ensures { IfOk result (λ found. option_map (λ v. v.items) found ≡ joined (pages_of pages.now)) }
{
    let Some(count) = count_of(pages) else {
        return Ok(None);
    };
    let mut numbers = Vec::with_capacity(alloc, count)?;
    for i in 0..pages.len() {
        if let Some(more) = &pages[i] {
            numbers.extend_from_slice(more.as_slice())?;
        }
    }
    Ok(Some(numbers))
}

// Ascending, each once. Numbers that rise already, as those of pages do, are left as they are; a look at the first few spares the one
// at all where they fall.
fn in_order(numbers: Vec<u16>) -> Vec<u16>
    ensures { result.items ≡ ascending numbers.items }
{
    let few = numbers.len().min(8);
    if rises(&numbers[..few]) && rises(numbers.as_slice()) {
        return numbers;
    }
    let mut numbers = numbers;
    numbers.sort_unstable();
    numbers.dedup();
    numbers
}

// Whether each number is below the next one. It looks at all of them, so that it can look at many at once.
fn rises(numbers: &[u16]) -> bool
    ensures { IsTrue result ↔ IsStrictlyIncreasing numbers.now }
{
    let mut rises = true;
    for i in 1..numbers.len() {
        rises &= numbers[i - 1] < numbers[i];
    }
    rises
}

// A list, where it is another one than this.
fn another(list: Option<Vec<u16>>, known: &[u16]) -> Option<Vec<u16>>
    ensures { option_map (λ v. v.items) result
        ≡ other_than known.now (option_map (λ v. v.items) list) }
{
    match list {
        Some(list) => {
            if list.as_slice() == known {
                return None;
            }
            Some(list)
        }
        None => None,
    }
}

// Whether these numbers are those of all pages in their order.
fn are_joined(pages: &[Option<Vec<u16>>], known: &[u16]) -> bool
    ensures { IsTrue result → joined (pages_of pages.now) ≡ Some known.now }
{
    let mut at: usize = 0;
    for i in 0..pages.len() {
        match &pages[i] {
            Some(numbers) => {
                if !known[at..].starts_with(numbers.as_slice()) {
                    return false;
                }
                at += numbers.len();
            }
            None => return false,
        }
    }
    at == known.len()
}
