//! A patch in one row.
ghost use Rattle.std.specs.Prelude.{◌≡◌, ◌+◌, ◌*◌, ◌<◌, ◌≤◌, ◌&&◌, nat_le, ℕ, length, slice_index_or, map, get_or, true, IfOk};
ghost use Rattle.sacn_packets.specs.declared.universe.TheConstants.{SLOTS};
ghost use Rattle.std.specs.Option.{ForSome};
ghost use Rattle.sacn_patch.specs.Flat.{Row, IsRowOfTree, AllBelow, AllFrom, IsStart, AreStarts, AreMarks, IsMark, IsThere, AreThere, is_within, mark_of, with_octet, with_run};

use crate::level::{LevelOf, RestOf};
use crate::part::{Part, byte_of, octet_place};
use sacn_packets::SLOTS;
use std::alloc::{AllocError, Global};
use std::marker::Model;

/// What a slot shows, for those that have the octets of all levels in one row, and how the entries
/// behind it go on, so that where channels are patched in a row a run of slots is one copy.
#[derive(Clone, Copy)]
pub(crate) struct Mark {
    pub(crate) slot: u16,
    // So many entries, this one the first, show on slots one after another octets a step apart.
    pub(crate) run: u8,
    pub(crate) step: u8,
    // Where the octet stands in that row.
    pub(crate) octet: u32,
}

// A shorter run is written entry by entry.
const LEAST_RUN: u8 = 8;

/// A patch that takes no more slots: its entries stand in one row, so that a frame costs little more
/// than its levels.
///
/// Its value is the same finite map as the patch's that it was made of.
#[derive(Drop)]
pub struct FlatPatch {
    // By universe, then by slot.
    row: Vec<((u16, u16), Part)>,
    // For each entry of the row its mark.
    marks: Vec<Mark>,
    // So many octets have those of all entries, where each entry stands on a slot.
    reach: Option<usize>,
    // For each universe up to the greatest one where it begins in the row, so that none is searched.
    starts: Vec<usize>,
}

impl Model for FlatPatch {
    ghost use Rattle.sacn_patch.specs.Patch.{Patched, patch_code};
    ghost use Rattle.std.specs.Option.{ForSome};
    ghost use Rattle.sacn_patch.specs.Flat.{IsRowOfTree, AreStarts, AreMarks, AreThere};

    ghost Value = { Patched };

    ghost coded = { patch_code };

    ghost use Rattle.std.specs.FinMap.{from_entries};

    ghost view = { λ p. from_entries p.row.items };

    ghost invariant = { λ p. IsRowOfTree p.row.items × AreMarks p.row.items p.marks.items × AreStarts p.row.items p.starts.items × ForSome p.reach (λ reach. AreThere reach p.marks.items) };
}

impl FlatPatch {
    ghost use Rattle.sacn_patch.specs.Patch.{universe_frame, EachShown};
    ghost use Rattle.sacn_patch.specs.Parts.{AreOctets};
    ghost use Rattle.std.specs.FinMap.{from_entries};

    /// A patch of these entries.
    pub(crate) fn of(alloc: Global, row: Vec<((u16, u16), Part)>) -> Result<Self, AllocError>
        requires { IsRowOfTree row.items }
        ensures { IfOk result (λ flat. flat ≡ from_entries row.items) }
    {
        let mut marks = marks_of(alloc, &row)?;
        join_runs(&mut marks);
        let reach = reach_of(&marks);
        let starts = starts_of(alloc, &row)?;
        Ok(FlatPatch {
            row,
            marks,
            reach,
            starts,
        })
    }

    /// Writes the slots of a universe as `Patch::fill` does. It asks for a level once for each slot that
    /// is patched in the universe.
    pub fn fill<L: LevelOf>(&self, universe: u16, levels: &L, slots: &mut [u8; SLOTS])
        ensures { slots.new ≡ universe_frame (L.level levels.now) self.now universe }
    {
        slots.fill(0);
        let row = self.row.as_slice();
        for place in start_of(row, universe as u32)..row.len() {
            let (at, part) = row[place];
            if universe < at.0 {
                return;
            }
            if is_within(at, universe) {
                slots[at.1 as usize - 1] = byte_of(part, levels.level_of(part.channel));
            }
        }
    }

    /// Writes the slots of a universe as `fill` does, of levels whose octets stand in one row: those of
    /// channel c at 2 c and 2 c + 1, the high one first, and none or 0 outside the channels. Where slots
    /// one after another show octets one after another, or every second one, it copies them at once,
    /// which writes what the entries one by one do.
    // (Out of line, so that its loop has all registers for itself.)
    #[inline(never)]
    pub fn fill_octets(&self, universe: u16, octets: &[u8], slots: &mut [u8; SLOTS])
        ensures { (level : ℕ → ℕ) → AreOctets level octets.now
            → slots.new ≡ universe_frame level self.now universe }
    {
        slots.fill(0);
        let row = self.row.as_slice();
        let starts = self.starts.as_slice();
        let marks = self.marks.as_slice();
        let start = start_in(starts, row, universe as u32);
        let end = start_in(starts, row, universe as u32 + 1);
        let are_there = are_there(marks, self.reach, octets);
        let mut place = start;
        while place < end {
            // The marks are those of this row.
            let _row = row;
            place += write_some(octets, marks[place], end - place, are_there, slots);
        }
    }

    /// Whether the level of each channel that the universe shows is known to stay. It looks no
    /// further than the first one of which it isn't.
    pub fn rests<R: RestOf>(&self, universe: u16, levels: &R) -> bool
        ensures { result ≡ true → EachShown self.now universe (R.stays levels.now) }
    {
        let row = self.row.as_slice();
        for place in start_of(row, universe as u32)..row.len() {
            let (at, part) = row[place];
            if at.0 > universe {
                return true;
            }
            if is_within(at, universe) {
                if !levels.rests(part.channel) {
                    return false;
                }
            }
        }
        true
    }
}

// Whether a place is a slot of the universe.
fn is_within(at: (u16, u16), universe: u16) -> bool
    ensures within { result ≡ is_within universe at }
    ensures range { result ≡ true → (1 ≤ at.1) × (at.1 ≤ SLOTS) }
{
    at.0 == universe && 1 <= at.1 && at.1 as usize <= SLOTS
}

// Whether this is the number of a slot.
fn is_slot(slot: u16) -> bool
    ensures slot { result ≡ (nat_le 1 slot && nat_le slot SLOTS) }
    ensures range { result ≡ true → (1 ≤ slot) × (slot ≤ SLOTS) }
{
    1 <= slot && slot as usize <= SLOTS
}

// The octet at a place, 0 past the end.
fn octet_at(octets: &[u8], place: u32) -> u8
    ensures { result ≡ get_or octets.now place 0 }
{
    if (place as usize) < octets.len() {
        octets[place as usize]
    } else {
        0
    }
}

// Whether each entry shows one of these octets on a slot.
fn are_there(marks: &[Mark], reach: Option<usize>, octets: &[u8]) -> bool
    requires { ForSome reach (λ r. AreThere r marks.now) }
    ensures { result ≡ true → AreThere (length octets.now) marks.now }
{
    match reach {
        Some(reach) => reach <= octets.len(),
        None => false,
    }
}

// Writes what some entries show, that of the mark the first, and says how many: those of a long run
// at once, else one.
fn write_some(
    octets: &[u8],
    mark: Mark,
    most: usize,
    is_there: bool,
    slots: &mut [u8; SLOTS],
) -> usize
    requires run { 1 ≤ mark.run }
    requires most { 1 ≤ most }
    requires there { is_there ≡ true → IsThere (length octets.now) mark }
    ensures some { 1 ≤ result }
    ensures run { result ≤ mark.run }
    ensures most { result ≤ most }
    ensures written { slots.new
        ≡ with_run octets.now mark.step result mark.slot mark.octet slots.old }
{
    if mark.run >= LEAST_RUN {
        return write_run(octets, mark, most, slots);
    }
    write_one(octets, mark, is_there, slots);
    1
}

// Writes what the entries of a run show, or the first of them where they pass an end. Out of line, so
// that the loop over single entries stays short.
#[inline(never)]
fn write_run(octets: &[u8], mark: Mark, most: usize, slots: &mut [u8; SLOTS]) -> usize
    requires run { 1 ≤ mark.run }
    requires most { 1 ≤ most }
    ensures some { 1 ≤ result }
    ensures run { result ≤ mark.run }
    ensures most { result ≤ most }
    ensures written { slots.new
        ≡ with_run octets.now mark.step result mark.slot mark.octet slots.old }
{
    if is_slot(mark.slot) {
        let count = (mark.run as usize).min(most);
        let slot = mark.slot as usize;
        let octet = mark.octet as usize;
        if slot + count <= SLOTS + 1 {
            if mark.step == 1 && octet + count <= octets.len() {
                copy_octets(octets, octet, count, slot, slots);
                return count;
            }
            if mark.step == 2 && octet + 2 * count <= octets.len() {
                copy_high_octets(octets, octet, count, slot, slots);
                return count;
            }
        }
    }
    write_one(octets, mark, false, slots);
    1
}

// Writes what the entry of the mark shows. Where it is known to be there, nothing is asked of it: two
// loads and a store.
fn write_one(octets: &[u8], mark: Mark, is_there: bool, slots: &mut [u8; SLOTS])
    requires { is_there ≡ true → IsThere (length octets.now) mark }
    ensures { slots.new ≡ with_octet octets.now mark.slot mark.octet slots.old }
{
    if is_there {
        slots[mark.slot as usize - 1] = octets[mark.octet as usize];
    } else if is_slot(mark.slot) {
        slots[mark.slot as usize - 1] = octet_at(octets, mark.octet);
    }
}

// Writes so many octets on slots one after another.
fn copy_octets(octets: &[u8], octet: usize, count: usize, slot: usize, slots: &mut [u8; SLOTS])
    requires slot { 1 ≤ slot }
    requires slots { slot + count ≤ SLOTS + 1 }
    requires octets { octet + count ≤ length octets.now }
    ensures { slots.new ≡ with_run octets.now 1 count slot octet slots.old }
{
    for done in 0..count {
        slots[slot - 1 + done] = octets[octet + done];
    }
}

// Writes every second of so many octets on slots one after another.
fn copy_high_octets(octets: &[u8], octet: usize, count: usize, slot: usize, slots: &mut [u8; SLOTS])
    requires slot { 1 ≤ slot }
    requires slots { slot + count ≤ SLOTS + 1 }
    requires octets { octet + 2 * count ≤ length octets.now }
    ensures { slots.new ≡ with_run octets.now 2 count slot octet slots.old }
{
    for done in 0..count {
        slots[slot - 1 + done] = octets[octet + 2 * done];
    }
}

// The mark of each entry.
fn marks_of(alloc: Global, row: &[((u16, u16), Part)]) -> Result<Vec<Mark>, AllocError>
    ensures { IfOk result (λ v. v.items ≡ map mark_of row.now) }
{
    let mut marks = Vec::new(alloc);
    for &(at, part) in row {
        marks.push(Mark {
            slot: at.1,
            run: 1,
            step: 0,
            octet: octet_place(part),
        })?;
    }
    Ok(marks)
}

// Has each mark tell of its run, from the last one back, so that each is looked at once.
fn join_runs(marks: &mut Vec<Mark>)
    ensures { (row : Row) → AreMarks row marks.old.items → AreMarks row marks.new.items }
{
    for behind in 1..marks.len() {
        let place = marks.len() - 1 - behind;
        marks[place] = joined(marks[place], marks[place + 1]);
    }
}

// The mark of the entry before the next one, with the next one's run where it is in step with it.
fn joined(mark: Mark, next: Mark) -> Mark
    ensures { (row : Row) (place : ℕ) → IsMark row place mark
        → IsMark row (place + 1) next → IsMark row place result }
{
    if next.slot as u32 != mark.slot as u32 + 1 {
        return mark;
    }
    // Octets further apart aren't copied at once.
    if next.octet <= mark.octet || 2 < next.octet - mark.octet {
        return mark;
    }
    let step = (next.octet - mark.octet) as u8;
    let run = if next.step == step {
        next.run.saturating_add(1)
    } else {
        2
    };
    Mark {
        slot: mark.slot,
        run,
        step,
        octet: mark.octet,
    }
}

// How many octets have those of all entries; None where one stands on no slot.
fn reach_of(marks: &[Mark]) -> Option<usize>
    ensures { ForSome result (λ reach. AreThere reach marks.now) }
{
    let mut reach = 0;
    for place in 0..marks.len() {
        if !is_slot(marks[place].slot) {
            return None;
        }
        reach = reach.max(marks[place].octet as usize + 1);
    }
    Some(reach)
}

// Where each universe begins in the row, up to the one after the greatest.
fn starts_of(alloc: Global, row: &[((u16, u16), Part)]) -> Result<Vec<usize>, AllocError>
    requires { IsRowOfTree row.now }
    ensures { IfOk result (λ v. AreStarts row.now v.items) }
{
    let mut starts = Vec::new(alloc);
    for universe in 0..universes_before(row) {
        starts.push(start_of(row, universe))?;
    }
    Ok(starts)
}

// How many numbers there are up to the one after the greatest universe.
fn universes_before(row: &[((u16, u16), Part)]) -> u32 {
    match row.last() {
        Some(&(at, _)) => at.0 as u32 + 2,
        None => 0,
    }
}

// Where a universe begins in the row.
fn start_in(starts: &[usize], row: &[((u16, u16), Part)], universe: u32) -> usize
    requires sorted { IsRowOfTree row.now }
    requires starts { AreStarts row.now starts.now }
    ensures { IsStart universe row.now result }
{
    if (universe as usize) < starts.len() {
        starts[universe as usize]
    } else {
        start_of(row, universe)
    }
}

// Where a universe begins in the row, by a search.
fn start_of(row: &[((u16, u16), Part)], universe: u32) -> usize
    requires { IsRowOfTree row.now }
    ensures below { AllBelow universe row.now result }
    ensures from { AllFrom universe row.now result }
    ensures bound { result ≤ length row.now }
{
    let mut low = 0;
    let mut high = row.len();
    while low < high {
        let middle = low + (high - low) / 2;
        let (at, _) = row[middle];
        if (at.0 as u32) < universe {
            low = middle + 1;
        } else {
            high = middle;
        }
    }
    low
}
