//! The universes of a source, by rising number.
ghost use Rattle.std.specs.Prelude.{◌≡◌, ◌<◌, ◌≤◌, ◌&&◌, nat_le, nat_lt, ℕ, List, [], ◌∷◌, ◌++◌, drop, find, insert, length, map, slice_index_or, slice_set, Some, None, MatchOption, IfSome, IfOk, IfErr};
ghost use Rattle.sacn_console.specs.declared.line.State.TheVariants as State;
ghost use Rattle.sacn_source.specs.declared.source_universe.SourceUniverse.{SourceUniverse as KeptRow};
ghost use Rattle.sacn_source.specs.Rows.{row_due, row_sent, row_in, row_ended, row_showing, row_prior, new_row, slots_of};
ghost use Rattle.sacn_source.specs.Table.{standing};
ghost use Rattle.sacn_source.specs.Wakes.{IsFirst, IsReached};
ghost use Rattle.sacn_console.specs.declared.limits.TheConstants.{CONSOLE_UNIVERSES, TERMINATIONS};

use crate::fault::SourceFault;
use crate::source_universe::SourceUniverse;
use arrayvec::ArrayVec;
use sacn_console::CONSOLE_UNIVERSES;
use sacn_packets::{MAX_PRIORITY, MAX_UNIVERSE, MIN_UNIVERSE, SLOTS};
use std::alloc::{AllocError, Global};
use std::marker::Model;

/// The universes, each with its levels and its priority. All memory is taken when they are made.
#[derive(Drop)]
pub(crate) struct SourceUniverses {
    rows: Vec<SourceUniverse>,
    room: usize,
}

impl Model for SourceUniverses {
    ghost use Rattle.std.specs.Prelude.{◌≤◌, vec_capacity};
    ghost use Rattle.sacn_source.specs.Table.{Table, TableOk};

    ghost Value = { Table };

    ghost view = { λ r. record { room = r.room; rows = r.rows.items } };

    ghost invariant = { λ r. (r.room ≤ vec_capacity r.rows) × TableOk (record { room = r.room; rows = r.rows.items }) };
}

impl SourceUniverses {
    ghost use Rattle.std.specs.List.{AllByRecursion};
    ghost use Rattle.sacn_packets.specs.Universe.{Rising};
    ghost use Rattle.sacn_source.specs.Table.{Table, RowOk, universes_of, row_at, is_of, answer, done, taken, changed, written, kept_or, room_answer, with_universe, Add, SetLevels, SetPriority, End, EndAll, rows_after};
    ghost use Rattle.sacn_source.specs.Rows.{end_answer, add_answer};
    ghost use Rattle.sacn_source.specs.declared.fault.SourceFault.TheVariants as fault;

    /// No universes, with room for so many.
    pub(crate) fn new(alloc: Global, room: usize) -> Result<Self, AllocError>
        requires { room ≤ CONSOLE_UNIVERSES }
        ensures { IfOk result (λ t. t ≡ record { room = room; rows = [] }) }
    {
        let rows = Vec::with_capacity(alloc, room)?;
        Ok(SourceUniverses { rows, room })
    }

    /// Begins a universe.
    pub(crate) fn add(&mut self, universe: u16, first: u8, priority: u8) -> Result<(), SourceFault>
        requires { priority ≤ 200 }
        ensures answer { result ≡ answer (Add universe) self.old }
        ensures table { self.new
            ≡ taken first priority (Add universe) (answer (Add universe) self.old) self.old }
    {
        if !is_universe(universe) {
            return Err(SourceFault::BadUniverse);
        }
        match self.search(universe) {
            Ok(place) => self.begin(place),
            Err(gap) => self.admit(gap, SourceUniverse::new(universe, first, priority)),
        }
    }

    /// Gives a universe other levels, and says where it is.
    pub(crate) fn set_levels(&mut self, universe: u16, levels: &[u8]) -> Result<usize, SourceFault>
        ensures answer { done result ≡ answer (SetLevels universe levels.now) self.old }
        ensures place { IfOk result (λ i. (i < length self.old.rows)
            × (self.new ≡ written i (row_showing (slots_of levels.now)) self.old)) }
        ensures refused { IfErr result (λ fault. self.new ≡ self.old) }
        ensures table { (first priority : ℕ) → self.new ≡ taken first priority
            (SetLevels universe levels.now) (answer (SetLevels universe levels.now) self.old)
            self.old }
    {
        let place = self.place_of(universe).ok_or(SourceFault::NoUniverse)?;
        if levels.len() > SLOTS {
            return Err(SourceFault::TooMany);
        }
        self.show(place, levels);
        Ok(place)
    }

    /// Gives a universe another priority.
    pub(crate) fn set_priority(&mut self, universe: u16, priority: u8) -> Result<(), SourceFault>
        ensures answer { result ≡ answer (SetPriority universe priority) self.old }
        ensures table { (first p : ℕ) → self.new ≡ taken first p
            (SetPriority universe priority) (answer (SetPriority universe priority) self.old)
            self.old }
    {
        let place = self.place_of(universe).ok_or(SourceFault::NoUniverse)?;
        if priority > MAX_PRIORITY {
            return Err(SourceFault::BadPriority);
        }
        self.prioritize(place, priority);
        Ok(())
    }

    /// Ends a universe.
    pub(crate) fn end(&mut self, universe: u16) -> Result<(), SourceFault>
        ensures answer { result ≡ answer (End universe) self.old }
        ensures table { (first p : ℕ) → self.new
            ≡ taken first p (End universe) (answer (End universe) self.old) self.old }
    {
        let place = self.place_of(universe).ok_or(SourceFault::NoUniverse)?;
        self.can_end(place)?;
        self.end_at(place);
        Ok(())
    }

    /// Ends all that run.
    pub(crate) fn end_all(&mut self)
        ensures { (first p : ℕ) → self.new
            ≡ record { room = self.old.room; rows = rows_after first p EndAll self.old.rows } }
    {
        end_rows(&mut self.rows);
    }

    /// All its universes, levels and priorities are lawful. This costs nothing.
    pub(crate) fn tell(&self)
        ensures { AllByRecursion RowOk self.now.rows }
    {
        let _count = self.rows.len();
    }

    /// Where the first universe from a place on stands whose packet is due at a moment.
    pub(crate) fn first_due(&self, from: usize, moment: u64) -> Option<usize>
        ensures { MatchOption result (find (row_due moment) (drop from self.now.rows) ≡ None)
            (λ i. (i < length self.now.rows)
            × (find (row_due moment) (drop from self.now.rows) ≡ Some (row_at self.now i))) }
    {
        first_due(&self.rows, from, moment)
    }

    /// The first moment at which a packet is due, as long as no call comes; the last that a clock
    /// can show where none is.
    pub(crate) fn first_wake(&self) -> u64
        ensures first { IsFirst self.now.rows result }
        ensures reached { IsReached self.now.rows result }
    {
        first_wake(&self.rows)
    }

    /// All of them, by rising number.
    pub(crate) fn as_slice(&self) -> &[SourceUniverse]
        ensures rows { result.now ≡ self.now.rows }
        ensures rising { Rising (universes_of self.now.rows) }
    {
        self.rows.as_slice()
    }

    /// The universe at a place.
    pub(crate) fn at(&self, place: usize) -> &SourceUniverse
        requires { place < length self.now.rows }
        ensures row { result.now ≡ row_at self.now place }
        ensures lawful { RowOk result.now }
    {
        &self.rows[place]
    }

    /// The packet of the universe at a place was sent.
    pub(crate) fn note_packet(&mut self, place: usize, moment: u64)
        requires { place < length self.old.rows }
        ensures { self.new ≡ changed place (row_sent moment) self.old }
    {
        let row = &mut self.rows[place];
        row.note_packet(moment);
    }

    /// Notes the universes that are not stopped.
    pub(crate) fn list_standing(&self, listed: &mut ArrayVec<u16, CONSOLE_UNIVERSES>)
        ensures listed { listed.new.items ≡ standing self.now.rows }
        ensures rising { Rising (standing self.now.rows) }
    {
        list_standing(&self.rows, listed);
    }

    // Where a universe is, or where it would go.
    fn search(&self, universe: u16) -> Result<usize, usize>
        ensures found { IfOk result (λ i. (i < length self.now.rows)
            × (find (is_of universe) self.now.rows ≡ Some (row_at self.now i))
            × ((row_at self.now i).line.universe ≡ universe)) }
        ensures absent { IfErr result (λ i. (i ≤ length self.now.rows)
            × (find (is_of universe) self.now.rows ≡ None)
            × ((n : KeptRow) → n.line.universe ≡ universe
            → insert self.now.rows i n ≡ with_universe n self.now.rows)) }
        ensures rising { Rising (universes_of self.now.rows) }
    {
        self.rows.binary_search_by_key(
            &universe,
            |row: &SourceUniverse| -> u16
                ensures { result ≡ row.now.line.universe }
            { row.line.universe },
        )
    }

    fn place_of(&self, universe: u16) -> Option<usize>
        ensures found { MatchOption result (find (is_of universe) self.now.rows ≡ None)
            (λ i. (i < length self.now.rows)
            × (find (is_of universe) self.now.rows ≡ Some (row_at self.now i))
            × ((row_at self.now i).line.universe ≡ universe)) }
    {
        if let Some(place) = self.guess(universe) {
            return Some(place);
        }
        match self.search(universe) {
            Ok(place) => Some(place),
            Err(_) => None,
        }
    }

    // Where a universe is, if none is missing between the first and it.
    fn guess(&self, universe: u16) -> Option<usize>
        ensures { IfSome result (λ i. (i < length self.now.rows)
            × (find (is_of universe) self.now.rows ≡ Some (row_at self.now i))
            × ((row_at self.now i).line.universe ≡ universe)) }
    {
        let first = self.rows.first()?.line.universe;
        let place = usize::from(universe.wrapping_sub(first));
        if place >= self.rows.len() {
            return None;
        }
        let row = &self.rows[place];
        if row.line.universe != universe {
            return None;
        }
        Some(place)
    }

    // A universe that is there begins again.
    fn begin(&mut self, place: usize) -> Result<(), SourceFault>
        requires { place < length self.old.rows }
        ensures answer { result ≡ add_answer (row_at self.old place).line.state }
        ensures table { self.new
            ≡ kept_or (add_answer (row_at self.old place).line.state) (record {
              room = self.old.room;
              rows = slice_set self.old.rows place
                  (row_in (State.Running None) (row_at self.old place));
            }) self.old }
    {
        self.can_begin(place)?;
        let row = &mut self.rows[place];
        row.begin();
        Ok(())
    }

    fn can_begin(&self, place: usize) -> Result<(), SourceFault>
        requires { place < length self.now.rows }
        ensures { result ≡ add_answer (row_at self.now place).line.state }
    {
        self.rows[place].can_begin()
    }

    fn can_end(&self, place: usize) -> Result<(), SourceFault>
        requires { place < length self.now.rows }
        ensures { result ≡ end_answer (row_at self.now place).line.state }
    {
        self.rows[place].can_end()
    }

    fn has_room(&self) -> bool
        ensures { result ≡ nat_lt (length self.now.rows) self.now.room }
    {
        self.rows.len() < self.room
    }

    // A universe begins that isn't there.
    fn admit(&mut self, gap: usize, row: SourceUniverse) -> Result<(), SourceFault>
        requires there { gap ≤ length self.old.rows }
        requires gap { insert self.old.rows gap row ≡ with_universe row self.old.rows }
        requires row { RowOk row }
        ensures answer { result ≡ room_answer self.old }
        ensures table { self.new ≡ kept_or (room_answer self.old)
            (record { room = self.old.room; rows = with_universe row self.old.rows }) self.old }
    {
        if !self.has_room() {
            return Err(SourceFault::Full);
        }
        let Ok(()) = self.rows.insert(gap, row) else {
            unreachable!();
        };
        Ok(())
    }

    fn show(&mut self, place: usize, levels: &[u8])
        requires there { place < length self.old.rows }
        requires few { length levels.now ≤ 512 }
        ensures changed { self.new ≡ changed place (row_showing (slots_of levels.now)) self.old }
        ensures written { self.new ≡ written place (row_showing (slots_of levels.now)) self.old }
    {
        let row = &mut self.rows[place];
        row.show(levels);
    }

    fn prioritize(&mut self, place: usize, priority: u8)
        requires there { place < length self.old.rows }
        requires least { priority ≤ 200 }
        ensures { self.new ≡ changed place (row_prior priority) self.old }
    {
        let row = &mut self.rows[place];
        row.set_priority(priority);
    }

    fn end_at(&mut self, place: usize)
        requires { place < length self.old.rows }
        ensures { self.new ≡ changed place (row_in (State.Ending TERMINATIONS)) self.old }
    {
        let row = &mut self.rows[place];
        row.end();
    }
}

// Whether a universe carries data (E1.31, 6.2.7).
fn is_universe(universe: u16) -> bool
    ensures { result ≡ (nat_le 1 universe && nat_le universe 63999) }
{
    MIN_UNIVERSE <= universe && universe <= MAX_UNIVERSE
}

// Where the first universe from a place on stands whose packet is due at a moment.
fn first_due(rows: &[SourceUniverse], from: usize, moment: u64) -> Option<usize>
    ensures { MatchOption result (find (row_due moment) (drop from rows.now) ≡ None)
        (λ i. (i < length rows.now) × ((d : KeptRow)
        → find (row_due moment) (drop from rows.now) ≡ Some (slice_index_or rows.now i d))) }
{
    for place in from..rows.len() {
        let row = &rows[place];
        if row.is_due(moment) {
            return Some(place);
        }
    }
    None
}

#[tactic(auto, using(crate::proofs::Searches::standing_past, crate::proofs::Searches::standing_more, crate::proofs::Searches::standing_all))]
// Notes the universes that are not stopped.
fn list_standing(rows: &[SourceUniverse], listed: &mut ArrayVec<u16, CONSOLE_UNIVERSES>)
    requires { length rows.now ≤ CONSOLE_UNIVERSES }
    ensures { listed.new.items ≡ standing rows.now }
{
    listed.clear();
    for place in 0..rows.len() {
        let row = &rows[place];
        if row.line.is_stopped() {
            continue;
        }
        listed.push(row.line.universe);
    }
}

// Ends all that run.
fn end_rows(rows: &mut [SourceUniverse])
    ensures { rows.new ≡ map row_ended rows.old }
{
    for place in 0..rows.len() {
        let row = &mut rows[place];
        row.end_running();
    }
}

// The first moment at which one of these is due; the last that a clock can show where none is.
fn first_wake(rows: &[SourceUniverse]) -> u64
    ensures first { IsFirst rows.now result }
    ensures reached { IsReached rows.now result }
{
    let mut first = u64::MAX;
    for place in 0..rows.len() {
        let row = &rows[place];
        let wake = row.wake();
        if wake < first {
            first = wake;
        }
    }
    first
}
