//! What a source gives.
ghost use Rattle.std.specs.Prelude.{◌≡◌, ◌<◌, ◌≤◌, ◌++◌, drop, length};
ghost use Rattle.std.specs.Option.{option_map};
ghost use Rattle.sacn_console.specs.Core.{packet_text, page_of_length};
ghost use Rattle.sacn_source.specs.Table.{RowOk};
ghost use Rattle.sacn_source.specs.Source.{packet_of};
ghost use Rattle.sacn_source.specs.Wakes.{IsFirst, IsReached};

use super::SourceCore;
use crate::source_universe::SourceUniverse;
use sacn_console::limits::{DISCOVERY_INTERVAL, MAX_DATAGRAM};
use sacn_console::{Begun, DueDatagram, Sender};
use sacn_discovery::{page_count, write_page};
use sacn_packets::{DataFields, write_data};

impl SourceCore {
    ghost use Rattle.std.specs.Prelude.{Some, None, MatchOption, ℕ, is_some, true, ◌+◌, min};
    ghost use Rattle.sacn_console.specs.Wakes.{last_moment};
    ghost use Rattle.sacn_discovery.specs.Pages.{page_count as pages_of};
    ghost use Rattle.sacn_console.specs.Core.{due_datagram, over, size};
    ghost use Rattle.sacn_console.specs.Lines.{Packet, Paged};
    ghost use Rattle.sacn_source.specs.Table.{standing, row_at};
    ghost use Rattle.sacn_source.specs.Source.{row_found, packet_at, page_due, due, at, given, sent};

    /// The first moment at which something can be due as long as no call comes: 0 where something is
    /// due at the clock's moment, else that of the next packet or discovery page. No earlier poll
    /// gives anything.
    pub fn wakes(&self) -> u64
        ensures quiet { (t : ℕ) → t < result → due (at t self.now) ≡ None }
        ensures ahead { 0 < result → min (self.now.moment + 1) last_moment ≤ result }
        ensures exact { result < last_moment → is_some (due (at result self.now)) ≡ true }
    {
        let row = self.row_wake();
        row.min(self.page_wake())
    }

    // The same of data packets alone.
    fn row_wake(&self) -> u64
        ensures quiet { (t : ℕ) → t < result → row_found (at t self.now) ≡ None }
        ensures ahead { 0 < result → min (self.now.moment + 1) last_moment ≤ result }
        ensures exact { result < last_moment → is_some (row_found (at result self.now)) ≡ true }
    {
        if self.looks.rests_at(self.moment) {
            return self.least_wake();
        }
        match self.rows.first_due(self.looks.from, self.moment) {
            Some(_) => 0,
            None => self.rows.first_wake(),
        }
    }

    // The first moment at which a packet is due.
    fn least_wake(&self) -> u64
        ensures first { IsFirst self.now.table.rows result }
        ensures reached { IsReached self.now.table.rows result }
    {
        if self.looks.is_exact {
            self.looks.least
        } else {
            self.rows.first_wake()
        }
    }

    // The same of discovery pages alone.
    fn page_wake(&self) -> u64
        ensures quiet { (t : ℕ) → t < result → page_due (at t self.now) ≡ None }
        ensures ahead { 0 < result → min (self.now.moment + 1) last_moment ≤ result }
        ensures exact { result < last_moment → is_some (page_due (at result self.now)) ≡ true }
    {
        match self.cycle {
            None => 0,
            Some(begun) => {
                if begun.next < page_count(self.listed.len()) {
                    return 0;
                }
                if self.moment.saturating_sub(begun.moment) >= DISCOVERY_INTERVAL {
                    return 0;
                }
                begun.moment.saturating_add(DISCOVERY_INTERVAL)
            }
        }
    }

    // Gives the datagram that is due at the moment in use.
    pub(super) fn give(&mut self, out: &mut [u8; MAX_DATAGRAM]) -> Option<DueDatagram>
        ensures answer { result ≡ option_map due_datagram (due self.old) }
        ensures octets { out.new ≡ over self.old.sender (due self.old) out.old }
        ensures core { self.new ≡ given (due self.old) self.old }
    {
        match self.due_place() {
            Some(place) => Some(self.give_packet(place, out)),
            None => page_of_length(self.give_page(out)),
        }
    }

    // Where the first due universe stands. Where none is due, no poll looks again before the next is.
    fn due_place(&mut self) -> Option<usize>
        ensures core { self.new ≡ self.old }
        ensures found { MatchOption result (row_found self.old ≡ None)
            (λ i. (i < length self.old.table.rows)
            × (row_found self.old ≡ Some (row_at self.old.table i))) }
    {
        if self.looks.rests_at(self.moment) {
            return None;
        }
        match self.rows.first_due(self.looks.from, self.moment) {
            Some(place) => Some(place),
            None => {
                self.looks.least = self.rows.first_wake();
                self.looks.is_exact = true;
                None
            }
        }
    }

    // The packet of the universe at this place.
    fn give_packet(&mut self, place: usize, out: &mut [u8; MAX_DATAGRAM]) -> DueDatagram
        requires { place < length self.old.table.rows }
        ensures answer { result ≡ due_datagram (Packet (packet_at self.old place)) }
        ensures octets { out.new
            ≡ over self.old.sender (Some (Packet (packet_at self.old place))) out.old }
        ensures core { self.new
            ≡ sent self.old.moment (Packet (packet_at self.old place)) self.old }
    {
        let row = self.rows.at(place);
        let universe = row.line.universe;
        let len = write_packet(&self.sender, row, out);
        self.rows.note_packet(place, self.moment);
        self.looks = self.looks.passed(place);
        DueDatagram {
            len,
            universe: Some(universe),
        }
    }

    // The next page of the cycle, or the first of a new one.
    fn give_page(&mut self, out: &mut [u8; MAX_DATAGRAM]) -> Option<usize>
        ensures answer { result ≡ option_map size (option_map Paged (page_due self.old)) }
        ensures octets { out.new
            ≡ over self.old.sender (option_map Paged (page_due self.old)) out.old }
        ensures core { self.new ≡ given (option_map Paged (page_due self.old)) self.old }
    {
        match self.cycle {
            Some(begun) => self.give_later_page(begun, out),
            None => Some(self.write_first(out)),
        }
    }

    fn give_later_page(&mut self, begun: Begun, out: &mut [u8; MAX_DATAGRAM]) -> Option<usize>
        requires { self.old.cycle ≡ Some begun }
        ensures answer { result ≡ option_map size (option_map Paged (page_due self.old)) }
        ensures octets { out.new
            ≡ over self.old.sender (option_map Paged (page_due self.old)) out.old }
        ensures core { self.new ≡ given (option_map Paged (page_due self.old)) self.old }
    {
        if begun.next < page_count(self.listed.len()) {
            return Some(self.write_next(begun, out));
        }
        if self.moment.saturating_sub(begun.moment) < DISCOVERY_INTERVAL {
            return None;
        }
        Some(self.write_first(out))
    }

    // The first page of a new cycle.
    fn write_first(&mut self, out: &mut [u8; MAX_DATAGRAM]) -> usize
        ensures answer { result
            ≡ size (Paged (record { list = standing self.old.table.rows; page = 0 })) }
        ensures octets { out.new ≡ over self.old.sender
            (Some (Paged (record { list = standing self.old.table.rows; page = 0 }))) out.old }
        ensures core { self.new ≡ sent self.old.moment
            (Paged (record { list = standing self.old.table.rows; page = 0 })) self.old }
    {
        self.rows.list_standing(&mut self.listed);
        self.cycle = Some(Begun {
            moment: self.moment,
            next: 1,
        });
        write_page(
            self.listed.as_slice(),
            0,
            &self.sender.cid,
            &self.sender.name,
            out,
        )
    }

    // The next page of a cycle.
    fn write_next(&mut self, begun: Begun, out: &mut [u8; MAX_DATAGRAM]) -> usize
        requires begun { self.old.cycle ≡ Some begun }
        requires page { begun.next < pages_of (length self.old.listed) }
        requires fits { begun.next < usize.MAX }
        ensures answer { result
            ≡ size (Paged (record { list = self.old.listed; page = begun.next })) }
        ensures octets { out.new ≡ over self.old.sender
            (Some (Paged (record { list = self.old.listed; page = begun.next }))) out.old }
        ensures core { self.new ≡ sent self.old.moment
            (Paged (record { list = self.old.listed; page = begun.next })) self.old }
    {
        self.cycle = Some(Begun {
            moment: begun.moment,
            next: begun.next + 1,
        });
        write_page(
            self.listed.as_slice(),
            begun.next,
            &self.sender.cid,
            &self.sender.name,
            out,
        )
    }
}

// The page of so many octets, if there is one.
fn page_of_length(len: Option<usize>) -> Option<DueDatagram>
    ensures { result ≡ option_map page_of_length len }
{
    match len {
        Some(len) => Some(DueDatagram {
            len,
            universe: None,
        }),
        None => None,
    }
}

// Writes the packet of a universe at the front.
fn write_packet(sender: &Sender, row: &SourceUniverse, out: &mut [u8; MAX_DATAGRAM]) -> usize
    requires { RowOk row.now }
    ensures len { result ≡ 638 }
    ensures octets { out.new ≡ packet_text (packet_of sender.now row.now) ++ drop 638 out.old }
{
    let cid = sender.cid;
    let name = sender.name;
    let fields = DataFields {
        cid,
        name,
        priority: row.priority,
        number: row.line.sequence_number,
        preview: false,
        terminated: row.line.is_ending(),
        universe: row.line.universe,
        start: 0,
        slots: &row.levels[..],
    };
    let Some(front) = out.first_chunk_mut::<638>() else {
        unreachable!();
    };
    write_data(&fields, front)
}
