//! What a console gives, and when it next has to.
ghost use Rattle.std.specs.Prelude.{◌≡◌, ◌<◌, ◌≤◌, ◌++◌, length, drop};
ghost use Rattle.std.specs.Option.{option_map};
ghost use Rattle.sacn_console.specs.Core.{packet_text, packet_with, page_of_length};

use super::{ConsoleCore, DueDatagram};
use crate::limits::{DISCOVERY_INTERVAL, MAX_DATAGRAM};
use crate::line::{Begun, UniverseLine};
use crate::sender::Sender;
use crate::universe_lines::{first_due, list_standing};
use sacn_cues::Player;
use sacn_discovery::{page_count, write_page};
use sacn_packets::{DataFields, SLOTS, write_data};

impl ConsoleCore {
    ghost use Rattle.std.specs.Prelude.{Some, None, MatchOption, ℕ, is_some, true, ◌+◌, min};
    ghost use Rattle.sacn_cues.specs.Playing.{is_still};
    ghost use Rattle.sacn_discovery.specs.Pages.{page_count as pages_of};
    ghost use Rattle.sacn_console.specs.Wakes.{last_moment};
    ghost use Rattle.sacn_console.specs.Lights.{frame};
    ghost use Rattle.sacn_console.specs.Core.{line_found, line_at, packet_at, page_due, standing, due, due_datagram, at, after, given, over, size};
    ghost use Rattle.sacn_console.specs.Lines.{Packet, Paged, Gave};

    /// The first moment at which something can be due as long as no command comes: 0 where something
    /// is due at the clock's moment, else a later one.
    ///
    /// While no fade runs it is that of the next repeat, termination, keep-alive packet or discovery
    /// page. While one runs it may be as early as the next moment. No earlier poll gives anything.
    pub fn wakes(&mut self) -> u64
        ensures core { self.new ≡ self.old }
        ensures quiet { (t : ℕ) → t < result → due (at t self.old) ≡ None }
        ensures ahead { 0 < result → min (self.old.moment + 1) last_moment ≤ result }
        ensures exact { is_still self.old.lights.player ≡ true → result < last_moment
            → is_some (due (at result self.old)) ≡ true }
    {
        let line = self.line_wake();
        line.min(self.page_wake())
    }

    // The same of data packets alone.
    fn line_wake(&mut self) -> u64
        ensures core { self.new ≡ self.old }
        ensures quiet { (t : ℕ) → t < result → line_found (at t self.old) ≡ None }
        ensures ahead { 0 < result → min (self.old.moment + 1) last_moment ≤ result }
        ensures exact { is_still self.old.lights.player ≡ true → result < last_moment
            → is_some (line_found (at result self.old)) ≡ true }
    {
        let mut slots = [0; SLOTS];
        let moment = self.moment;
        let still = self.player.is_still();
        let player = self.player.at(moment);
        let found = first_due(
            &self.lines,
            &mut self.wakes,
            &self.patch,
            &player,
            still,
            moment,
            &mut slots,
        );
        match found {
            Some(_) => 0,
            None => self.wakes.first(),
        }
    }

    // The same of discovery pages alone.
    fn page_wake(&self) -> u64
        ensures quiet { (t : ℕ) → t < result → page_due (at t self.now) ≡ None }
        ensures ahead { 0 < result → min (self.now.moment + 1) last_moment ≤ result }
        ensures exact { result < last_moment → is_some (page_due (at result self.now)) ≡ true }
    {
        match self.cycle {
            None => 0,
            Some(begun) => {
                if begun.next < page_count(self.listed.len()) {
                    return 0;
                }
                if self.moment.saturating_sub(begun.moment) >= DISCOVERY_INTERVAL {
                    return 0;
                }
                begun.moment.saturating_add(DISCOVERY_INTERVAL)
            }
        }
    }

    // Gives the datagram that is due at the moment in use.
    pub(super) fn give(&mut self, out: &mut [u8; MAX_DATAGRAM]) -> Option<DueDatagram>
        ensures answer { result ≡ option_map due_datagram (due self.old) }
        ensures octets { out.new ≡ over self.old.sender (due self.old) out.old }
        ensures core { self.new ≡ given (due self.old) self.old }
    {
        if self.moment < self.wakes.least() {
            return page_of_length(self.give_page(out));
        }
        let mut slots = [0; SLOTS];
        match self.due_place(&mut slots) {
            Some(place) => Some(self.give_packet(place, &slots, out)),
            None => page_of_length(self.give_page(out)),
        }
    }

    // Where the first due universe stands; its frame is then in `slots`.
    fn due_place(&mut self, slots: &mut [u8; SLOTS]) -> Option<usize>
        ensures core { self.new ≡ self.old }
        ensures found { MatchOption result (line_found self.old ≡ None)
            (λ i. (i < length self.old.lines) × (line_found self.old ≡ Some (line_at self.old i))
            × (slots.new ≡ frame self.old.lights (line_at self.old i).universe self.old.moment)) }
    {
        let moment = self.moment;
        let is_still = self.player.is_still();
        prepare(&mut self.player, is_still);
        let player = self.player.at(moment);
        first_due(
            &self.lines,
            &mut self.wakes,
            &self.patch,
            &player,
            is_still,
            moment,
            slots,
        )
    }

    // The packet of the universe at this place, of these slots.
    fn give_packet(
        &mut self,
        place: usize,
        slots: &[u8; SLOTS],
        out: &mut [u8; MAX_DATAGRAM],
    ) -> DueDatagram
        requires there { place < length self.old.lines }
        requires frame { slots.now
            ≡ frame self.old.lights (line_at self.old place).universe self.old.moment }
        ensures answer { result ≡ due_datagram (Packet (packet_at self.old place)) }
        ensures octets { out.new
            ≡ over self.old.sender (Some (Packet (packet_at self.old place))) out.old }
        ensures core { self.new
            ≡ after (Gave self.old.moment (Packet (packet_at self.old place))) self.old }
    {
        let moment = self.moment;
        let line = &mut self.lines[place];
        let universe = line.universe;
        let len = write_packet(&self.sender, line, slots, out);
        line.note_packet(moment, slots);
        let wake = line.wake_sent(self.player.is_still());
        self.wakes.put(place, wake);
        self.wakes.pass(place);
        DueDatagram {
            len,
            universe: Some(universe),
        }
    }

    // The next page of the cycle, or the first of a new one.
    fn give_page(&mut self, out: &mut [u8; MAX_DATAGRAM]) -> Option<usize>
        ensures answer { result ≡ option_map size (option_map Paged (page_due self.old)) }
        ensures octets { out.new
            ≡ over self.old.sender (option_map Paged (page_due self.old)) out.old }
        ensures core { self.new ≡ given (option_map Paged (page_due self.old)) self.old }
    {
        match self.cycle {
            Some(begun) => self.give_later_page(begun, out),
            None => Some(self.write_first(out)),
        }
    }

    fn give_later_page(&mut self, begun: Begun, out: &mut [u8; MAX_DATAGRAM]) -> Option<usize>
        requires { self.old.cycle ≡ Some begun }
        ensures answer { result ≡ option_map size (option_map Paged (page_due self.old)) }
        ensures octets { out.new
            ≡ over self.old.sender (option_map Paged (page_due self.old)) out.old }
        ensures core { self.new ≡ given (option_map Paged (page_due self.old)) self.old }
    {
        if begun.next < page_count(self.listed.len()) {
            return Some(self.write_next(begun, out));
        }
        if self.moment.saturating_sub(begun.moment) < DISCOVERY_INTERVAL {
            return None;
        }
        Some(self.write_first(out))
    }

    // The first page of a new cycle.
    fn write_first(&mut self, out: &mut [u8; MAX_DATAGRAM]) -> usize
        ensures answer { result
            ≡ size (Paged (record { list = standing self.old.lines; page = 0 })) }
        ensures octets { out.new ≡ over self.old.sender
            (Some (Paged (record { list = standing self.old.lines; page = 0 }))) out.old }
        ensures core { self.new ≡ after (Gave self.old.moment
            (Paged (record { list = standing self.old.lines; page = 0 }))) self.old }
    {
        list_standing(&self.lines, &mut self.listed);
        self.cycle = Some(Begun {
            moment: self.moment,
            next: 1,
        });
        write_page(
            self.listed.as_slice(),
            0,
            &self.sender.cid,
            &self.sender.name,
            out,
        )
    }

    // The next page of a cycle.
    fn write_next(&mut self, begun: Begun, out: &mut [u8; MAX_DATAGRAM]) -> usize
        requires begun { self.old.cycle ≡ Some begun }
        requires page { begun.next < pages_of (length self.old.listed) }
        requires fits { begun.next < usize.MAX }
        ensures answer { result
            ≡ size (Paged (record { list = self.old.listed; page = begun.next })) }
        ensures octets { out.new ≡ over self.old.sender
            (Some (Paged (record { list = self.old.listed; page = begun.next }))) out.old }
        ensures core { self.new ≡ after (Gave self.old.moment
            (Paged (record { list = self.old.listed; page = begun.next }))) self.old }
    {
        self.cycle = Some(Begun {
            moment: begun.moment,
            next: begun.next + 1,
        });
        write_page(
            self.listed.as_slice(),
            begun.next,
            &self.sender.cid,
            &self.sender.name,
            out,
        )
    }
}

// The page of so many octets, if there is one.
fn page_of_length(len: Option<usize>) -> Option<DueDatagram>
    ensures { result ≡ option_map page_of_length len }
{
    match len {
        Some(len) => Some(DueDatagram {
            len,
            universe: None,
        }),
        None => None,
    }
}

// While a fade runs, all levels are reckoned at once: many universes are then looked at.
fn prepare(player: &mut Player, is_still: bool)
    ensures { player.new ≡ player.old }
{
    if !is_still {
        player.prepare();
    }
}

fn write_packet(
    sender: &Sender,
    line: &UniverseLine,
    slots: &[u8; SLOTS],
    out: &mut [u8; MAX_DATAGRAM],
) -> usize
    requires priority { sender.now.priority ≤ 200 }
    requires least { 1 ≤ line.now.universe }
    requires most { line.now.universe ≤ 63999 }
    ensures len { result ≡ 638 }
    ensures octets { out.new
        ≡ packet_text (packet_with sender.now line.now slots.now) ++ drop 638 out.old }
{
    let cid = sender.cid;
    let name = sender.name;
    let fields = DataFields {
        cid,
        name,
        priority: sender.priority,
        number: line.sequence_number,
        preview: false,
        terminated: line.is_ending(),
        universe: line.universe,
        start: 0,
        slots: &slots[..],
    };
    let Some(front) = out.first_chunk_mut::<638>() else {
        unreachable!();
    };
    write_data(&fields, front)
}
