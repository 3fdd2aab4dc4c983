//! The core of a source.
ghost use Rattle.std.specs.Prelude.{◌≡◌, ◌^◌, ◌<◌, ◌≤◌, length, IfOk, IfErr};
ghost use Rattle.std.specs.List.{AllByRecursion};

mod giving;

use crate::fault::SourceFault;
use crate::looks::Looks;
use crate::source_universe::SourceUniverse;
use crate::source_universes::SourceUniverses;
use arrayvec::ArrayVec;
use sacn_console::limits::MAX_DATAGRAM;
use sacn_console::{Begun, CONSOLE_UNIVERSES, DueDatagram, Sender};
use sacn_packets::MAX_PRIORITY;
use std::alloc::Global;
use std::marker::Model;

/// What a source sends, and when: a program hands it levels in place of a console's cues.
///
/// Its value is what the rule of sending asks of the list of earlier accepted calls and of the
/// datagrams given in this life; `laws` states that over every list of calls.
#[derive(Drop)]
pub struct SourceCore {
    sender: Sender,
    first: u8,
    rows: SourceUniverses,
    looks: Looks,
    cycle: Option<Begun>,
    listed: ArrayVec<u16, CONSOLE_UNIVERSES>,
    moment: u64,
}

impl Model for SourceCore {
    ghost use Rattle.sacn_source.specs.Source.{Source, SourceOk};
    ghost use Rattle.sacn_source.specs.Wakes.{IsLooked};

    ghost Value = { Source };

    ghost view = { λ c. record { sender = c.sender; first = c.first; table = c.rows; cycle = c.cycle; listed = c.listed.items; moment = c.moment } };

    ghost invariant = { λ c. SourceOk (record { sender = c.sender; first = c.first; table = c.rows; cycle = c.cycle; listed = c.listed.items; moment = c.moment }) × IsLooked c.looks (record { sender = c.sender; first = c.first; table = c.rows; cycle = c.cycle; listed = c.listed.items; moment = c.moment }) };
}

impl SourceCore {
    ghost use Rattle.std.specs.Prelude.{[], Some, None, min};
    ghost use Rattle.std.specs.Option.{option_map};
    ghost use Rattle.sacn_console.specs.Lines.{Datagram};
    ghost use Rattle.sacn_console.specs.Core.{due_datagram, over, IsLawful};
    ghost use Rattle.sacn_packets.specs.Universe.{Rising};
    ghost use Rattle.sacn_source.specs.Table.{Order, Add, SetLevels, SetPriority, End, EndAll, answer, universes_of};
    ghost use Rattle.sacn_source.specs.Source.{Source, due, at, after_poll, after_order};
    ghost use Rattle.sacn_source.specs.Source.{new_source, new_fault};

    #[tactic(auto, using(crate::proofs::Waking::looked_anew))]
    /// A source as its life begins: it has no universe yet, and room for so many, at most
    /// `CONSOLE_UNIVERSES`. The first packet on each will have the number `first`.
    ///
    /// Faults: `BadPriority` where the sender's priority is above 200, `OutOfMemory`. No other call
    /// takes memory.
    pub fn new(alloc: Global, sender: &Sender, room: usize, first: u8) -> Result<Self, SourceFault>
        ensures made { IfOk result (λ core. core ≡ new_source sender.now room first) }
        ensures bounded { IfOk result (λ core. sender.now.priority ≤ 200) }
        ensures refused { IfErr result (λ fault. fault ≡ new_fault sender.now) }
    {
        if sender.priority > MAX_PRIORITY {
            return Err(SourceFault::BadPriority);
        }
        let rows = SourceUniverses::new(alloc, room.min(CONSOLE_UNIVERSES))?;
        let sender = *sender;
        Ok(SourceCore {
            sender,
            first,
            rows,
            looks: Looks::anew(),
            cycle: None,
            listed: ArrayVec::new(),
            moment: 0,
        })
    }

    /// Begins a universe, 1 to 63999. A new one has levels of 0 and the sender's priority; one that
    /// was ended begins again: its numbers go on, and its levels and its priority stay.
    ///
    /// Faults, in this order: `BadUniverse`; `Running` or `Ending` where it is there and isn't
    /// stopped; `Full` where it isn't there and there is no room.
    pub fn add(&mut self, universe: u16) -> Result<(), SourceFault>
        ensures answer { result ≡ answer (Add universe) self.old.table }
        ensures core { self.new ≡ after_order (Add universe) self.old }
    {
        self.looks = Looks::anew();
        self.rows.add(universe, self.first, self.sender.priority)
    }

    /// Gives a universe other levels, 0 to 255: these on its slots from 1 on, and 0 on all others.
    ///
    /// Faults, in this order: `NoUniverse`; `TooMany` where there are more than 512.
    pub fn set_levels(&mut self, universe: u16, levels: &[u8]) -> Result<(), SourceFault>
        ensures answer { result ≡ answer (SetLevels universe levels.now) self.old.table }
        ensures core { self.new ≡ after_order (SetLevels universe levels.now) self.old }
    {
        match self.rows.set_levels(universe, levels) {
            Ok(place) => {
                let wake = self.rows.at(place).wake();
                self.looks = self.looks.stirred(place, wake);
                Ok(())
            }
            Err(fault) => Err(fault),
        }
    }

    /// Gives a universe another priority, 0 to 200 (E1.31, 6.2.3). Where it runs, its next packet is
    /// sent at once, as that of a universe that begins.
    ///
    /// Faults, in this order: `NoUniverse`; `BadPriority` where the priority is above 200.
    pub fn set_priority(&mut self, universe: u16, priority: u8) -> Result<(), SourceFault>
        ensures answer { result ≡ answer (SetPriority universe priority) self.old.table }
        ensures core { self.new ≡ after_order (SetPriority universe priority) self.old }
    {
        self.looks = Looks::anew();
        self.rows.set_priority(universe, priority)
    }

    /// Ends a universe: three terminated packets, then silence (E1.31, 6.2.6).
    ///
    /// Faults: `NoUniverse`; `Ending` or `Stopped` where it doesn't run.
    pub fn end(&mut self, universe: u16) -> Result<(), SourceFault>
        ensures answer { result ≡ answer (End universe) self.old.table }
        ensures core { self.new ≡ after_order (End universe) self.old }
    {
        self.looks = Looks::anew();
        self.rows.end(universe)
    }

    /// Ends each universe that runs.
    pub fn end_all(&mut self)
        ensures { self.new ≡ after_order EndAll self.old }
    {
        self.looks = Looks::anew();
        self.rows.end_all();
    }

    /// Gives the datagram that is due at the moment in use, the greatest that was handed in: its
    /// octets at the front of `out`, their number, and its universe. The least-numbered due universe
    /// goes first; where none is due, the next discovery page. Octets past the answer, and all after
    /// None, are as they were. Moments are milliseconds.
    pub fn poll(&mut self, now: u64, out: &mut [u8; MAX_DATAGRAM]) -> Option<DueDatagram>
        ensures answer { result ≡ option_map due_datagram (due (at now self.old)) }
        ensures octets { out.new ≡ over self.old.sender (due (at now self.old)) out.old }
        ensures core { self.new ≡ after_poll now self.old }
        ensures lawful { (d : Datagram) → due (at now self.old) ≡ Some d
            → IsLawful self.old.sender d }
    {
        self.tell_lawful(now);
        self.move_clock(now);
        self.give(out)
    }

    /// What is kept of each universe, in ascending order of number: its state, the number of its next
    /// packet, the moment of its latest one, its levels and its priority.
    pub fn universes(&self) -> &[SourceUniverse]
        ensures universes { result.now ≡ self.now.table.rows }
        ensures ascending { Rising (universes_of self.now.table.rows) }
    {
        self.rows.as_slice()
    }

    // What is due at a moment can be said by a packet. This costs nothing.
    fn tell_lawful(&self, now: u64)
        ensures { (d : Datagram) → due (at now self.now) ≡ Some d → IsLawful self.now.sender d }
    {
        self.rows.tell();
        tell_ranges(&self.sender.cid, &self.sender.name, self.listed.as_slice());
    }

    fn move_clock(&mut self, now: u64)
        ensures { self.new ≡ at now self.old }
    {
        self.looks = self.looks.moved(self.moment, now);
        self.moment = self.moment.max(now);
    }
}

// What the types of a sender and of numbers say. This costs nothing.
fn tell_ranges(cid: &[u8; 16], name: &[u8; 64], listed: &[u16])
    ensures cid { length cid.now ≡ 16 }
    ensures name { length name.now ≡ 64 }
    ensures listed { AllByRecursion (λ n. n < 2 ^ 16) listed.now }
{
    let _cid = cid;
    let _name = name;
    let _listed = listed;
}
