//! The core of a recording that is played as a source.
ghost use Rattle.std.specs.Prelude.{◌≡◌, ◌≢◌, ◌^◌, ◌<◌, ◌≤◌, ◌+◌, ℕ, true, min, is_some, Option, Ok, Err, Some, None, IfOk, IfErr, IfSome, IfNone, length};
ghost use Rattle.std.specs.Option.{option_map};
ghost use Rattle.sacn_console.specs.Core.{due_datagram};
ghost use Rattle.sacn_console.specs.Lines.{Datagram};
ghost use Rattle.sacn_console.specs.declared.limits.TheConstants.{CONSOLE_UNIVERSES};
ghost use Rattle.sacn_played_source.specs.Played.{owed_after, owed_at_end, add_all, after_adds};

use crate::played_universe::{
    PlayedUniverse, new_universes, next_loss, place_of, rewound, send_all,
};
use sacn_console::limits::{MAX_DATAGRAM, TERMINATIONS};
use sacn_console::{CONSOLE_UNIVERSES, DueDatagram, Sender};
use sacn_packets::{DataView, Packet, read_packet};
use sacn_source::{SourceCore, SourceFault};
use std::alloc::Global;
use std::marker::Model;

/// A recording's sources, merged on each universe as a node merges them, and sent as one source of one's own.
///
/// Moments of the recording are milliseconds from any beginning; those that go back count as the greatest that their universe
/// was handed since the recording began. The machine's clock is another one: only `poll` and `wakes` speak of it. So while a recording is
/// paused its light stays, and is kept alive. What a universe sends before one of its packets renewed a source are levels of 0, and after
/// `rewind` those of before, for `NETWORK_DATA_LOSS` milliseconds of the recording: then they are as old as a source that is lost.
///
/// Only `new` and `rewind` take memory. No datagram is borrowed after a call returns.
#[derive(Drop)]
pub struct PlayedSource {
    universes: Vec<PlayedUniverse>,
    source: SourceCore,
    /// Once all were ended, how many terminated packets are left to send.
    owed: Option<usize>,
}

impl Model for PlayedSource {
    ghost use Rattle.std.specs.Prelude.{◌≤◌, length};
    ghost use Rattle.sacn_console.specs.declared.limits.TheConstants.{CONSOLE_UNIVERSES};
    ghost use Rattle.sacn_played_source.specs.Played.{Played};

    ghost Value = { Played };

    ghost view = { λ p. record { universes = p.universes.items; source = p.source; owed = p.owed } };

    ghost invariant = { λ p. length p.universes.items ≤ CONSOLE_UNIVERSES };
}

impl PlayedSource {
    ghost use Rattle.std.specs.Option.{option_map};
    ghost use Rattle.sacn_packets.specs.PacketReading.{reading_packet};
    ghost use Rattle.sacn_packets.specs.declared.framing.packet.Packet.TheVariants.{DataPacket};
    ghost use Rattle.sacn_console.specs.Core.{due_datagram, over, IsLawful};
    ghost use Rattle.sacn_console.specs.Lines.{Datagram};
    ghost use Rattle.sacn_console.specs.Wakes.{last_moment};
    ghost use Rattle.sacn_source.specs.Source.{due, at};
    ghost use Rattle.sacn_source.specs.declared.fault.SourceFault.TheVariants.{OutOfMemory};
    ghost use Rattle.sacn_played_source.specs.Universes.{NoneLostBefore, OneLostAt};
    ghost use Rattle.sacn_played_source.specs.Played.{new_played, new_answer, taken_at, has_ended, after_reading, after_advance, after_rewind, after_poll, after_end_all};

    /// One that sends these universes, 1 to 63999, each named once, in any order: they run from now on. The first packet on each will have
    /// the number `first`.
    ///
    /// Faults, in this order: `Full` where there are more than `CONSOLE_UNIVERSES`; `BadPriority` where the sender's priority is above
    /// 200; `BadUniverse` or `Running` of the first universe that is out of range or was named before. `OutOfMemory` where a request
    /// was refused.
    pub fn new(
        alloc: Global,
        sender: &Sender,
        universes: &[u16],
        first: u8,
    ) -> Result<Self, SourceFault>
        ensures made { IfOk result (λ played. played ≡ new_played sender.now universes.now first) }
        ensures accepted { IfOk result (λ played.
            new_answer sender.now universes.now first ≡ Ok tt) }
        ensures refused { IfErr result (λ fault. fault ≢ OutOfMemory
            → new_answer sender.now universes.now first ≡ Err fault) }
    {
        if universes.len() > CONSOLE_UNIVERSES {
            return Err(SourceFault::Full);
        }
        let mut source = SourceCore::new(alloc, sender, universes.len(), first)?;
        add_all(&mut source, universes)?;
        let universes = new_universes(alloc, universes)?;
        Ok(PlayedSource {
            universes,
            source,
            owed: None,
        })
    }

    /// Takes a datagram that was recorded at this moment of the recording. Where it is a data packet of one of the universes, that
    /// universe's table takes it as a node's does, and the merge of what it now holds is sent from now on. Everything else changes
    /// nothing.
    pub fn take(&mut self, moment: u64, octets: &[u8])
        ensures { self.new ≡ after_reading moment (reading_packet octets.now) self.old }
    {
        match read_packet(octets) {
            Ok(Packet::DataPacket(packet)) => self.take_packet(moment, &packet),
            Ok(Packet::PagePacket(_)) => {}
            Ok(Packet::SyncPacket) => {}
            Err(_) => {}
        }
    }

    /// The recording is at this moment: sources that were silent for `NETWORK_DATA_LOSS` milliseconds by then are lost (E1.31, 6.7.1), and no
    /// longer sent.
    pub fn advance(&mut self, moment: u64)
        ensures { self.new ≡ after_advance moment self.old }
    {
        send_all(&mut self.universes, moment, &mut self.source);
    }

    /// The first moment of the recording at which something that is sent is lost if no packet comes: a source, or the levels of before a
    /// `rewind`. `None` where there is none, or none is lost at a moment of a `u64`.
    pub fn next_loss(&self) -> Option<u64>
        ensures never { IfNone result (NoneLostBefore self.now.universes (2 ^ 64)) }
        ensures asleep { IfSome result (λ moment. NoneLostBefore self.now.universes moment) }
        ensures awake { IfSome result (λ moment. OneLostAt self.now.universes moment) }
    {
        next_loss(&self.universes)
    }

    /// The recording begins anew, at any moment: its sources are forgotten. What is sent on a universe stays until a packet renews a source
    /// there, or for `NETWORK_DATA_LOSS` milliseconds behind the first moment that comes.
    ///
    /// Errors: `OutOfMemory` where a request was refused; then nothing changed.
    pub fn rewind(&mut self, alloc: Global) -> Result<(), SourceFault>
        ensures begun { IfOk result (λ _. self.new ≡ after_rewind self.old) }
        ensures refused { IfErr result (λ fault. (fault ≡ OutOfMemory) × (self.new ≡ self.old)) }
    {
        self.universes = rewound(alloc, &self.universes)?;
        Ok(())
    }

    /// Gives the datagram that is due by the machine's clock, as `SourceCore::poll` does: its octets at the front of `out`, their
    /// number, and its universe.
    pub fn poll(&mut self, now: u64, out: &mut [u8; MAX_DATAGRAM]) -> Option<DueDatagram>
        ensures answer { result ≡ option_map due_datagram (due (at now self.old.source)) }
        ensures octets { out.new
            ≡ over self.old.source.sender (due (at now self.old.source)) out.old }
        ensures played { self.new ≡ after_poll now self.old }
        ensures lawful { (d : Datagram) → due (at now self.old.source) ≡ Some d
            → IsLawful self.old.source.sender d }
    {
        let due = self.source.poll(now, out);
        self.owed = owed_after(&due, self.owed);
        due
    }

    /// The first moment of the machine's clock at which something can be due as long as no call comes, as `SourceCore::wakes` tells it.
    pub fn wakes(&self) -> u64
        ensures quiet { (t : ℕ) → t < result → due (at t self.now.source) ≡ None }
        ensures ahead { 0 < result → min (self.now.source.moment + 1) last_moment ≤ result }
        ensures exact { result < last_moment → is_some (due (at result self.now.source)) ≡ true }
    {
        self.source.wakes()
    }

    /// Ends each universe: three terminated packets, then silence (E1.31, 6.2.6).
    pub fn end_all(&mut self)
        ensures { self.new ≡ after_end_all self.old }
    {
        self.source.end_all();
        self.owed = Some(owed_at_end(self.universes.len(), self.owed));
    }

    /// Whether all were ended, and their terminated packets were given.
    pub fn has_ended(&self) -> bool
        ensures { result ≡ has_ended self.now }
    {
        match self.owed {
            Some(owed) => owed == 0,
            None => false,
        }
    }

    // Takes a data packet.
    fn take_packet(&mut self, moment: u64, packet: &DataView<'_>)
        ensures { self.new ≡ after_reading moment (Ok (DataPacket packet.now)) self.old }
    {
        if let Some(place) = place_of(&self.universes, packet.universe()) {
            self.take_at(place, moment, packet);
        }
    }

    // Takes a packet of the universe at a place.
    fn take_at(&mut self, place: usize, moment: u64, packet: &DataView<'_>)
        requires { place < length self.old.universes }
        ensures { self.new ≡ taken_at moment packet.now place self.old }
    {
        let one = &mut self.universes[place];
        one.take(moment, packet);
        one.send(moment, &mut self.source);
    }
}

// Adds these universes in turn, up to the first that is refused.
fn add_all(source: &mut SourceCore, universes: &[u16]) -> Result<(), SourceFault>
    ensures answer { result ≡ add_all universes.now source.old }
    ensures source { IfOk result (λ _. source.new ≡ after_adds universes.now source.old) }
{
    for universe in universes {
        source.add(*universe)?;
    }
    Ok(())
}

// How many terminated packets are left to send once all are ended.
fn owed_at_end(universes: usize, owed: Option<usize>) -> usize
    requires { universes ≤ CONSOLE_UNIVERSES }
    ensures { Some result ≡ owed_at_end universes owed }
{
    match owed {
        Some(owed) => owed,
        None => universes * TERMINATIONS as usize,
    }
}

// How many are left behind a datagram.
fn owed_after(due: &Option<DueDatagram>, owed: Option<usize>) -> Option<usize>
    ensures { (d : Option Datagram) → due.now ≡ option_map due_datagram d → result ≡ owed_after d owed }
{
    let given = match due {
        Some(due) => due.universe.is_some(),
        None => false,
    };
    match owed {
        Some(owed) if given => Some(owed.saturating_sub(1)),
        owed => owed,
    }
}
