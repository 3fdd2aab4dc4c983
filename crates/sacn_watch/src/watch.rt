//! The loop of a watch.

ghost use Rattle.std.specs.Prelude.{◌≡◌, ℕ, ◌∷◌, ◌++◌, [], List, IfOk, OnOk, ⊤};
ghost use Rattle.sacn_packets.specs.PacketReading.{reading_packet};
ghost use Rattle.sacn_edge.specs.Additions.{Extends};
ghost use Rattle.sacn_machine.specs.Hearings.{in_order, is_datagram};
ghost use Rattle.sacn_monitor.specs.Histories.{Call, Take, Tick};
ghost use Rattle.sacn_watch.specs.Watches.{Receive, heard_in, heard_by, reading_after, reading_by, calls_for, calls_in, calls_by, IsWatch, TakesAll};

use crate::fault::WatchFault;
use crate::listener::Listener;
use sacn_edge::BUFFER_OCTETS;
use sacn_machine::Arrival;
use sacn_machine::limits::MAX_BURST;
use sacn_monitor::Endpoint;
use sacn_packets::{Reading, read_packet};

/// What is done with what is heard. Moments are in milliseconds.
pub trait Watcher {
    /// Whether it may be what these calls leave, the latest first. A watcher that promises nothing may be what any calls leave.
    ghost Handed: { Self → List Call → Type 0 } = { λ _ _. ⊤ };

    /// Takes what a datagram was read as that came at a moment from a sender.
    fn take(&mut self, now: u64, sender: Endpoint, reading: &Reading<'_>) -> Result<(), WatchFault>
        ensures handed { OnOk result ((calls : List Call) (octets : List ℕ)
            → reading.now ≡ reading_packet octets → Handed self.old calls
            → Handed self.new (Take now sender octets ∷ calls)) };

    /// Tells that this program was stopped for so many milliseconds. No account changes.
    fn note_stop(&mut self, now: u64, millis: u64) -> Result<(), WatchFault>
        ensures handed { OnOk result
            ((calls : List Call) → Handed self.old calls → Handed self.new calls) };

    /// Shows what is to be shown, after all that had come by a moment was taken.
    fn show(&mut self, now: u64) -> Result<(), WatchFault>
        ensures handed { OnOk result
            ((calls : List Call) → Handed self.old calls → Handed self.new (Tick now ∷ calls)) };

    /// The moment at which there is something to show, where nothing comes; `u64::MAX` where there never is.
    fn wakes(&self) -> u64;

    /// Ends.
    fn end(&mut self, now: u64) -> Result<(), WatchFault>
        ensures handed { OnOk result
            ((calls : List Call) → Handed self.old calls → Handed self.new (Tick now ∷ calls)) };
}

/// Hears until a moment, or until the listener has ended, and hands each datagram to a watcher, at the reading of the listener's
/// clock just before it came. It waits until a datagram is there or the watcher has something to show. A stop of this program that the
/// listener knows of is told before the first datagram that is received after it.
///
/// Errors: what the watcher can't do; it is told to end all the same.
pub fn run_watch<L: Listener, W: Watcher>(
    listener: &mut L,
    watcher: &mut W,
    until: u64,
) -> Result<(), WatchFault>
    ensures { (turns : List (List Receive)) × Extends (L.Receiver.told listener.old)
        (L.Receiver.told listener.new) (heard_by turns) × OnOk result (IsWatch until
        (L.Ended listener.new) turns × ((calls : List Call) → W.Handed watcher.old calls
        → W.Handed watcher.new (Tick (reading_by turns) ∷ (calls_by turns ++ calls)))) }
{
    let mut heard = Heard { now: 0 };
    let watched = watch(listener, watcher, until, &mut heard);
    let finished = watcher.end(heard.now);
    watched?;
    finished
}

/// How far a watch came.
#[derive(Clone, Copy)]
struct Heard {
    /// The latest reading of the clock.
    now: u64,
}

// Hears until the watch ends.
fn watch<L: Listener, W: Watcher>(
    listener: &mut L,
    watcher: &mut W,
    until: u64,
    heard: &mut Heard,
) -> Result<(), WatchFault>
    requires { heard.old.now ≡ 0 }
    ensures { (turns : List (List Receive)) × Extends (L.Receiver.told listener.old)
        (L.Receiver.told listener.new) (heard_by turns) × (heard.new.now ≡ reading_by turns)
        × OnOk result (IsWatch until (L.Ended listener.new) turns × ((calls : List Call)
        → W.Handed watcher.old calls → W.Handed watcher.new (calls_by turns ++ calls))) }
{
    let mut buffer = [0; BUFFER_OCTETS];
    let mut wake = 0;
    for _turn in 0..u64::MAX {
        listener.wait(wake.min(until));
        drain(listener, watcher, heard, &mut buffer)?;
        watcher.show(heard.now)?;
        if heard.now >= until {
            return Ok(());
        }
        if listener.has_ended() {
            return Ok(());
        }
        wake = watcher.wakes();
    }
    Ok(())
}

// Takes all that waits, or as much as a turn may.
fn drain<L: Listener, W: Watcher>(
    listener: &mut L,
    watcher: &mut W,
    heard: &mut Heard,
    buffer: &mut [u8; BUFFER_OCTETS],
) -> Result<(), WatchFault>
    ensures { (rs : List Receive)
        × Extends (L.Receiver.told listener.old) (L.Receiver.told listener.new)
        (in_order (heard_in rs)) × (heard.new.now ≡ reading_after heard.old.now rs)
        × OnOk result (TakesAll (heard_in rs) × ((calls : List Call) → W.Handed watcher.old calls
        → W.Handed watcher.new (calls_in rs ++ calls))) }
{
    for _count in 0..MAX_BURST {
        let is_more = hear(listener, watcher, heard, buffer)?;
        if !is_more {
            return Ok(());
        }
    }
    Ok(())
}

// Receives once, and hands on what came. Returns whether a datagram was there, so that there may be another.
fn hear<L: Listener, W: Watcher>(
    listener: &mut L,
    watcher: &mut W,
    heard: &mut Heard,
    buffer: &mut [u8; BUFFER_OCTETS],
) -> Result<bool, WatchFault>
    ensures { (r : Receive) × Extends (L.Receiver.told listener.old) (L.Receiver.told listener.new)
        (r.hearing ∷ []) × (heard.new.now ≡ r.hearing.now) × IfOk result (λ is_more.
        (is_more ≡ is_datagram r.hearing.came) × ((calls : List Call) → W.Handed watcher.old calls
        → W.Handed watcher.new (calls_for r.hearing.now r.port r.hearing.came ++ calls))) }
{
    let receipt = listener.receive(buffer);
    heard.now = receipt.now;
    tell_stop(listener, watcher, receipt.now)?;
    match receipt.arrival {
        Arrival::Datagram { octets, sender } => {
            let sender = Endpoint {
                address: sender,
                port: listener.sender_port(),
            };
            let reading = read_packet(&buffer[..octets]);
            watcher.take(receipt.now, sender, &reading)?;
            Ok(true)
        }
        Arrival::Nothing => Ok(false),
        Arrival::Failed => Ok(false),
    }
}

// Tells for how long this program was stopped, where it was since the listener was asked last.
fn tell_stop<L: Listener, W: Watcher>(
    listener: &mut L,
    watcher: &mut W,
    now: u64,
) -> Result<(), WatchFault>
    ensures told { L.Receiver.told listener.new ≡ L.Receiver.told listener.old }
    ensures handed { OnOk result ((calls : List Call) → W.Handed watcher.old calls
        → W.Handed watcher.new calls) }
{
    let millis = listener.take_stop();
    if millis == 0 {
        return Ok(());
    }
    watcher.note_stop(now, millis)
}
