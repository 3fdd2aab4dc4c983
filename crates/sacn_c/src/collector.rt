//! Collectors of universe discovery, for C.
ghost use Rattle.std.specs.Prelude.{◌≡◌, ◌+◌, is_some, true, false, None, Some, IfSome};
ghost use Rattle.std.specs.FinMap as map;
ghost use Rattle.std.specs.Option.{option_map};
ghost use Rattle.sacn_packets.specs.PacketReading.{reading_packet};
ghost use Rattle.sacn_discovery.specs.Lists.{forgotten as gone};
ghost use Rattle.sacn_discovery.specs.Collection.{State, nothing_known, after_expire, known_list};
ghost use Rattle.sacn_c.specs.Collecting.{after_reading, collect_status, collected, list_status, list_count, list_room, ShowsList};
ghost use Rattle.sacn_c.specs.Kinds.{of_collector};
ghost use Rattle.sacn_c.specs.declared.status.TheConstants.{DONE, OUT_OF_MEMORY, WRONG_HANDLE};

use crate::handle::Handle;
use crate::held_value::Held;
use crate::reading::packet_at;
use crate::rooms::put_list;
use crate::status::{DONE, OUT_OF_MEMORY, RANGE, WRONG_HANDLE};
use sacn_discovery::Collector;
use sacn_packets::Packet;
use std::alloc::Global;

/// A collector that knows nothing, as `Collector::new`.
#[unsafe(no_mangle)]
pub extern "C" fn sacn_proved_collector_new(alloc: Global, handle: &mut Handle) -> u32
    ensures made { result ≡ DONE → handle.new.value ≡ Some (Held.Collector nothing_known) }
    ensures refused { (result ≡ DONE → ⊥) → handle.new.value ≡ handle.old.value }
    ensures status { (result ≡ DONE → ⊥) → result ≡ OUT_OF_MEMORY }
{
    let Ok(made) = Handle::new(alloc, Held::Collector(Collector::new(alloc))) else {
        return OUT_OF_MEMORY;
    };
    *handle = made;
    DONE
}

/// What a datagram does to a collector: a page is taken, and all else changes nothing.
fn take_into(collector: &mut Collector, now: u64, octets: &[u8]) -> u32
    ensures taken { result ≡ DONE
        → collector.new ≡ after_reading now (reading_packet octets.now) collector.old }
    ensures lacking { result ≡ OUT_OF_MEMORY → collector.new ≡ after_expire now collector.old }
    ensures status { result ≡ collect_status (reading_packet octets.now) result }
    ensures collector { collector.new
        ≡ collected result now (reading_packet octets.now) collector.old }
{
    match packet_at(octets) {
        Ok(Packet::PagePacket(page)) => match collector.take(now, &page) {
            Ok(()) => DONE,
            Err(_) => OUT_OF_MEMORY,
        },
        Ok(_) => DONE,
        Err(status) => status,
    }
}

/// Takes a datagram, as `Collector::take`. The status is the fault of one that is no packet.
#[unsafe(no_mangle)]
pub extern "C" fn sacn_proved_collector_take(handle: &mut Handle, now: u64, octets: &[u8]) -> u32
    requires { is_some handle.old.value ≡ true }
    ensures taken { result ≡ DONE → handle.new.value ≡ option_map (λ held. of_collector held (λ s.
        Held.Collector (after_reading now (reading_packet octets.now) s)) held) handle.old.value }
    ensures status { IfSome handle.old.value (λ held. result
        ≡ of_collector WRONG_HANDLE (λ s. collect_status (reading_packet octets.now) result) held) }
    ensures after { handle.new.value ≡ option_map (λ held. of_collector held (λ s. Held.Collector
        (collected result now (reading_packet octets.now) s)) held) handle.old.value }
{
    match handle.held() {
        Held::Collector(collector) => take_into(collector, now, octets),
        _ => WRONG_HANDLE,
    }
}

/// Forgets the sources whose latest page is too old, as `Collector::expire`, and tells how many those were.
#[unsafe(no_mangle)]
pub extern "C" fn sacn_proved_collector_tick(
    handle: &mut Handle,
    now: u64,
    forgotten: &mut usize,
) -> u32
    requires { is_some handle.old.value ≡ true }
    ensures status { IfSome handle.old.value
        (λ held. result ≡ of_collector WRONG_HANDLE (λ s. DONE) held) }
    ensures forgotten { IfSome handle.old.value
        (λ held. forgotten.new ≡ of_collector forgotten.old (λ s. gone now s) held) }
    ensures fewer { (s : State) → handle.old.value ≡ Some (Held.Collector s)
        → forgotten.new + map.len (after_expire now s).sources ≡ map.len s.sources }
    ensures after { handle.new.value ≡ option_map (λ held.
        of_collector held (λ s. Held.Collector (after_expire now s)) held) handle.old.value }
{
    match handle.held() {
        Held::Collector(collector) => {
            *forgotten = collector.expire(now);
            DONE
        }
        _ => WRONG_HANDLE,
    }
}

/// The list of a source, as `Collector::list_of`. The status is `RANGE` where it isn't known, and `LENGTH` where there is too little room for it.
#[unsafe(no_mangle)]
pub extern "C" fn sacn_proved_collector_list(
    handle: &mut Handle,
    now: u64,
    cid: &[u8; 16],
    universes: &mut [u16],
    count: &mut usize,
) -> u32
    requires { is_some handle.old.value ≡ true }
    ensures list { result ≡ DONE → IfSome handle.old.value
        (λ held. IfSome (of_collector None (λ s. known_list (after_expire now s) cid.now) held)
        (λ list. ShowsList list count.new universes.new)) }
    ensures after { handle.new.value ≡ option_map (λ held.
        of_collector held (λ s. Held.Collector (after_expire now s)) held) handle.old.value }
    ensures status { (result ≡ OUT_OF_MEMORY → ⊥)
        → IfSome handle.old.value (λ held. result ≡ of_collector WRONG_HANDLE
        (λ s. list_status universes.old (known_list (after_expire now s) cid.now)) held) }
    ensures count { (result ≡ OUT_OF_MEMORY → ⊥)
        → IfSome handle.old.value (λ held. count.new ≡ of_collector count.old
        (λ s. list_count count.old (known_list (after_expire now s) cid.now)) held) }
    ensures room { (result ≡ OUT_OF_MEMORY → ⊥)
        → IfSome handle.old.value (λ held. universes.new ≡ of_collector universes.old
        (λ s. list_room universes.old (known_list (after_expire now s) cid.now)) held) }
    ensures lacking { result ≡ OUT_OF_MEMORY
        → (universes.new ≡ universes.old) × (count.new ≡ count.old) }
    ensures wrong { IfSome handle.old.value
        (λ held. of_collector true (λ s. false) held ≡ true → result ≡ WRONG_HANDLE) }
{
    match handle.held() {
        Held::Collector(collector) => match collector.list_of(now, cid) {
            Ok(Some(list)) => put_list(list.as_slice(), universes, count),
            Ok(None) => RANGE,
            Err(_) => OUT_OF_MEMORY,
        },
        _ => WRONG_HANDLE,
    }
}
