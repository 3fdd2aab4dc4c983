//! The sources of one universe, for C.
ghost use Rattle.std.specs.Prelude.{◌≡◌, ◌==◌, ◌<◌, ◌≤◌, ◌^◌, ◌-◌, ℕ, max, is_some, true, Some, None, IfSome, slice_index, if◌then◌else◌};
ghost use Rattle.std.specs.Option.{option_map};
ghost use Rattle.sacn_packets.specs.PacketReading.{reading_packet};
ghost use Rattle.sacn_sources.specs.LatestMerge.{new_kept, kept_after_expire, kept_after_merged};
ghost use Rattle.sacn_sources.specs.Rows.{after_expire, row_of, rows_lost, slots_of};
ghost use Rattle.sacn_sources.specs.declared.limits.TheConstants.{MAX_SOURCES};
ghost use Rattle.sacn_c.specs.Kinds.{of_sources};
ghost use Rattle.sacn_c.specs.Merging.{after_reading, source_number, source_told, levels_told};
ghost use Rattle.sacn_c.specs.Numbers.{found_status, found_or};
ghost use Rattle.sacn_c.specs.Packets.{packet_status};
ghost use Rattle.sacn_c.specs.declared.status.TheConstants.{DONE, RANGE, WRONG_HANDLE};

use crate::handle::Handle;
use crate::held_value::Held;
use crate::numbers::taken_number;
use crate::reading::packet_at;
use crate::status::{DONE, RANGE, WRONG_HANDLE};
use sacn_packets::Packet;
use sacn_sources::{HeldView, Levels, SourceTable, TableFault};
use std::alloc::Global;

/// The sources of one universe, of which there are none yet, as `SourceTable::new`. The status is the table's fault, 1.
#[unsafe(no_mangle)]
pub extern "C" fn sacn_proved_sources_new(alloc: Global, handle: &mut Handle) -> u32
    ensures made { result ≡ DONE → handle.new.value ≡ Some (Held.Sources new_kept) }
    ensures refused { (result ≡ DONE → ⊥) → handle.new.value ≡ handle.old.value }
    ensures status { (result ≡ DONE → ⊥) → result ≡ 1 }
{
    let table = match SourceTable::new(alloc) {
        Ok(table) => table,
        Err(fault) => return u32::from(fault.number()),
    };
    match Handle::new(alloc, Held::Sources(table)) {
        Ok(made) => {
            *handle = made;
            DONE
        }
        Err(_) => u32::from(TableFault::OutOfMemory.number()),
    }
}

/// What a datagram does to a table: a data packet is taken, whatever universe it names; all else changes nothing.
fn take_into(table: &mut SourceTable, now: u64, octets: &[u8], taken: &mut u8) -> u32
    ensures status { result ≡ packet_status (reading_packet octets.now) }
    ensures taken { taken.new ≡ source_number now (reading_packet octets.now) table.old }
    ensures table { table.new ≡ after_reading now (reading_packet octets.now) table.old }
{
    match packet_at(octets) {
        Ok(Packet::DataPacket(packet)) => {
            *taken = taken_number(table.take(now, &packet));
            DONE
        }
        Ok(Packet::PagePacket(_)) => {
            *taken = 8;
            DONE
        }
        Ok(Packet::SyncPacket) => {
            *taken = 9;
            DONE
        }
        Err(status) => {
            *taken = 0;
            status
        }
    }
}

/// Takes a datagram, as `SourceTable::take`.
#[unsafe(no_mangle)]
pub extern "C" fn sacn_proved_sources_take(
    handle: &mut Handle,
    now: u64,
    octets: &[u8],
    taken: &mut u8,
) -> u32
    requires { is_some handle.old.value ≡ true }
    ensures status { IfSome handle.old.value (λ held. result
        ≡ of_sources WRONG_HANDLE (λ k. packet_status (reading_packet octets.now)) held) }
    ensures taken { IfSome handle.old.value (λ held. taken.new
        ≡ of_sources taken.old (λ k. source_number now (reading_packet octets.now) k) held) }
    ensures after { handle.new.value ≡ option_map (λ held. of_sources held (λ k.
        Held.Sources (after_reading now (reading_packet octets.now) k)) held) handle.old.value }
{
    match handle.held() {
        Held::Sources(table) => take_into(table, now, octets, taken),
        _ => WRONG_HANDLE,
    }
}

/// Writes the merge, as `SourceTable::merged`.
#[unsafe(no_mangle)]
pub extern "C" fn sacn_proved_sources_merged(
    handle: &mut Handle,
    now: u64,
    slots: &mut [u8; 512],
) -> u32
    requires { is_some handle.old.value ≡ true }
    ensures status { IfSome handle.old.value
        (λ held. result ≡ of_sources WRONG_HANDLE (λ k. DONE) held) }
    ensures slots { IfSome handle.old.value (λ held. slots.new
        ≡ of_sources slots.old (λ k. slots_of (after_expire now k.table).rows) held) }
    ensures after { handle.new.value ≡ option_map (λ held.
        of_sources held (λ k. Held.Sources (kept_after_merged now k)) held) handle.old.value }
{
    match handle.held() {
        Held::Sources(table) => {
            table.merged(now, slots);
            DONE
        }
        _ => WRONG_HANDLE,
    }
}

/// Moves the clock, as `SourceTable::expire`.
#[unsafe(no_mangle)]
pub extern "C" fn sacn_proved_sources_tick(handle: &mut Handle, now: u64, lost: &mut usize) -> u32
    requires { is_some handle.old.value ≡ true }
    ensures status { IfSome handle.old.value
        (λ held. result ≡ of_sources WRONG_HANDLE (λ k. DONE) held) }
    ensures lost { IfSome handle.old.value (λ held. lost.new
        ≡ of_sources lost.old (λ k. rows_lost (max k.table.moment now) k.table.rows) held) }
    ensures few { result ≡ DONE → lost.new ≤ MAX_SOURCES }
    ensures after { handle.new.value ≡ option_map (λ held.
        of_sources held (λ k. Held.Sources (kept_after_expire now k)) held) handle.old.value }
{
    match handle.held() {
        Held::Sources(table) => {
            *lost = table.expire(now);
            DONE
        }
        _ => WRONG_HANDLE,
    }
}

/// The first moment at which a tick drops a source, as `SourceTable::wakes`. The status is `RANGE`, and the moment `u64::MAX`, where no tick drops any.
#[unsafe(no_mangle)]
pub extern "C" fn sacn_proved_sources_wakes(handle: &mut Handle, moment: &mut u64) -> u32
    requires { is_some handle.old.value ≡ true }
    ensures status { IfSome handle.old.value (λ held. result
        ≡ of_sources WRONG_HANDLE (λ k. if result == RANGE then RANGE else DONE) held) }
    ensures unwritten { result ≡ WRONG_HANDLE → moment.new ≡ moment.old }
    ensures never { IfSome handle.old.value (λ held. result ≡ RANGE → (t : ℕ) → t < 2 ^ 64
        → of_sources 0 (λ k. rows_lost (max k.table.moment t) k.table.rows) held ≡ 0) }
    ensures latest { result ≡ RANGE → moment.new ≡ 2 ^ 64 - 1 }
    ensures asleep { IfSome handle.old.value (λ held. result ≡ DONE → (t : ℕ) → t < moment.new
        → of_sources 0 (λ k. rows_lost (max k.table.moment t) k.table.rows) held ≡ 0) }
    ensures awake { IfSome handle.old.value (λ held. result ≡ DONE
        → 1 ≤ of_sources 0 (λ k. rows_lost (max k.table.moment moment.new) k.table.rows) held) }
    ensures after { handle.new.value ≡ handle.old.value }
{
    match handle.held() {
        Held::Sources(table) => match table.wakes() {
            Some(first) => {
                *moment = first;
                DONE
            }
            None => {
                *moment = u64::MAX;
                RANGE
            }
        },
        _ => WRONG_HANDLE,
    }
}

/// What is held of a source, in numbers. `sacn.h` says what each field means.
#[repr(C)]
#[derive(Clone, Copy)]
pub struct SourceFields {
    pub moment: u64,
    pub number: u8,
    pub ended: u8,
    pub priority: u8,
    pub unused: [u8; 5],
}

/// What is held of the source of a CID, and the levels that it shows, as `SourceTable::held`. The status is `RANGE`, and nothing is written,
/// where none is held.
#[unsafe(no_mangle)]
pub extern "C" fn sacn_proved_sources_held(
    handle: &mut Handle,
    cid: &[u8; 16],
    source: &mut SourceFields,
    slots: &mut [u8; 512],
) -> u32
    requires { is_some handle.old.value ≡ true }
    ensures status { IfSome handle.old.value (λ held. result
        ≡ of_sources WRONG_HANDLE (λ k. found_status (row_of cid.now k.table.rows)) held) }
    ensures source { IfSome handle.old.value (λ held. source.new ≡ of_sources source.old
        (λ k. found_or source.old (option_map source_told (row_of cid.now k.table.rows))) held) }
    ensures slots { IfSome handle.old.value
        (λ held. IfSome (of_sources None (λ k. row_of cid.now k.table.rows) held)
        (λ r. (i : ℕ) → i < 512 → slice_index slots.new i ≡ slice_index (levels_told r.shown) i)) }
    ensures unwritten { IfSome handle.old.value (λ held.
        of_sources None (λ k. row_of cid.now k.table.rows) held ≡ None → slots.new ≡ slots.old) }
    ensures after { handle.new.value ≡ handle.old.value }
{
    match handle.held() {
        Held::Sources(table) => match table.held(cid) {
            Some(view) => {
                put_source(&view, source, slots);
                DONE
            }
            None => RANGE,
        },
        _ => WRONG_HANDLE,
    }
}

/// Tells what is held of a source, and the levels that it shows.
pub(crate) fn put_source(view: &HeldView<'_>, source: &mut SourceFields, slots: &mut [u8; 512])
    ensures source { source.new ≡ source_told view.now }
    ensures slots { (i : ℕ) → i < 512
        → slice_index slots.new i ≡ slice_index (levels_told view.now.shown) i }
{
    *source = source_told(view);
    put_shown(view, slots);
}

fn source_told(view: &HeldView<'_>) -> SourceFields
    ensures { result ≡ source_told view.now }
{
    SourceFields {
        moment: view.moment(),
        number: view.number(),
        ended: u8::from(view.ended()),
        priority: view.priority(),
        unused: [0; 5],
    }
}

/// The levels that a source shows, and 0 in each slot of one that has ended.
fn put_shown(view: &HeldView<'_>, slots: &mut [u8; 512])
    ensures { (i : ℕ) → i < 512
        → slice_index slots.new i ≡ slice_index (levels_told view.now.shown) i }
{
    match view.levels() {
        Some(levels) => put_levels(levels, slots),
        None => slots.fill(0),
    }
}

fn put_levels(levels: &Levels, slots: &mut [u8; 512])
    ensures { (i : ℕ) → i < 512 → slice_index slots.new i ≡ slice_index levels.now i }
{
    for i in 0..512 {
        slots[i] = levels.at(i);
    }
}
