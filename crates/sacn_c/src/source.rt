//! Sources that a program hands levels, for C.
ghost use Rattle.std.specs.Prelude.{◌≡◌, ◌↔◌, ◌<◌, ◌≤◌, ◌+◌, min, is_some, true, false, slice_get, [], Option, None, Some, IfSome, ℕ, nat_lt};
ghost use Rattle.std.specs.Option.{option_map};
ghost use Rattle.std.specs.Str.{IsUtf8};
ghost use Rattle.sacn_packets.specs.Naming.{name_from};
ghost use Rattle.sacn_packets.specs.Universe.{Rising};
ghost use Rattle.sacn_console.specs.Core.{IsLawful, due_datagram, over};
ghost use Rattle.sacn_console.specs.Lines.{Datagram};
ghost use Rattle.sacn_console.specs.Wakes.{last_moment};
ghost use Rattle.sacn_source.specs.Source.{Source, after_order, after_poll, at, due};
ghost use Rattle.sacn_source.specs.Table.{Add, SetLevels, SetPriority, End, EndAll, answer, universes_of};
ghost use Rattle.sacn_c.specs.Kinds.{of_source};
ghost use Rattle.sacn_c.specs.Numbers.{found_status, found_or};
ghost use Rattle.sacn_c.specs.Sending.{due_size, line_told};
ghost use Rattle.sacn_c.specs.Sourcing.{SourceOf, SourceStatus, due_universe, order_status};
ghost use Rattle.sacn_c.specs.declared.status.TheConstants.{DONE, WRONG_HANDLE};

use crate::handle::Handle;
use crate::held_value::Held;
use crate::state::{LineFields, line_told};
use crate::status::{DONE, NAME, RANGE, WRONG_HANDLE};
use sacn_console::limits::MAX_DATAGRAM;
use sacn_console::{DueDatagram, Sender};
use sacn_packets::source_name;
use sacn_source::{SourceCore, SourceFault};
use std::alloc::Global;

/// The field of a source's name, as `source_name`; None where the octets aren't UTF-8.
fn name_of(octets: &[u8]) -> Option<[u8; 64]>
    ensures text { IsUtf8 octets.now → result ≡ name_from octets.now }
    ensures is_text { IfSome result (λ name. IsUtf8 octets.now) }
    ensures no_text { ¬ (IsUtf8 octets.now) → result ≡ None }
    ensures named { IfSome result (λ name. name_from octets.now ≡ Some name) }
{
    match std::str::from_utf8(octets) {
        Ok(text) => source_name(text),
        Err(_) => None,
    }
}

/// A source that has no universe yet, with room for so many, as `SourceCore::new`. The status is `NAME`, or the source's fault.
#[unsafe(no_mangle)]
pub extern "C" fn sacn_proved_source_new(
    alloc: Global,
    handle: &mut Handle,
    cid: &[u8; 16],
    name: &[u8],
    priority: u8,
    room: usize,
    first: u8,
) -> u32
    ensures made { result ≡ DONE
        → SourceOf cid.now (name_from name.now) priority room first handle.new.value }
    ensures is_text { result ≡ DONE → IsUtf8 name.now }
    ensures bounded { result ≡ DONE → priority ≤ 200 }
    ensures refused { (result ≡ DONE → ⊥) → handle.new.value ≡ handle.old.value }
    ensures status { (result ≡ DONE → ⊥) → SourceStatus name.now priority result }
{
    let Some(name) = name_of(name) else {
        return NAME;
    };
    let cid = *cid;
    let sender = Sender {
        cid,
        name,
        priority,
    };
    let source = match SourceCore::new(alloc, &sender, room, first) {
        Ok(source) => source,
        Err(fault) => return u32::from(fault.number()),
    };
    match Handle::new(alloc, Held::Source(source)) {
        Ok(made) => {
            *handle = made;
            DONE
        }
        Err(_) => u32::from(SourceFault::OutOfMemory.number()),
    }
}

fn order_status(answer: Result<(), SourceFault>) -> u32
    ensures { result ≡ order_status answer }
{
    match answer {
        Ok(()) => DONE,
        Err(fault) => u32::from(fault.number()),
    }
}

/// Begins a universe, as `SourceCore::add`. The status is the source's fault.
#[unsafe(no_mangle)]
pub extern "C" fn sacn_proved_source_add(handle: &mut Handle, universe: u16) -> u32
    requires { is_some handle.old.value ≡ true }
    ensures status { IfSome handle.old.value (λ held. result
        ≡ of_source WRONG_HANDLE (λ s. order_status (answer (Add universe) s.table)) held) }
    ensures after { handle.new.value ≡ option_map (λ held. of_source held
        (λ s. Held.Source (after_order (Add universe) s)) held) handle.old.value }
{
    match handle.held() {
        Held::Source(source) => order_status(source.add(universe)),
        _ => WRONG_HANDLE,
    }
}

/// Gives a universe other levels, as `SourceCore::set_levels`. The status is the source's fault.
#[unsafe(no_mangle)]
pub extern "C" fn sacn_proved_source_levels(handle: &mut Handle, universe: u16, slots: &[u8]) -> u32
    requires { is_some handle.old.value ≡ true }
    ensures status { IfSome handle.old.value (λ held. result ≡ of_source WRONG_HANDLE
        (λ s. order_status (answer (SetLevels universe slots.now) s.table)) held) }
    ensures after { handle.new.value ≡ option_map (λ held. of_source held
        (λ s. Held.Source (after_order (SetLevels universe slots.now) s)) held) handle.old.value }
{
    match handle.held() {
        Held::Source(source) => order_status(source.set_levels(universe, slots)),
        _ => WRONG_HANDLE,
    }
}

/// Gives a universe another priority, as `SourceCore::set_priority`. The status is the source's fault.
#[unsafe(no_mangle)]
pub extern "C" fn sacn_proved_source_priority(
    handle: &mut Handle,
    universe: u16,
    priority: u8,
) -> u32
    requires { is_some handle.old.value ≡ true }
    ensures status { IfSome handle.old.value (λ held. result ≡ of_source WRONG_HANDLE
        (λ s. order_status (answer (SetPriority universe priority) s.table)) held) }
    ensures after { handle.new.value ≡ option_map (λ held. of_source held
        (λ s. Held.Source (after_order (SetPriority universe priority) s)) held) handle.old.value }
{
    match handle.held() {
        Held::Source(source) => order_status(source.set_priority(universe, priority)),
        _ => WRONG_HANDLE,
    }
}

/// Ends a universe, as `SourceCore::end`. The status is the source's fault.
#[unsafe(no_mangle)]
pub extern "C" fn sacn_proved_source_end(handle: &mut Handle, universe: u16) -> u32
    requires { is_some handle.old.value ≡ true }
    ensures status { IfSome handle.old.value (λ held. result
        ≡ of_source WRONG_HANDLE (λ s. order_status (answer (End universe) s.table)) held) }
    ensures after { handle.new.value ≡ option_map (λ held. of_source held
        (λ s. Held.Source (after_order (End universe) s)) held) handle.old.value }
{
    match handle.held() {
        Held::Source(source) => order_status(source.end(universe)),
        _ => WRONG_HANDLE,
    }
}

/// Ends each universe that runs, as `SourceCore::end_all`.
#[unsafe(no_mangle)]
pub extern "C" fn sacn_proved_source_end_all(handle: &mut Handle) -> u32
    requires { is_some handle.old.value ≡ true }
    ensures status { IfSome handle.old.value
        (λ held. result ≡ of_source WRONG_HANDLE (λ s. DONE) held) }
    ensures after { handle.new.value ≡ option_map (λ held. of_source held
        (λ s. Held.Source (after_order EndAll s)) held) handle.old.value }
{
    match handle.held() {
        Held::Source(source) => {
            source.end_all();
            DONE
        }
        _ => WRONG_HANDLE,
    }
}

/// How many octets a datagram has, and its universe, 0 of a page; both are 0 where none is due.
fn told(due: Option<DueDatagram>) -> (usize, u16)
    ensures count { (d : Option Datagram) → due ≡ option_map due_datagram d → result.0 ≡ due_size d }
    ensures universe { (d : Option Datagram) → due ≡ option_map due_datagram d
        → result.1 ≡ due_universe d }
{
    match due {
        Some(due) => (due.len, due.universe.unwrap_or(0)),
        None => (0, 0),
    }
}

/// Gives the datagram that is due, as `SourceCore::poll`, and its universe, 0 of a discovery page; both numbers are 0 where none is due.
#[unsafe(no_mangle)]
#[tactic(auto, using(crate::proofs::StatusFields::none_due))]
pub extern "C" fn sacn_proved_source_poll(
    handle: &mut Handle,
    now: u64,
    out: &mut [u8; MAX_DATAGRAM],
    count: &mut usize,
    universe: &mut u16,
) -> u32
    requires { is_some handle.old.value ≡ true }
    ensures status { IfSome handle.old.value
        (λ held. result ≡ of_source WRONG_HANDLE (λ s. DONE) held) }
    ensures lawful { (s : Source) (d : Datagram) → handle.old.value ≡ Some (Held.Source s)
        → due (at now s) ≡ Some d → IsLawful s.sender d }
    ensures octets { IfSome handle.old.value
        (λ held. out.new ≡ of_source out.old (λ s. over s.sender (due (at now s)) out.old) held) }
    ensures count { IfSome handle.old.value
        (λ held. count.new ≡ of_source count.old (λ s. due_size (due (at now s))) held) }
    ensures universe { IfSome handle.old.value
        (λ held. universe.new ≡ of_source universe.old (λ s. due_universe (due (at now s))) held) }
    ensures none { (s : Source) → handle.old.value ≡ Some (Held.Source s) → (count.new ≡ 0)
        ↔ (due (at now s) ≡ None) }
    ensures after { handle.new.value ≡ option_map
        (λ held. of_source held (λ s. Held.Source (after_poll now s)) held) handle.old.value }
{
    match handle.held() {
        Held::Source(source) => {
            let (len, number) = told(source.poll(now, out));
            *count = len;
            *universe = number;
            DONE
        }
        _ => WRONG_HANDLE,
    }
}

/// The first moment at which something can be due as long as no call comes, as `SourceCore::wakes`.
#[unsafe(no_mangle)]
pub extern "C" fn sacn_proved_source_wakes(handle: &mut Handle, moment: &mut u64) -> u32
    requires { is_some handle.old.value ≡ true }
    ensures status { IfSome handle.old.value
        (λ held. result ≡ of_source WRONG_HANDLE (λ s. DONE) held) }
    ensures unwritten { result ≡ WRONG_HANDLE → moment.new ≡ moment.old }
    ensures ahead { IfSome handle.old.value (λ held. 0 < moment.new
        → of_source 0 (λ s. min (s.moment + 1) last_moment) held ≤ moment.new) }
    ensures quiet { IfSome handle.old.value
        (λ held. (t : ℕ) → t < moment.new → of_source None (λ s. due (at t s)) held ≡ None) }
    ensures exact { IfSome handle.old.value (λ held. of_source false
        (λ s. nat_lt moment.new last_moment) held ≡ true
        → of_source false (λ s. is_some (due (at moment.new s))) held ≡ true) }
    ensures after { handle.new.value ≡ handle.old.value }
{
    match handle.held() {
        Held::Source(source) => {
            *moment = source.wakes();
            DONE
        }
        _ => WRONG_HANDLE,
    }
}

/// What is kept of the universe at a place, by ascending number, from 0 on, as `SourceCore::universes`. The status is `RANGE`, and the fields as
/// they were, where there is none.
#[unsafe(no_mangle)]
pub extern "C" fn sacn_proved_source_universe(
    handle: &mut Handle,
    place: usize,
    fields: &mut LineFields,
) -> u32
    requires { is_some handle.old.value ≡ true }
    ensures status { IfSome handle.old.value (λ held. result
        ≡ of_source WRONG_HANDLE (λ s. found_status (slice_get s.table.rows place)) held) }
    ensures fields { IfSome handle.old.value (λ held. fields.new
        ≡ of_source fields.old (λ s. found_or fields.old
        (option_map (λ r. line_told r.line) (slice_get s.table.rows place))) held) }
    ensures ascending { IfSome handle.old.value
        (λ held. Rising (of_source [] (λ s. universes_of s.table.rows) held)) }
    ensures after { handle.new.value ≡ handle.old.value }
{
    match handle.held() {
        Held::Source(source) => match source.universes().get(place) {
            Some(row) => {
                *fields = line_told(&row.line);
                DONE
            }
            None => RANGE,
        },
        _ => WRONG_HANDLE,
    }
}
