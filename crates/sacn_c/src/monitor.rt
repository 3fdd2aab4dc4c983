//! Monitors, for C.
ghost use Rattle.std.specs.Prelude.{◌≡◌, max, length, slice_get, is_some, true, Some, IfSome};
ghost use Rattle.std.specs.Option.{option_map};
ghost use Rattle.sacn_monitor.specs.Books.{new_book, note_of, after_take, after_tick, next_loss, silent_place};
ghost use Rattle.sacn_monitor.specs.Rivals.{rivals, top_priority};
ghost use Rattle.sacn_c.specs.Hearing.{sender_of, news_told, noted_status, stream_told};
ghost use Rattle.sacn_c.specs.Kinds.{of_monitor};
ghost use Rattle.sacn_c.specs.Numbers.{found_status, found_or};
ghost use Rattle.sacn_c.specs.declared.status.TheConstants.{DONE, OUT_OF_MEMORY, WRONG_HANDLE};

use crate::handle::Handle;
use crate::held_value::Held;
use crate::news::{NewsFields, SenderFields, StreamFields, sender_of, stream_told, tell};
use crate::status::{DONE, OUT_OF_MEMORY, RANGE, WRONG_HANDLE};
use sacn_monitor::Monitor;
use std::alloc::Global;

/// A monitor that has heard nothing, as `Monitor::new`.
#[unsafe(no_mangle)]
pub extern "C" fn sacn_proved_monitor_new(alloc: Global, handle: &mut Handle) -> u32
    ensures made { result ≡ DONE → handle.new.value ≡ Some (Held.Monitor new_book) }
    ensures refused { (result ≡ DONE → ⊥) → handle.new.value ≡ handle.old.value }
    ensures status { (result ≡ DONE → ⊥) → result ≡ OUT_OF_MEMORY }
{
    let Ok(monitor) = Monitor::new(alloc) else {
        return OUT_OF_MEMORY;
    };
    match Handle::new(alloc, Held::Monitor(monitor)) {
        Ok(made) => {
            *handle = made;
            DONE
        }
        Err(_) => OUT_OF_MEMORY,
    }
}

/// Takes a datagram of a sender, as `Monitor::take`. The status is the fault of one that is no packet.
#[unsafe(no_mangle)]
pub extern "C" fn sacn_proved_monitor_take(
    handle: &mut Handle,
    now: u64,
    sender: &SenderFields,
    octets: &[u8],
    news: &mut NewsFields,
) -> u32
    requires { is_some handle.old.value ≡ true }
    ensures status { IfSome handle.old.value (λ held. result ≡ of_monitor WRONG_HANDLE
        (λ b. noted_status (note_of now (sender_of sender.now) octets.now b)) held) }
    ensures news { IfSome handle.old.value (λ held. news.new ≡ of_monitor news.old
        (λ b. news_told (note_of now (sender_of sender.now) octets.now b)) held) }
    ensures after { handle.new.value ≡ option_map (λ held. of_monitor held (λ b.
        Held.Monitor (after_take now (sender_of sender.now) octets.now b)) held) handle.old.value }
{
    match handle.held() {
        Held::Monitor(monitor) => tell(&monitor.take(now, sender_of(sender), octets), news),
        _ => WRONG_HANDLE,
    }
}

/// Moves the clock, and tells the place of a source that is lost by then and of which that wasn't told yet, as `Monitor::tick`. The status is
/// `RANGE`, and the place as it was, where there is none.
#[unsafe(no_mangle)]
pub extern "C" fn sacn_proved_monitor_tick(handle: &mut Handle, now: u64, place: &mut usize) -> u32
    requires { is_some handle.old.value ≡ true }
    ensures status { IfSome handle.old.value (λ held. result ≡ of_monitor WRONG_HANDLE
        (λ b. found_status (silent_place (max b.moment now) b.streams)) held) }
    ensures place { IfSome handle.old.value (λ held. place.new ≡ of_monitor place.old
        (λ b. found_or place.old (silent_place (max b.moment now) b.streams)) held) }
    ensures after { handle.new.value ≡ option_map
        (λ held. of_monitor held (λ b. Held.Monitor (after_tick now b)) held) handle.old.value }
{
    match handle.held() {
        Held::Monitor(monitor) => match monitor.tick(now) {
            Some(lost) => {
                *place = lost;
                DONE
            }
            None => RANGE,
        },
        _ => WRONG_HANDLE,
    }
}

/// The first moment at which a tick tells of a source, as `Monitor::next_loss`; `u64::MAX` where none does.
#[unsafe(no_mangle)]
pub extern "C" fn sacn_proved_monitor_wakes(handle: &mut Handle, moment: &mut u64) -> u32
    requires { is_some handle.old.value ≡ true }
    ensures status { IfSome handle.old.value
        (λ held. result ≡ of_monitor WRONG_HANDLE (λ b. DONE) held) }
    ensures moment { IfSome handle.old.value
        (λ held. moment.new ≡ of_monitor moment.old (λ b. next_loss b.streams) held) }
    ensures after { handle.new.value ≡ handle.old.value }
{
    match handle.held() {
        Held::Monitor(monitor) => {
            *moment = monitor.next_loss();
            DONE
        }
        _ => WRONG_HANDLE,
    }
}

/// How many pairs of a universe and a source have an account.
#[unsafe(no_mangle)]
pub extern "C" fn sacn_proved_monitor_count(handle: &mut Handle, count: &mut usize) -> u32
    requires { is_some handle.old.value ≡ true }
    ensures status { IfSome handle.old.value
        (λ held. result ≡ of_monitor WRONG_HANDLE (λ b. DONE) held) }
    ensures count { IfSome handle.old.value
        (λ held. count.new ≡ of_monitor count.old (λ b. length b.streams) held) }
    ensures after { handle.new.value ≡ handle.old.value }
{
    match handle.held() {
        Held::Monitor(monitor) => {
            *count = monitor.streams().len();
            DONE
        }
        _ => WRONG_HANDLE,
    }
}

/// The account of the pair at a place, in the order in which they appeared, from 0 on; its state and rate are those of the greatest moment
/// that was handed in. The status is `RANGE`, and the fields as they were, where there is none.
#[unsafe(no_mangle)]
pub extern "C" fn sacn_proved_monitor_account(
    handle: &mut Handle,
    place: usize,
    fields: &mut StreamFields,
) -> u32
    requires { is_some handle.old.value ≡ true }
    ensures status { IfSome handle.old.value (λ held. result
        ≡ of_monitor WRONG_HANDLE (λ b. found_status (slice_get b.streams place)) held) }
    ensures fields { IfSome handle.old.value (λ held. fields.new ≡ of_monitor fields.old (λ b.
        found_or fields.old (option_map (stream_told b.moment) (slice_get b.streams place))) held) }
    ensures after { handle.new.value ≡ handle.old.value }
{
    match handle.held() {
        Held::Monitor(monitor) => match monitor.streams().get(place) {
            Some(stream) => {
                *fields = stream_told(monitor.moment(), stream);
                DONE
            }
            None => RANGE,
        },
        _ => WRONG_HANDLE,
    }
}

/// How many sources light a universe at the greatest priority of those that light it, as `Monitor::rivals` and `Monitor::top_priority`.
#[unsafe(no_mangle)]
pub extern "C" fn sacn_proved_monitor_rivals(
    handle: &mut Handle,
    universe: u16,
    count: &mut usize,
    priority: &mut u8,
) -> u32
    requires { is_some handle.old.value ≡ true }
    ensures status { IfSome handle.old.value
        (λ held. result ≡ of_monitor WRONG_HANDLE (λ b. DONE) held) }
    ensures count { IfSome handle.old.value
        (λ held. count.new ≡ of_monitor count.old (λ b. rivals universe b.moment b.streams) held) }
    ensures priority { IfSome handle.old.value (λ held. priority.new
        ≡ of_monitor priority.old (λ b. top_priority universe b.moment b.streams) held) }
    ensures after { handle.new.value ≡ handle.old.value }
{
    match handle.held() {
        Held::Monitor(monitor) => {
            *count = monitor.rivals(universe);
            *priority = monitor.top_priority(universe);
            DONE
        }
        _ => WRONG_HANDLE,
    }
}
