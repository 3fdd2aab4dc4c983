//! Consoles, for C.
ghost use Rattle.std.specs.Prelude.{◌≡◌, ◌↔◌, ◌<◌, ◌&&◌, ◌≤◌, ◌+◌, min, is_some, slice_get, true, false, [], None, Some, IfSome, IfNone, MatchOption, ℕ, nat_lt, IfOk, IfErr};
ghost use Rattle.std.specs.Option.{option_map};
ghost use Rattle.std.specs.Str.{IsUtf8};
ghost use Rattle.toml.specs.Parse.{parse_document};
ghost use Rattle.sacn_cues.specs.Playing.{is_still};
ghost use Rattle.sacn_packets.specs.Universe.{Rising};
ghost use Rattle.sacn_console.specs.Core.{Core, IsLawful, after_command, after_poll, answer, at, due, over, universes_of};
ghost use Rattle.sacn_console.specs.Lines.{Datagram};
ghost use Rattle.sacn_console.specs.ShowReading.{show_or_toml};
ghost use Rattle.sacn_console.specs.Wakes.{last_moment};
ghost use Rattle.sacn_c.specs.Kinds.{of_console};
ghost use Rattle.sacn_c.specs.Making.{ConsoleOf, ShowStatus};
ghost use Rattle.sacn_c.specs.Numbers.{found_status, found_or};
ghost use Rattle.sacn_c.specs.Sending.{answer_status, command_of, due_size, line_told};
ghost use Rattle.sacn_c.specs.declared.status.TheConstants.{DONE, RANGE, WRONG_HANDLE};
ghost use Rattle.sacn_files.specs.Document.{Gives};
ghost use Rattle.sacn_console.specs.declared.show.fault.ShowFault.TheVariants as fault;

use crate::handle::Handle;
use crate::held_value::Held;
use crate::state::{LineFields, line_told};
use crate::status::{DONE, RANGE, WRONG_HANDLE};
use sacn_console::limits::MAX_DATAGRAM;
use sacn_console::{Command, ConsoleCore, ConsoleFault, Show, ShowFault, read_show};
use std::alloc::Global;

/// A show of octets, as `read_show`; `Toml` where they aren't UTF-8.
fn show_of(alloc: Global, octets: &[u8]) -> Result<Show, ShowFault>
    ensures text { IsUtf8 octets.now
        → Gives fault.OutOfMemory result (show_or_toml (parse_document octets.now)) }
    ensures is_text { IfOk result (λ s. IsUtf8 octets.now) }
    ensures no_text { ¬ (IsUtf8 octets.now) → IfErr result (λ f. f ≡ fault.Toml) }
    ensures made { IfOk result (λ s. show_or_toml (parse_document octets.now) ≡ Ok s) }
{
    match std::str::from_utf8(octets) {
        Ok(text) => read_show(alloc, text),
        Err(_) => Err(ShowFault::Toml),
    }
}

/// A console of a show's text, whose first packets have the number `first`, as `read_show` and `ConsoleCore::new`. The status is the show's
/// fault.
#[unsafe(no_mangle)]
#[tactic(auto, using(crate::proofs::Refusals::show_lacks, crate::proofs::Refusals::show_counts))]
pub extern "C" fn sacn_proved_console_new(
    alloc: Global,
    handle: &mut Handle,
    text: &[u8],
    first: u8,
) -> u32
    ensures made { result ≡ DONE → MatchOption handle.new.value ⊥
        (ConsoleOf (show_or_toml (parse_document text.now)) first) }
    ensures is_text { result ≡ DONE → IsUtf8 text.now }
    ensures refused { (result ≡ DONE → ⊥) → handle.new.value ≡ handle.old.value }
    ensures status { (result ≡ DONE → ⊥) → ShowStatus text.now result }
{
    let show = match show_of(alloc, text) {
        Ok(show) => show,
        Err(fault) => return u32::from(fault.number()),
    };
    let console = match ConsoleCore::new(alloc, &show, first) {
        Ok(console) => console,
        Err(fault) => return u32::from(fault.number()),
    };
    match Handle::new(alloc, Held::Console(console)) {
        Ok(made) => {
            *handle = made;
            DONE
        }
        Err(_) => u32::from(ShowFault::OutOfMemory.number()),
    }
}

fn answer_status(answer: Result<(), ConsoleFault>) -> u32
    ensures { result ≡ answer_status answer }
{
    match answer {
        Ok(()) => DONE,
        Err(fault) => u32::from(fault.number()),
    }
}

/// The command of a number, 1 to 6 in the order of `Command`, with its cue, channel or universe, and its level.
fn command_of(kind: u8, number: u16, level: u16) -> Option<Command>
    ensures { result ≡ command_of kind number level }
{
    match kind {
        1 => Some(Command::Go),
        2 => Some(Command::GoTo(number)),
        3 => Some(Command::SetLevel(number, level)),
        4 => Some(Command::Master(level)),
        5 => Some(Command::EndUniverse(number)),
        6 => Some(Command::StartUniverse(number)),
        _ => None,
    }
}

/// Takes a command, as `ConsoleCore::command`. The status is the console's fault, or `RANGE`, and nothing changes, where no command
/// has this number.
#[unsafe(no_mangle)]
pub extern "C" fn sacn_proved_console_command(
    handle: &mut Handle,
    now: u64,
    kind: u8,
    number: u16,
    level: u16,
) -> u32
    requires { is_some handle.old.value ≡ true }
    ensures status { IfSome
        (command_of kind number level) (λ command. IfSome handle.old.value (λ held. result
        ≡ of_console WRONG_HANDLE (λ c. answer_status (answer command (at now c))) held)) }
    ensures after { IfSome (command_of kind number level)
        (λ command. handle.new.value ≡ option_map (λ held.
        of_console held (λ c. Held.Console (after_command now command c)) held) handle.old.value) }
    ensures refused { IfNone (command_of kind number level)
        ((result ≡ RANGE) × (handle.new.value ≡ handle.old.value)) }
{
    let Some(command) = command_of(kind, number, level) else {
        return RANGE;
    };
    match handle.held() {
        Held::Console(console) => answer_status(console.command(now, command)),
        _ => WRONG_HANDLE,
    }
}

/// Gives the datagram that is due, as `ConsoleCore::poll`; the count is 0 where none is.
#[unsafe(no_mangle)]
#[tactic(auto, using(crate::proofs::StatusFields::none_due))]
pub extern "C" fn sacn_proved_console_poll(
    handle: &mut Handle,
    now: u64,
    out: &mut [u8; MAX_DATAGRAM],
    count: &mut usize,
) -> u32
    requires { is_some handle.old.value ≡ true }
    ensures status { IfSome handle.old.value
        (λ held. result ≡ of_console WRONG_HANDLE (λ c. DONE) held) }
    ensures lawful { (c : Core) (d : Datagram) → handle.old.value ≡ Some (Held.Console c)
        → due (at now c) ≡ Some d → IsLawful c.sender d }
    ensures octets { IfSome handle.old.value
        (λ held. out.new ≡ of_console out.old (λ c. over c.sender (due (at now c)) out.old) held) }
    ensures count { IfSome handle.old.value
        (λ held. count.new ≡ of_console count.old (λ c. due_size (due (at now c))) held) }
    ensures none { (c : Core) → handle.old.value ≡ Some (Held.Console c) → (count.new ≡ 0)
        ↔ (due (at now c) ≡ None) }
    ensures after { handle.new.value ≡ option_map
        (λ held. of_console held (λ c. Held.Console (after_poll now c)) held) handle.old.value }
{
    match handle.held() {
        Held::Console(console) => {
            *count = console.poll(now, out).unwrap_or(0);
            DONE
        }
        _ => WRONG_HANDLE,
    }
}

/// The first moment at which something can be due, as `ConsoleCore::wakes`.
#[unsafe(no_mangle)]
pub extern "C" fn sacn_proved_console_wakes(handle: &mut Handle, moment: &mut u64) -> u32
    requires { is_some handle.old.value ≡ true }
    ensures status { IfSome handle.old.value
        (λ held. result ≡ of_console WRONG_HANDLE (λ c. DONE) held) }
    ensures unwritten { result ≡ WRONG_HANDLE → moment.new ≡ moment.old }
    ensures ahead { IfSome handle.old.value (λ held. 0 < moment.new
        → of_console 0 (λ c. min (c.moment + 1) last_moment) held ≤ moment.new) }
    ensures quiet { IfSome handle.old.value
        (λ held. (t : ℕ) → t < moment.new → of_console None (λ c. due (at t c)) held ≡ None) }
    ensures exact { IfSome handle.old.value (λ held. of_console false
        (λ c. is_still c.lights.player && nat_lt moment.new last_moment) held ≡ true
        → of_console false (λ c. is_some (due (at moment.new c))) held ≡ true) }
    ensures after { handle.new.value ≡ handle.old.value }
{
    match handle.held() {
        Held::Console(console) => {
            *moment = console.wakes();
            DONE
        }
        _ => WRONG_HANDLE,
    }
}

/// What is kept of the universe at a place, by ascending number, from 0 on, as `ConsoleCore::lines`. The status is `RANGE`, and the fields as
/// they were, where there is none.
#[unsafe(no_mangle)]
pub extern "C" fn sacn_proved_console_universe(
    handle: &mut Handle,
    place: usize,
    fields: &mut LineFields,
) -> u32
    requires { is_some handle.old.value ≡ true }
    ensures status { IfSome handle.old.value (λ held. result
        ≡ of_console WRONG_HANDLE (λ c. found_status (slice_get c.lines place)) held) }
    ensures fields { IfSome handle.old.value (λ held. fields.new ≡ of_console fields.old
        (λ c. found_or fields.old (option_map line_told (slice_get c.lines place))) held) }
    ensures ascending { IfSome handle.old.value
        (λ held. Rising (of_console [] (λ c. universes_of c.lines) held)) }
    ensures after { handle.new.value ≡ handle.old.value }
{
    match handle.held() {
        Held::Console(console) => match console.lines().get(place) {
            Some(line) => {
                *fields = line_told(line);
                DONE
            }
            None => RANGE,
        },
        _ => WRONG_HANDLE,
    }
}

/// The number of the cue that was gone to last, as `ConsoleCore::cue`. The status is `RANGE`, and the number as it was, before the first.
#[unsafe(no_mangle)]
pub extern "C" fn sacn_proved_console_cue(handle: &mut Handle, number: &mut u16) -> u32
    requires { is_some handle.old.value ≡ true }
    ensures status { IfSome handle.old.value (λ held. result
        ≡ of_console WRONG_HANDLE (λ c. found_status c.lights.player.current) held) }
    ensures number { IfSome handle.old.value (λ held. number.new
        ≡ of_console number.old (λ c. found_or number.old c.lights.player.current) held) }
    ensures after { handle.new.value ≡ handle.old.value }
{
    match handle.held() {
        Held::Console(console) => match console.cue() {
            Some(current) => {
                *number = current;
                DONE
            }
            None => RANGE,
        },
        _ => WRONG_HANDLE,
    }
}
