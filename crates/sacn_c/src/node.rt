//! Nodes, for C.
ghost use Rattle.std.specs.Prelude.{◌≡◌, ◌==◌, ◌<◌, ◌≤◌, ◌^◌, ◌-◌, is_some, true, [], None, Some, IfSome, MatchOption, ℕ, length, slice_index, if◌then◌else◌, IfOk, IfErr};
ghost use Rattle.std.specs.List.Sorted.{IsStrictlyIncreasing};
ghost use Rattle.std.specs.Option.{option_map};
ghost use Rattle.std.specs.Str.{IsUtf8};
ghost use Rattle.toml.specs.Parse.{parse_document};
ghost use Rattle.sacn_packets.specs.PacketReading.{reading_packet};
ghost use Rattle.sacn_node.specs.Cores.{core_at, core_lost, core_row, new_node, node_frame};
ghost use Rattle.sacn_node.specs.Readings.{reply_to, after_reading};
ghost use Rattle.sacn_node.specs.Setup.{port_numbers};
ghost use Rattle.sacn_node.specs.declared.limits.TheConstants.{MAX_PORTS, MIN_PORT};
ghost use Rattle.sacn_node.specs.SetupReading.{setup_or_toml};
ghost use Rattle.sacn_node.specs.WholeUniverses.{whole_ports};
ghost use Rattle.sacn_c.specs.Kinds.{of_node};
ghost use Rattle.sacn_c.specs.Making.{NodeOf, SetupStatus, IsWant, universes_status};
ghost use Rattle.sacn_c.specs.Merging.{source_told, levels_told};
ghost use Rattle.sacn_c.specs.Numbers.{node_taken_number, node_taken_status, frame_status, frame_or, found_status, found_or};
ghost use Rattle.sacn_c.specs.Rooms.{room_status, room_with};
ghost use Rattle.sacn_c.specs.declared.status.TheConstants.{DONE, RANGE, WRONG_HANDLE};
ghost use Rattle.sacn_files.specs.Document.{Gives};
ghost use Rattle.sacn_node.specs.declared.setup.fault.SetupFault.TheVariants as fault;

use crate::handle::Handle;
use crate::held_value::Held;
use crate::numbers::{node_taken_number, node_taken_status};
use crate::rooms::put_list;
use crate::sources::{SourceFields, put_source};
use crate::status::{DONE, LENGTH, OUT_OF_MEMORY, RANGE, WRONG_HANDLE};
use sacn_files::numbers::has_repeat;
use sacn_node::{MAX_PORTS, NodeCore, NodeSetup, SetupFault, read_node, setup_of_universes};
use sacn_packets::FRAME_OCTETS;
use std::alloc::Global;

/// A setup of octets, as `read_node`; `Toml` where they aren't UTF-8.
fn setup_of(alloc: Global, octets: &[u8]) -> Result<NodeSetup, SetupFault>
    ensures text { IsUtf8 octets.now
        → Gives fault.OutOfMemory result (setup_or_toml (parse_document octets.now)) }
    ensures is_text { IfOk result (λ s. IsUtf8 octets.now) }
    ensures no_text { ¬ (IsUtf8 octets.now) → IfErr result (λ f. f ≡ fault.Toml) }
    ensures made { IfOk result (λ s. setup_or_toml (parse_document octets.now) ≡ Ok s) }
{
    match std::str::from_utf8(octets) {
        Ok(text) => read_node(alloc, text),
        Err(_) => Err(SetupFault::Toml),
    }
}

/// A node of a setup's text, as `read_node` and `NodeCore::new`, with the UDP port that it names. The status is the setup's fault.
#[unsafe(no_mangle)]
#[tactic(auto, using(crate::proofs::Refusals::setup_lacks, crate::proofs::Refusals::setup_counts))]
pub extern "C" fn sacn_proved_node_new(
    alloc: Global,
    handle: &mut Handle,
    text: &[u8],
    udp_port: &mut u16,
) -> u32
    ensures made { result ≡ DONE → MatchOption handle.new.value ⊥
        (λ held. NodeOf (setup_or_toml (parse_document text.now)) held udp_port.new) }
    ensures is_text { result ≡ DONE → IsUtf8 text.now }
    ensures refused { (result ≡ DONE → ⊥) → handle.new.value ≡ handle.old.value }
    ensures status { (result ≡ DONE → ⊥) → SetupStatus text.now result }
    ensures unwritten { (result ≡ DONE → ⊥) → udp_port.new ≡ udp_port.old }
{
    let setup = match setup_of(alloc, text) {
        Ok(setup) => setup,
        Err(fault) => return u32::from(fault.number()),
    };
    let Ok(node) = NodeCore::new(alloc, &setup) else {
        return u32::from(SetupFault::OutOfMemory.number());
    };
    match Handle::new(alloc, Held::Node(node)) {
        Ok(made) => {
            *handle = made;
            *udp_port = setup.udp_port();
            DONE
        }
        Err(_) => u32::from(SetupFault::OutOfMemory.number()),
    }
}

/// The node of universes, as `setup_of_universes` and `NodeCore::new`, or why there is none.
fn node_of(alloc: Global, universes: &[u16]) -> Result<NodeCore, u32>
    ensures made { IfOk result (λ n. n ≡ new_node (whole_ports MIN_PORT universes.now)) }
    ensures only { IfOk result (λ n. universes_status universes.now ≡ DONE) }
    ensures status { IfErr result (λ status. IsWant universes.now status) }
    ensures counts { IfErr result (λ status. 1 ≤ status) }
{
    if universes.is_empty() || MAX_PORTS < universes.len() {
        return Err(LENGTH);
    }
    if has_repeat(universes) {
        return Err(RANGE);
    }
    let setup = match setup_of_universes(alloc, universes) {
        Ok(setup) => setup,
        Err(SetupFault::KeyValue) => return Err(RANGE),
        Err(_) => return Err(OUT_OF_MEMORY),
    };
    match NodeCore::new(alloc, &setup) {
        Ok(node) => Ok(node),
        Err(_) => Err(OUT_OF_MEMORY),
    }
}

/// A node whose port `i + 1` shows the whole of `universes[i]`. The status is `LENGTH` where there are none or more than `MAX_PORTS`, `RANGE` where
/// one isn't 1 to 63999 or stands twice, and `OUT_OF_MEMORY`.
#[unsafe(no_mangle)]
pub extern "C" fn sacn_proved_node_of_universes(
    alloc: Global,
    handle: &mut Handle,
    universes: &[u16],
) -> u32
    ensures made { result ≡ DONE → handle.new.value
        ≡ Some (Held.Node (new_node (whole_ports MIN_PORT universes.now))) }
    ensures only { result ≡ DONE → universes_status universes.now ≡ DONE }
    ensures refused { (result ≡ DONE → ⊥) → handle.new.value ≡ handle.old.value }
    ensures status { (result ≡ DONE → ⊥) → IsWant universes.now result }
{
    let node = match node_of(alloc, universes) {
        Ok(node) => node,
        Err(status) => return status,
    };
    match Handle::new(alloc, Held::Node(node)) {
        Ok(made) => {
            *handle = made;
            DONE
        }
        Err(_) => OUT_OF_MEMORY,
    }
}

/// Takes a datagram, as `NodeCore::take`. The status is the fault of one that is no packet.
#[unsafe(no_mangle)]
pub extern "C" fn sacn_proved_node_take(
    handle: &mut Handle,
    now: u64,
    octets: &[u8],
    taken: &mut u8,
) -> u32
    requires { is_some handle.old.value ≡ true }
    ensures status { IfSome handle.old.value (λ held. result ≡ of_node WRONG_HANDLE
        (λ n. node_taken_status (reply_to (reading_packet octets.now) now n.core)) held) }
    ensures taken { IfSome handle.old.value (λ held. taken.new ≡ of_node taken.old
        (λ n. node_taken_number (reply_to (reading_packet octets.now) now n.core)) held) }
    ensures after { handle.new.value ≡ option_map (λ held. of_node held (λ n.
        Held.Node (record n { core = after_reading (reading_packet octets.now) now n.core })) held)
        handle.old.value }
{
    match handle.held() {
        Held::Node(node) => {
            let reply = node.take(now, octets);
            *taken = node_taken_number(reply);
            node_taken_status(reply)
        }
        _ => WRONG_HANDLE,
    }
}

/// Moves the clock, as `NodeCore::tick`.
#[unsafe(no_mangle)]
pub extern "C" fn sacn_proved_node_tick(handle: &mut Handle, now: u64, lost: &mut usize) -> u32
    requires { is_some handle.old.value ≡ true }
    ensures status { IfSome handle.old.value
        (λ held. result ≡ of_node WRONG_HANDLE (λ n. DONE) held) }
    ensures lost { IfSome handle.old.value
        (λ held. lost.new ≡ of_node lost.old (λ n. core_lost now n.core) held) }
    ensures after { handle.new.value ≡ option_map (λ held. of_node held
        (λ n. Held.Node (record n { core = core_at now n.core })) held) handle.old.value }
{
    match handle.held() {
        Held::Node(node) => {
            *lost = node.tick(now);
            DONE
        }
        _ => WRONG_HANDLE,
    }
}

/// Writes the frame of a port, as `NodeCore::frame`. The status is `RANGE`, and the frame as it was, where there is no such port.
#[unsafe(no_mangle)]
pub extern "C" fn sacn_proved_node_frame(
    handle: &mut Handle,
    now: u64,
    port: u8,
    slots: &mut [u8; FRAME_OCTETS],
) -> u32
    requires { is_some handle.old.value ≡ true }
    ensures status { IfSome handle.old.value (λ held. result ≡ of_node WRONG_HANDLE
        (λ n. frame_status (node_frame port (record n { core = core_at now n.core }))) held) }
    ensures frame { IfSome handle.old.value (λ held. slots.new ≡ of_node slots.old
        (λ n. frame_or slots.old (node_frame port (record n { core = core_at now n.core }))) held) }
    ensures after { handle.new.value ≡ option_map (λ held. of_node held
        (λ n. Held.Node (record n { core = core_at now n.core })) held) handle.old.value }
{
    match handle.held() {
        Held::Node(node) => match node.frame(now, port, slots) {
            Ok(()) => DONE,
            Err(_) => RANGE,
        },
        _ => WRONG_HANDLE,
    }
}

/// The first moment at which a tick drops a source, as `NodeCore::wakes`. The status is `RANGE`, and the moment `u64::MAX`, where no tick drops any.
#[unsafe(no_mangle)]
pub extern "C" fn sacn_proved_node_wakes(handle: &mut Handle, moment: &mut u64) -> u32
    requires { is_some handle.old.value ≡ true }
    ensures status { IfSome handle.old.value (λ held. result
        ≡ of_node WRONG_HANDLE (λ n. if result == RANGE then RANGE else DONE) held) }
    ensures unwritten { result ≡ WRONG_HANDLE → moment.new ≡ moment.old }
    ensures never { IfSome handle.old.value (λ held. result ≡ RANGE → (t : ℕ) → t < 2 ^ 64
        → of_node 0 (λ n. core_lost t n.core) held ≡ 0) }
    ensures latest { result ≡ RANGE → moment.new ≡ 2 ^ 64 - 1 }
    ensures asleep { IfSome handle.old.value (λ held. result ≡ DONE → (t : ℕ) → t < moment.new
        → of_node 0 (λ n. core_lost t n.core) held ≡ 0) }
    ensures awake { IfSome handle.old.value
        (λ held. result ≡ DONE → 1 ≤ of_node 0 (λ n. core_lost moment.new n.core) held) }
    ensures after { handle.new.value ≡ handle.old.value }
{
    match handle.held() {
        Held::Node(node) => match node.wakes() {
            Some(first) => {
                *moment = first;
                DONE
            }
            None => {
                *moment = u64::MAX;
                RANGE
            }
        },
        _ => WRONG_HANDLE,
    }
}

/// Copies the numbers of the ports, ascending, to the front of a room, as `NodeCore::port_numbers`, and tells how many there are. The status is
/// `LENGTH`, and the room as it was, where there is too little of it.
#[unsafe(no_mangle)]
pub extern "C" fn sacn_proved_node_ports(
    handle: &mut Handle,
    ports: &mut [u8],
    count: &mut usize,
) -> u32
    requires { is_some handle.old.value ≡ true }
    ensures status { IfSome handle.old.value (λ held. result
        ≡ of_node WRONG_HANDLE (λ n. room_status ports.old (port_numbers n.ports)) held) }
    ensures count { IfSome handle.old.value
        (λ held. count.new ≡ of_node count.old (λ n. length (port_numbers n.ports)) held) }
    ensures ports { IfSome handle.old.value (λ held. ports.new
        ≡ of_node ports.old (λ n. room_with ports.old (port_numbers n.ports)) held) }
    ensures rising { IfSome handle.old.value
        (λ held. IsStrictlyIncreasing (of_node [] (λ n. port_numbers n.ports) held)) }
    ensures few { IfSome handle.old.value
        (λ held. length (of_node [] (λ n. port_numbers n.ports) held) ≤ MAX_PORTS) }
    ensures after { handle.new.value ≡ handle.old.value }
{
    match handle.held() {
        Held::Node(node) => put_list(node.port_numbers(), ports, count),
        _ => WRONG_HANDLE,
    }
}

/// What is held of the source of a CID on a universe, and the levels that it shows, as `NodeCore::held`. The status is `RANGE`, and nothing is
/// written, where none is held there, or the node doesn't have the universe.
#[unsafe(no_mangle)]
pub extern "C" fn sacn_proved_node_held(
    handle: &mut Handle,
    universe: u16,
    cid: &[u8; 16],
    source: &mut SourceFields,
    slots: &mut [u8; 512],
) -> u32
    requires { is_some handle.old.value ≡ true }
    ensures status { IfSome handle.old.value (λ held. result
        ≡ of_node WRONG_HANDLE (λ n. found_status (core_row universe cid.now n.core)) held) }
    ensures source { IfSome handle.old.value (λ held. source.new ≡ of_node source.old (λ n.
        found_or source.old (option_map source_told (core_row universe cid.now n.core))) held) }
    ensures slots { IfSome handle.old.value
        (λ held. IfSome (of_node None (λ n. core_row universe cid.now n.core) held)
        (λ r. (i : ℕ) → i < 512 → slice_index slots.new i ≡ slice_index (levels_told r.shown) i)) }
    ensures unwritten { IfSome handle.old.value (λ held.
        of_node None (λ n. core_row universe cid.now n.core) held ≡ None → slots.new ≡ slots.old) }
    ensures after { handle.new.value ≡ handle.old.value }
{
    match handle.held() {
        Held::Node(node) => match node.held(universe, cid) {
            Some(view) => {
                put_source(&view, source, slots);
                DONE
            }
            None => RANGE,
        },
        _ => WRONG_HANDLE,
    }
}
