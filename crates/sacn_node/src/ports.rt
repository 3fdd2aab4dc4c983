//! The ports of a node, and their frames.

ghost use Rattle.std.specs.Prelude.{◌≡◌, ◌==◌, ◌+◌, ◌≤◌, ◌<◌, ℕ, true, false, length, slice_index, All, IfOk, IfSome, List, [], ◌∷◌};
ghost use Rattle.std.specs.Option.{option_map};
ghost use Rattle.std.specs.List.{list_any};
ghost use Rattle.std.specs.List.Sorted.{IsStrictlyIncreasing};
ghost use Rattle.sacn_packets.specs.declared.universe.TheConstants.{SLOTS, FRAME_OCTETS};
ghost use Rattle.sacn_node.specs.Cores.{core_at, core_slots};
ghost use Rattle.sacn_node.specs.Setup.{port_numbers};
ghost use Rattle.sacn_node.specs.Ports.{IsShown, covers, level_in, port_frame, port_of};

use crate::limits::MAX_PORTS;
use crate::setup::{PortSetup, SlotRange};
use crate::tables::Tables;
use arrayvec::ArrayVec;
use sacn_packets::{FRAME_OCTETS, SLOTS};
use sacn_sources::TableFault;
use std::alloc::Global;
use std::marker::Model;

/// A port of a node, as its setup has it.
#[derive(Drop)]
pub(crate) struct NodePort {
    number: u8,
    ranges: Vec<SlotRange>,
}

impl Model for NodePort {
    ghost use Rattle.sacn_node.specs.Setup.{Port};

    ghost Value = { Port };

    ghost view = { λ p. record { number = p.number; ranges = p.ranges.items } };
}

impl NodePort {
    /// A copy of a port of a setup.
    fn new(alloc: Global, port: &PortSetup) -> Result<Self, TableFault>
        ensures { IfOk result (λ p. p ≡ port.now) }
    {
        let ranges = port.ranges().to_vec(alloc)?;
        Ok(NodePort {
            number: port.number(),
            ranges,
        })
    }

    pub(crate) fn number(&self) -> u8
        ensures { result ≡ self.now.number }
    {
        self.number
    }

    /// The ranges, in the setup's order.
    pub(crate) fn ranges(&self) -> &[SlotRange]
        ensures { result.now ≡ self.now.ranges }
    {
        self.ranges.as_slice()
    }
}

/// A copy of the ports of a setup.
pub(crate) fn copy_ports(alloc: Global, ports: &[PortSetup]) -> Result<Vec<NodePort>, TableFault>
    ensures { IfOk result (λ copy. copy.items ≡ ports.now) }
{
    let mut copy = Vec::with_capacity(alloc, ports.len())?;
    for port in ports {
        copy.push(NodePort::new(alloc, port)?)?;
    }
    Ok(copy)
}

/// The numbers of the ports of a setup.
pub(crate) fn copy_numbers(ports: &[PortSetup]) -> ArrayVec<u8, MAX_PORTS>
    requires { length ports.now ≤ MAX_PORTS }
    ensures { result.items ≡ port_numbers ports.now }
{
    let mut numbers = ArrayVec::new();
    for port in ports {
        numbers.push(port.number());
    }
    numbers
}

/// The port of this number, of ports whose numbers rise.
///
/// The same as `search_port`, but most nodes number their ports 1, 2, 3 .., so each is looked for at the place before its number first.
pub(crate) fn find_port(ports: &[NodePort], number: u8) -> Option<&NodePort>
    requires { IsStrictlyIncreasing (port_numbers ports.now) }
    ensures { port_of number ports.now ≡ option_map (λ p. p.now) result }
{
    match ports.get(usize::from(number.saturating_sub(1))) {
        Some(port) if port.number() == number => Some(port),
        _ => search_port(ports, number),
    }
}

/// The first port of this number.
fn search_port(ports: &[NodePort], number: u8) -> Option<&NodePort>
    ensures { port_of number ports.now ≡ option_map (λ p. p.now) result }
{
    for port in ports {
        if port.number() == number {
            return Some(port);
        }
    }
    None
}

/// Whether a universe is one of these.
fn is_among(universes: &[u16], universe: u16) -> bool
    ensures { result ≡ list_any (λ u. u == universe) universes.now }
{
    universes.iter().any(|one| *one == universe)
}

/// Whether some range is of one of these universes.
pub(crate) fn show_one_of(ranges: &[SlotRange], universes: &[u16]) -> bool
    ensures { result ≡ list_any (λ r. list_any (λ u. u == r.universe) universes.now) ranges.now }
{
    ranges
        .iter()
        .any(|range| is_among(universes, range.universe))
}

/// Writes the frame of a port with these ranges, where all that is lost is dropped already.
pub(crate) fn fill_frame(tables: &mut Tables, ranges: &[SlotRange], frame: &mut [u8; FRAME_OCTETS])
    requires expired { core_at tables.old.moment tables.old ≡ tables.old }
    requires ranges { All IsShown ranges.now }
    ensures frame { frame.new ≡ port_frame (core_slots tables.old) ranges.now }
    ensures core { tables.new ≡ tables.old }
{
    if let Some(range) = whole_range(ranges) {
        frame[0] = 0;
        show_range(tables, range, frame);
        return;
    }
    frame.fill(0);
    let mut at = ranges.len();
    // The first range that has a slot gives it, so that it is written last.
    while at > 0 {
        at -= 1;
        show_range(tables, ranges[at], frame);
    }
}

/// The range of a port that shows one range on all of its slots.
fn whole_range(ranges: &[SlotRange]) -> Option<SlotRange>
    ensures { IfSome result (λ r. (ranges.now ≡ r ∷ []) × (r.port_slot ≡ 1) × (r.count ≡ SLOTS)) }
{
    match ranges {
        [range] if range.port_slot == 1 && usize::from(range.count) == SLOTS => Some(*range),
        _ => None,
    }
}

/// Writes what a range shows.
fn show_range(tables: &mut Tables, range: SlotRange, frame: &mut [u8; FRAME_OCTETS])
    requires expired { core_at tables.old.moment tables.old ≡ tables.old }
    requires range { IsShown range }
    ensures inside { (i : ℕ) → covers i range ≡ true
        → slice_index frame.new i ≡ level_in (core_slots tables.old) i range }
    ensures outside { (i : ℕ) → covers i range ≡ false
        → slice_index frame.new i ≡ slice_index frame.old i }
    ensures core { tables.new ≡ tables.old }
{
    let to = usize::from(range.port_slot);
    let end = to + usize::from(range.count);
    tables.slots(
        range.universe,
        usize::from(range.slot) - 1,
        &mut frame[to..end],
    );
}
