//! The faults that only a whole setup can have.
ghost use Rattle.std.specs.Prelude.{◌≡◌, ◌⊎◌, ◌==◌, ◌+◌, [], None, Some, IfOk, OnOk, MatchResult};
ghost use Rattle.std.specs.List.{list_any};
ghost use Rattle.sacn_node.specs.Setup.{with_universe, universes_after, universes, passes_end, shares_slot, has_overlap};
ghost use Rattle.sacn_node.specs.SetupReading.{order_fault};

use super::{PortSetup, SetupFault, SlotRange};
use crate::limits::MAX_UNIVERSES;
use sacn_files::numbers::place;
use sacn_packets::SLOTS;
use std::alloc::{AllocError, Global};

/// The place after the last slot; slots count from 1.
const END: u32 = SLOTS as u32 + 1;

fn end_of(start: u16, count: u16) -> u32
    ensures { result ≡ start + count }
{
    start as u32 + count as u32
}

/// Whether a range goes past the last slot of its universe or of its port.
fn passes_end(range: &SlotRange) -> bool
    ensures { result ≡ passes_end range.now }
{
    (END < end_of(range.slot, range.count)) | (END < end_of(range.port_slot, range.count))
}

fn any_passes_end(ranges: &[SlotRange]) -> bool
    ensures { result ≡ list_any passes_end ranges.now }
{
    ranges.iter().any(|range| passes_end(range))
}

fn port_passes_end(port: &PortSetup) -> bool
    ensures { result ≡ list_any passes_end port.now.ranges }
{
    any_passes_end(port.ranges())
}

fn one_passes_end(ports: &[PortSetup]) -> bool
    ensures { result ≡ list_any (λ p. list_any passes_end p.ranges) ports.now }
{
    ports.iter().any(|port| port_passes_end(port))
}

/// Whether two ranges share a slot of their port.
fn shares_slot(range: &SlotRange, other: &SlotRange) -> bool
    ensures { result ≡ shares_slot range.now other.now }
{
    (range.port_slot as u32) < end_of(other.port_slot, other.count)
        && (other.port_slot as u32) < end_of(range.port_slot, range.count)
}

fn shares_with_one(range: &SlotRange, others: &[SlotRange]) -> bool
    ensures { result ≡ list_any (λ q. shares_slot range.now q) others.now }
{
    others.iter().any(|other| shares_slot(range, other))
}

fn has_overlap(ranges: &[SlotRange]) -> bool
    ensures { result ≡ has_overlap ranges.now }
{
    match ranges.split_first() {
        Some((first, rest)) => shares_with_one(first, rest) || has_overlap(rest),
        None => false,
    }
}

fn port_has_overlap(port: &PortSetup) -> bool
    ensures { result ≡ has_overlap port.now.ranges }
{
    has_overlap(port.ranges())
}

fn one_has_overlap(ports: &[PortSetup]) -> bool
    ensures { result ≡ list_any (λ p. has_overlap p.ranges) ports.now }
{
    ports.iter().any(|port| port_has_overlap(port))
}

fn is_among(universe: u16, universes: &[u16]) -> bool
    ensures { result ≡ list_any (λ u. u == universe) universes.now }
{
    universes.iter().any(|known| *known == universe)
}

fn add_universe(universes: &mut Vec<u16>, range: &SlotRange) -> Result<(), AllocError>
    ensures { OnOk result (universes.new.items ≡ with_universe universes.old.items range.now) }
{
    if !is_among(range.universe, universes.as_slice()) {
        place(universes, range.universe)?;
    }
    Ok(())
}

fn add_universes(universes: &mut Vec<u16>, ranges: &[SlotRange]) -> Result<(), AllocError>
    ensures { OnOk result (universes.new.items ≡ universes_after universes.old.items ranges.now) }
{
    for range in ranges {
        add_universe(universes, range)?;
    }
    Ok(())
}

/// The different universes that some ports' ranges name, in ascending order.
pub fn universes_of(alloc: Global, ports: &[PortSetup]) -> Result<Vec<u16>, AllocError>
    ensures { IfOk result (λ v. v.items ≡ universes ports.now) }
{
    let mut universes = Vec::new(alloc);
    for port in ports {
        add_universes(&mut universes, port.ranges())?;
    }
    Ok(universes)
}

/// Checks ports in order of number, whose numbers differ and are not too many.
pub fn check_order(alloc: Global, ports: &[PortSetup]) -> Result<(), SetupFault>
    ensures { MatchResult result (λ _. order_fault ports.now ≡ None)
        (λ fault. (fault ≡ SetupFault.OutOfMemory) ⊎ (order_fault ports.now ≡ Some fault)) }
{
    let universes = universes_of(alloc, ports)?;
    if MAX_UNIVERSES < universes.len() {
        Err(SetupFault::Limit)
    } else if one_passes_end(ports) {
        Err(SetupFault::RangeEnd)
    } else if one_has_overlap(ports) {
        Err(SetupFault::Overlap)
    } else {
        Ok(())
    }
}
