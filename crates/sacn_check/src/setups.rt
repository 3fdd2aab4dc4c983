//! The faults that a setup's ports have of their own.

use crate::finding::{Fault, Findings};
use crate::place::{Found, Path, Place};
use crate::refusal::Owner;
use crate::rules::Wanted;
use sacn_files::values::{byte_at, inner_rows, rows_at, short_at, value_in};
use sacn_node::{MAX_PORT, MAX_PORTS, MAX_UNIVERSES, MIN_PORT, SetupFault};
use sacn_packets::{MAX_UNIVERSE, MIN_UNIVERSE, SLOTS};
use std::alloc::{AllocError, Global};
use std::collections::BTreeSet;
use toml::{Table, Value};

/// The place after the last slot; slots count from 1.
const END: u32 = SLOTS as u32 + 1;

/// The faults of the ports together: numbers, limits, ends of ranges and overlaps, each over all ports.
pub(crate) fn setup_faults(
    alloc: Global,
    findings: &mut Findings,
    owner: Owner,
    version: u8,
    table: &Table,
) -> Result<(), AllocError> {
    let rows = rows_at(table, "port");
    taken_numbers(alloc, findings, owner, rows)?;
    if MAX_PORTS < rows.len() {
        let place = Place::Key(Path::top(owner), "port");
        let found = Found::Count(rows.len(), "members");
        let wanted = Wanted::AtMost("a node", MAX_PORTS, "ports");
        findings.take(
            alloc,
            &setup_fault(owner, SetupFault::Limit, place, found, wanted),
        )?;
    }
    if version == 1 {
        return Ok(());
    }
    too_many_universes(alloc, findings, owner, rows)?;
    for (index, row) in rows.iter().enumerate() {
        wrong_ends(alloc, findings, Path::top(owner).below("port", index), row)?;
    }
    for (index, row) in rows.iter().enumerate() {
        overlaps(alloc, findings, Path::top(owner).below("port", index), row)?;
    }
    Ok(())
}

fn setup_fault<'a>(
    owner: Owner,
    fault: SetupFault,
    place: Place<'a>,
    found: Found<'a>,
    wanted: Wanted<'a>,
) -> Fault<'a> {
    Fault {
        refusal: owner.setup(fault),
        detail: None,
        place,
        found,
        wanted,
    }
}

fn found_in<'a>(row: &'a Value, key: &str) -> Found<'a> {
    match value_in(row, key) {
        Some(value) => Found::Value(value),
        None => Found::Nothing,
    }
}

fn taken_numbers(
    alloc: Global,
    findings: &mut Findings,
    owner: Owner,
    rows: &[Value],
) -> Result<(), AllocError> {
    let mut numbers = BTreeSet::new(alloc);
    for (index, row) in rows.iter().enumerate() {
        if let Some(number) = byte_at(row, "number", MIN_PORT, MAX_PORT) {
            if !numbers.insert(number)? {
                let place = Place::Key(Path::top(owner).below("port", index), "number");
                let found = found_in(row, "number");
                let wanted = Wanted::Text("a number that no port before it has");
                findings.take(
                    alloc,
                    &setup_fault(owner, SetupFault::PortTaken, place, found, wanted),
                )?;
            }
        }
    }
    Ok(())
}

// The first range of a universe that is one too many.
fn too_many_universes(
    alloc: Global,
    findings: &mut Findings,
    owner: Owner,
    rows: &[Value],
) -> Result<(), AllocError> {
    let mut universes = BTreeSet::new(alloc);
    for (index, row) in rows.iter().enumerate() {
        let path = Path::top(owner).below("port", index);
        for (inner, range) in inner_rows(row, "range").iter().enumerate() {
            if is_one_too_many(&mut universes, range)? {
                let place = Place::Key(path.below("range", inner), "universe");
                let found = found_in(range, "universe");
                let wanted = Wanted::AtMost("a node", MAX_UNIVERSES, "different universes");
                return findings.take(
                    alloc,
                    &setup_fault(owner, SetupFault::Limit, place, found, wanted),
                );
            }
        }
    }
    Ok(())
}

// Notes a range's universe: whether there are now too many.
fn is_one_too_many(universes: &mut BTreeSet<u16>, range: &Value) -> Result<bool, AllocError> {
    let Some(universe) = short_at(range, "universe", MIN_UNIVERSE, MAX_UNIVERSE) else {
        return Ok(false);
    };
    universes.insert(universe)?;
    Ok(MAX_UNIVERSES < universes.len())
}

fn slot_at(range: &Value, key: &str) -> Option<u32> {
    match short_at(range, key, 1, SLOTS as u16) {
        Some(slot) => Some(slot as u32),
        None => None,
    }
}

// Ranges that go past the last slot of their universe or of their port.
fn wrong_ends(
    alloc: Global,
    findings: &mut Findings,
    path: Path,
    row: &Value,
) -> Result<(), AllocError> {
    for (index, range) in inner_rows(row, "range").iter().enumerate() {
        let at = path.below("range", index);
        let wanted = Wanted::Text("slot + count is at most 513");
        wrong_end(alloc, findings, at, range, "slot", wanted)?;
        let wanted = Wanted::Text("port_slot + count is at most 513");
        wrong_end(alloc, findings, at, range, "port_slot", wanted)?;
    }
    Ok(())
}

fn wrong_end(
    alloc: Global,
    findings: &mut Findings,
    path: Path,
    range: &Value,
    key: &'static str,
    wanted: Wanted<'static>,
) -> Result<(), AllocError> {
    match (slot_at(range, key), slot_at(range, "count")) {
        (Some(slot), Some(count)) if END < slot.saturating_add(count) => {
            let place = Place::Key(path, "count");
            let found = found_in(range, "count");
            findings.take(
                alloc,
                &setup_fault(path.owner, SetupFault::RangeEnd, place, found, wanted),
            )
        }
        _ => Ok(()),
    }
}

/// The slots of a port that a range takes: the first, and that after the last.
fn slots_of(range: &Value) -> Option<(u32, u32)> {
    let first = slot_at(range, "port_slot")?;
    let count = slot_at(range, "count")?;
    Some((first, first.saturating_add(count)))
}

fn share_slots(range: &Value, other: &Value) -> bool {
    match (slots_of(range), slots_of(other)) {
        (Some((first, end)), Some((other_first, other_end))) => {
            first < other_end && other_first < end
        }
        _ => false,
    }
}

// Ranges that share a slot of their port with one before them.
fn overlaps(
    alloc: Global,
    findings: &mut Findings,
    path: Path,
    row: &Value,
) -> Result<(), AllocError> {
    let ranges = inner_rows(row, "range");
    for (index, range) in ranges.iter().enumerate() {
        if ranges
            .iter()
            .take(index)
            .any(|other| share_slots(range, other))
        {
            let place = Place::Key(path.below("range", index), "port_slot");
            let found = found_in(range, "port_slot");
            let wanted = Wanted::Text("slots of the port that no range before it takes");
            findings.take(
                alloc,
                &setup_fault(path.owner, SetupFault::Overlap, place, found, wanted),
            )?;
        }
    }
    Ok(())
}
