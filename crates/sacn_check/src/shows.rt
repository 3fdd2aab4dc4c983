//! The faults that a show's cues and patch have of their own.

use crate::finding::{Detail, Fault, Findings};
use crate::place::{Found, Path, Place};
use crate::refusal::Owner;
use crate::rules::{CHANNELS, SHORT, SLOTS_OF_ONE, Span, TIMES, WHOLE, WIDE_SLOTS, Wanted};
use crate::values::pair_of;
use sacn_console::ShowFault;
use sacn_cues::MAX_CUES;
use sacn_files::values::{
    array_at, array_values, number_in, rows_at, short_at, value_at, value_in,
};
use sacn_packets::MAX_UNIVERSE;
use sacn_patch::{Patch, PatchFault};
use std::alloc::{AllocError, Global};
use std::collections::BTreeSet;
use toml::{Table, Value};

/// The faults of the cues, and then those of the patch.
pub(crate) fn show_faults(
    alloc: Global,
    findings: &mut Findings,
    owner: Owner,
    version: u8,
    table: &Table,
) -> Result<(), AllocError> {
    cue_faults(alloc, findings, owner, version, rows_at(table, "cue"))?;
    patch_faults(alloc, findings, owner, table, rows_at(table, "patch"))
}

fn cue_faults(
    alloc: Global,
    findings: &mut Findings,
    owner: Owner,
    version: u8,
    rows: &[Value],
) -> Result<(), AllocError> {
    let times: &[&'static str] = if version == 1 {
        &["fade"]
    } else {
        &["up", "down"]
    };
    let mut numbers = BTreeSet::new(alloc);
    for (index, row) in rows.iter().enumerate() {
        let path = Path::top(owner).below("cue", index);
        wrong_channels(alloc, findings, path, row)?;
        for key in times {
            wrong_time(alloc, findings, path, row, key)?;
        }
        taken_number(alloc, findings, path, row, &mut numbers)?;
        if index == MAX_CUES {
            full_list(alloc, findings, path, rows.len())?;
        }
    }
    Ok(())
}

fn cue_fault<'a>(
    path: Path,
    detail: Detail,
    place: Place<'a>,
    found: Found<'a>,
    wanted: Wanted<'a>,
) -> Fault<'a> {
    Fault {
        refusal: path.owner.show(ShowFault::Cue),
        detail: Some(detail),
        place,
        found,
        wanted,
    }
}

/// Whether a number that a file may write lies outside a span; one that it may not is told elsewhere.
fn is_outside(value: &Value, written: Span, span: Span) -> bool {
    match number_in(value, written.low, written.high) {
        Some(number) => number < span.low || span.high < number,
        None => false,
    }
}

fn wrong_channels(
    alloc: Global,
    findings: &mut Findings,
    path: Path,
    row: &Value,
) -> Result<(), AllocError> {
    let Some(levels) = array_at(row, "levels") else {
        return Ok(());
    };
    for (index, level) in levels.iter().enumerate() {
        if let Some((channel, _)) = pair_of(level) {
            if is_outside(channel, SHORT, CHANNELS) {
                let place = Place::Inner(path, "levels", index, 0);
                let wanted = Wanted::Within("a channel", CHANNELS);
                let found = Found::Value(channel);
                findings.take(
                    alloc,
                    &cue_fault(path, Detail::ChannelRange, place, found, wanted),
                )?;
            }
        }
    }
    Ok(())
}

fn wrong_time(
    alloc: Global,
    findings: &mut Findings,
    path: Path,
    row: &Value,
    key: &'static str,
) -> Result<(), AllocError> {
    match value_in(row, key) {
        Some(time) if is_outside(time, WHOLE, TIMES) => {
            let place = Place::Key(path, key);
            let wanted = Wanted::Within("a time in milliseconds", TIMES);
            let found = Found::Value(time);
            findings.take(
                alloc,
                &cue_fault(path, Detail::FadeRange, place, found, wanted),
            )
        }
        _ => Ok(()),
    }
}

fn taken_number(
    alloc: Global,
    findings: &mut Findings,
    path: Path,
    row: &Value,
    numbers: &mut BTreeSet<u16>,
) -> Result<(), AllocError> {
    let Some(number) = short_at(row, "number", 0, u16::MAX) else {
        return Ok(());
    };
    if numbers.insert(number)? {
        return Ok(());
    }
    let found = match value_in(row, "number") {
        Some(value) => Found::Value(value),
        None => Found::Nothing,
    };
    let place = Place::Key(path, "number");
    let wanted = Wanted::Text("a number that no cue before it has");
    findings.take(
        alloc,
        &cue_fault(path, Detail::NumberTaken, place, found, wanted),
    )
}

fn full_list(
    alloc: Global,
    findings: &mut Findings,
    path: Path,
    count: usize,
) -> Result<(), AllocError> {
    let place = Place::Key(Path::top(path.owner), "cue");
    let wanted = Wanted::AtMost("a show", MAX_CUES, "cues");
    let found = Found::Count(count, "members");
    findings.take(alloc, &cue_fault(path, Detail::Full, place, found, wanted))
}

/// The universes of a show, where each of them can be read.
fn universes_of(alloc: Global, table: &Table) -> Result<Option<BTreeSet<u16>>, AllocError> {
    let mut universes = BTreeSet::new(alloc);
    let Some(values) = universe_values(table) else {
        return Ok(None);
    };
    for value in values {
        match sacn_files::values::short_in(value, 1, MAX_UNIVERSE) {
            Some(universe) => {
                universes.insert(universe)?;
            }
            None => return Ok(None),
        }
    }
    Ok(Some(universes))
}

fn universe_values(table: &Table) -> Option<&[Value]> {
    array_values(value_at(table, "universes")?)
}

fn patch_faults(
    alloc: Global,
    findings: &mut Findings,
    owner: Owner,
    table: &Table,
    rows: &[Value],
) -> Result<(), AllocError> {
    let universes = universes_of(alloc, table)?;
    let mut patch = Patch::new(alloc);
    for (index, row) in rows.iter().enumerate() {
        let path = Path::top(owner).below("patch", index);
        let entry = Entry { path, row };
        let is_alone = alone_faults(alloc, findings, entry, universes.as_ref())?;
        if is_alone {
            taken_slot(alloc, findings, entry, &mut patch)?;
        }
    }
    Ok(())
}

/// An entry of the patch, and its place.
#[derive(Clone, Copy)]
struct Entry<'a> {
    path: Path,
    row: &'a Value,
}

fn is_wide(row: &Value) -> bool {
    match value_in(row, "wide") {
        Some(value) => value.as_bool() == Some(true),
        None => false,
    }
}

// The faults of an entry by itself: whether it has none.
fn alone_faults(
    alloc: Global,
    findings: &mut Findings,
    entry: Entry<'_>,
    universes: Option<&BTreeSet<u16>>,
) -> Result<bool, AllocError> {
    let mut is_right = true;
    if let (Some(value), Some(universes)) = (value_in(entry.row, "universe"), universes) {
        if is_unlisted(value, universes) {
            let at = ("universe", value);
            let wanted = Wanted::Text("a universe of the patch is one of the show's");
            take_entry(alloc, findings, entry, Detail::NoUniverse, at, wanted)?;
            is_right = false;
        }
    }
    let channel = value_in(entry.row, "channel");
    let is_channel = in_span(
        alloc,
        findings,
        entry,
        Detail::ChannelRange,
        ("channel", channel),
    )?;
    let slot = value_in(entry.row, "slot");
    let is_slot = in_span(alloc, findings, entry, Detail::SlotRange, ("slot", slot))?;
    Ok(is_right && is_channel && is_slot)
}

// Tells a channel or a slot outside its span: whether it lies within.
fn in_span(
    alloc: Global,
    findings: &mut Findings,
    entry: Entry<'_>,
    detail: Detail,
    at: (&'static str, Option<&Value>),
) -> Result<bool, AllocError> {
    let Some(value) = at.1 else {
        return Ok(false);
    };
    let (what, span) = match detail {
        Detail::ChannelRange => ("a channel", CHANNELS),
        _ if is_wide(entry.row) => ("the slot of a wide channel", WIDE_SLOTS),
        _ => ("a slot", SLOTS_OF_ONE),
    };
    if !is_outside(value, SHORT, span) {
        return Ok(true);
    }
    let wanted = Wanted::Within(what, span);
    take_entry(alloc, findings, entry, detail, (at.0, value), wanted)?;
    Ok(false)
}

fn is_unlisted(value: &Value, universes: &BTreeSet<u16>) -> bool {
    match sacn_files::values::short_in(value, 0, u16::MAX) {
        Some(universe) => !universes.contains(&universe),
        None => false,
    }
}

fn take_entry(
    alloc: Global,
    findings: &mut Findings,
    entry: Entry<'_>,
    detail: Detail,
    at: (&'static str, &Value),
    wanted: Wanted<'static>,
) -> Result<(), AllocError> {
    findings.take(
        alloc,
        &Fault {
            refusal: entry.path.owner.show(ShowFault::Patch),
            detail: Some(detail),
            place: Place::Key(entry.path, at.0),
            found: Found::Value(at.1),
            wanted,
        },
    )
}

// The slot of an entry that an entry before it has.
fn taken_slot(
    alloc: Global,
    findings: &mut Findings,
    entry: Entry<'_>,
    patch: &mut Patch,
) -> Result<(), AllocError> {
    let row = entry.row;
    let (Some(channel), Some(universe), Some(slot), Some(value)) = (
        short_at(row, "channel", 0, u16::MAX),
        short_at(row, "universe", 0, u16::MAX),
        short_at(row, "slot", 0, u16::MAX),
        value_in(row, "slot"),
    ) else {
        return Ok(());
    };
    match patch.add(channel, universe, slot, is_wide(row)) {
        Err(PatchFault::OutOfMemory) => Err(AllocError),
        Err(PatchFault::SlotTaken) => {
            let wanted = Wanted::Text("a slot that no entry before it has");
            take_entry(
                alloc,
                findings,
                entry,
                Detail::SlotTaken,
                ("slot", value),
                wanted,
            )
        }
        // What else is wrong was told before.
        _ => Ok(()),
    }
}
