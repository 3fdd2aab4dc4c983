//! A part of a file that is read by its own phases: a show, a setup, or a world without what stands in it.

use crate::finding::{Fault, Findings};
use crate::keys::{missing_keys, spots_of, unknown_keys};
use crate::place::{Found, Path, Place, Spot};
use crate::refusal::Owner;
use crate::rules::{Wanted, rules_of};
use crate::setups::setup_faults;
use crate::shows::show_faults;
use crate::values::wrong_values;
use sacn_console::limits::NEWEST_SHOW;
use sacn_files::document::version_in;
use sacn_files::values::{rows_at, value_at, value_in};
use sacn_node::NEWEST_SETUP;
use sacn_schedule::NEWEST_WORLD;
use std::alloc::{AllocError, Global};
use toml::{Table, Value};

/// The faults of a part, in the order of its reader's phases.
pub(crate) fn part_faults(
    alloc: Global,
    findings: &mut Findings,
    owner: Owner,
    table: &Table,
) -> Result<(), AllocError> {
    let version = version_of(alloc, findings, owner, table)?;
    table_faults(alloc, findings, owner, version, table)?;
    match owner {
        Owner::Show | Owner::Console(_) => show_faults(alloc, findings, owner, version, table),
        Owner::Setup | Owner::Node(_) => setup_faults(alloc, findings, owner, version, table),
        Owner::World => Ok(()),
    }
}

fn newest_of(owner: Owner) -> u8 {
    match owner {
        Owner::Show | Owner::Console(_) => NEWEST_SHOW,
        Owner::Setup | Owner::Node(_) => NEWEST_SETUP,
        Owner::World => NEWEST_WORLD,
    }
}

// The version, or that by which the rest is looked at where it is faulty.
fn version_of(
    alloc: Global,
    findings: &mut Findings,
    owner: Owner,
    table: &Table,
) -> Result<u8, AllocError> {
    let value = value_at(table, "version");
    match version_in(value, newest_of(owner)) {
        Ok(version) => Ok(version),
        Err(fault) => {
            let found = match value {
                Some(value) => Found::Value(value),
                None => Found::Nothing,
            };
            findings.take(
                alloc,
                &Fault {
                    refusal: owner.file(fault),
                    detail: None,
                    place: Place::Key(Path::top(owner), "version"),
                    found,
                    wanted: version_wanted(owner),
                },
            )?;
            Ok(likely_version(owner, table))
        }
    }
}

fn version_wanted(owner: Owner) -> Wanted<'static> {
    match owner {
        Owner::World => Wanted::Text("the version is 1"),
        _ => Wanted::Text("the version is 1 or 2"),
    }
}

// 1 where a key stands that version 1 alone has.
fn likely_version(owner: Owner, table: &Table) -> u8 {
    let is_old = match owner {
        Owner::Show | Owner::Console(_) => one_has(rows_at(table, "cue"), "fade"),
        Owner::Setup | Owner::Node(_) => one_has(rows_at(table, "port"), "universe"),
        Owner::World => true,
    };
    if is_old { 1 } else { 2 }
}

fn one_has(rows: &[Value], key: &str) -> bool {
    rows.iter().any(|row| value_in(row, key).is_some())
}

// The faults of keys and values, phase by phase over all tables.
fn table_faults(
    alloc: Global,
    findings: &mut Findings,
    owner: Owner,
    version: u8,
    table: &Table,
) -> Result<(), AllocError> {
    let spots = spots_of(alloc, owner, version, table)?;
    each_unknown(alloc, findings, version, spots.as_slice())?;
    each_missing(alloc, findings, version, spots.as_slice())?;
    for spot in spots.as_slice() {
        wrong_values(alloc, findings, *spot, rules_of(spot.kind, version))?;
    }
    Ok(())
}

fn each_unknown(
    alloc: Global,
    findings: &mut Findings,
    version: u8,
    spots: &[Spot<'_>],
) -> Result<(), AllocError> {
    for spot in spots {
        unknown_keys(alloc, findings, *spot, version)?;
    }
    Ok(())
}

fn each_missing(
    alloc: Global,
    findings: &mut Findings,
    version: u8,
    spots: &[Spot<'_>],
) -> Result<(), AllocError> {
    for spot in spots {
        missing_keys(alloc, findings, *spot, rules_of(spot.kind, version))?;
    }
    Ok(())
}
