//! The tables of a part of a file, and the keys that they lack or shouldn't have.

use crate::finding::{Fault, Findings};
use crate::place::{Found, Path, Place, Spot};
use crate::refusal::Owner;
use crate::rules::{Rule, Shape, TableKind, Wanted, rules_of};
use sacn_files::faults::FileFault;
use sacn_files::values::{rows_at, value_at};
use std::alloc::{AllocError, Global};
use toml::Table;

fn top_kind(owner: Owner) -> TableKind {
    match owner {
        Owner::Show | Owner::Console(_) => TableKind::Show,
        Owner::Setup | Owner::Node(_) => TableKind::Setup,
        Owner::World => TableKind::World,
    }
}

/// The tables of a part in a file of this version: its own, then those of its arrays of tables, then those of theirs.
pub(crate) fn spots_of<'a>(
    alloc: Global,
    owner: Owner,
    version: u8,
    table: &'a Table,
) -> Result<Vec<Spot<'a>>, AllocError> {
    let mut spots = Vec::new(alloc);
    let top = Spot {
        path: Path::top(owner),
        table,
        kind: top_kind(owner),
    };
    spots.push(top)?;
    add_rows(&mut spots, top, version)?;
    for at in 1..spots.len() {
        if let Some(spot) = spots.as_slice().get(at) {
            let spot = *spot;
            add_rows(&mut spots, spot, version)?;
        }
    }
    Ok(spots)
}

fn add_rows<'a>(spots: &mut Vec<Spot<'a>>, spot: Spot<'a>, version: u8) -> Result<(), AllocError> {
    for rule in rules_of(spot.kind, version) {
        if let Shape::Rows(kind) = rule.shape {
            add_members(spots, spot, rule.key, kind)?;
        }
    }
    Ok(())
}

fn add_members<'a>(
    spots: &mut Vec<Spot<'a>>,
    spot: Spot<'a>,
    key: &'static str,
    kind: TableKind,
) -> Result<(), AllocError> {
    for (index, row) in rows_at(spot.table, key).iter().enumerate() {
        if let Some(table) = row.as_table() {
            spots.push(Spot {
                path: spot.path.below(key, index),
                table,
                kind,
            })?;
        }
    }
    Ok(())
}

fn is_listed(rules: &[Rule], key: &str) -> bool {
    rules.iter().any(|rule| rule.key == key)
}

/// The keys of a table that aren't listed for it.
pub(crate) fn unknown_keys(
    alloc: Global,
    findings: &mut Findings,
    spot: Spot<'_>,
    version: u8,
) -> Result<(), AllocError> {
    for (key, value) in spot.table.iter() {
        if !is_listed(rules_of(spot.kind, version), key.as_str()) {
            findings.take(
                alloc,
                &Fault {
                    refusal: spot.path.owner.file(FileFault::UnknownKey),
                    detail: None,
                    place: Place::Key(spot.path, key.as_str()),
                    found: Found::Value(value),
                    wanted: Wanted::Keys(spot.kind, version),
                },
            )?;
        }
    }
    Ok(())
}

/// The keys that a table must have, and lacks; its version is looked at before.
pub(crate) fn missing_keys(
    alloc: Global,
    findings: &mut Findings,
    spot: Spot<'_>,
    rules: &[Rule],
) -> Result<(), AllocError> {
    for rule in rules {
        if rule.required && value_at(spot.table, rule.key).is_none() {
            findings.take(
                alloc,
                &Fault {
                    refusal: spot.path.owner.file(FileFault::MissingKey),
                    detail: None,
                    place: Place::Key(spot.path, rule.key),
                    found: Found::Nothing,
                    wanted: rule.wanted,
                },
            )?;
        }
    }
    Ok(())
}
