//! The faults of a world: its own, those of its shows and setups, and consoles of one CID.

use crate::document::part_faults;
use crate::finding::{Fault, Findings};
use crate::place::{Found, Path, Place};
use crate::refusal::{Owner, Refusal};
use crate::rules::Wanted;
use crate::values::cid_of;
use sacn_files::values::{rows_at, value_at, value_in};
use sacn_schedule::WorldTextFault;
use std::alloc::{AllocError, Global};
use std::collections::BTreeSet;
use toml::{Table, Value};

pub(crate) fn world_faults(
    alloc: Global,
    findings: &mut Findings,
    table: &Table,
) -> Result<(), AllocError> {
    part_faults(alloc, findings, Owner::World, table)?;
    let consoles = rows_at(table, "console");
    for (index, row) in consoles.iter().enumerate() {
        if let Some(show) = table_in(row, "show") {
            part_faults(alloc, findings, Owner::Console(index), show)?;
        }
    }
    for (index, row) in rows_at(table, "node").iter().enumerate() {
        if let Some(setup) = table_in(row, "setup") {
            part_faults(alloc, findings, Owner::Node(index), setup)?;
        }
    }
    same_cids(alloc, findings, consoles)
}

fn table_in<'a>(row: &'a Value, key: &str) -> Option<&'a Table> {
    value_in(row, key)?.as_table()
}

fn cid_value(row: &Value) -> Option<&Value> {
    value_at(table_in(row, "show")?, "cid")
}

fn same_cids(alloc: Global, findings: &mut Findings, consoles: &[Value]) -> Result<(), AllocError> {
    let mut cids = BTreeSet::new(alloc);
    for (index, row) in consoles.iter().enumerate() {
        if let Some(value) = cid_value(row) {
            if let Some(cid) = cid_of(value) {
                if !cids.insert(cid)? {
                    findings.take(alloc, &same_cid(index, value))?;
                }
            }
        }
    }
    Ok(())
}

fn same_cid(index: usize, value: &Value) -> Fault<'_> {
    Fault {
        refusal: Refusal::World(WorldTextFault::SameCid),
        detail: None,
        place: Place::Key(Path::top(Owner::Console(index)), "cid"),
        found: Found::Value(value),
        wanted: Wanted::Text("a CID that no console before it has"),
    }
}
