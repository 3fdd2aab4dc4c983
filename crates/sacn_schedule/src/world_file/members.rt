//! The consoles and nodes of a world's file.
ghost use Rattle.std.specs.Prelude.{◌≡◌, map, option_map};
ghost use Rattle.std.specs.List.{list_all};
ghost use Rattle.toml.specs.View.{view, table_view};
ghost use Rattle.sacn_schedule.specs.Reads.{GivesAs};
ghost use Rattle.sacn_schedule.specs.WorldFile.{first_of, table_at, console_in, is_console, is_node, each_from};

use super::WorldTextFault;
use sacn_console::{Show, ShowFault, show_of};
use sacn_files::values::{byte_in, value_in};
use sacn_node::{NodeSetup, SetupFault, setup_of};
use std::alloc::Global;
use toml::{Table, Value};

/// The first number of a console's packets.
fn first_of(row: &Value) -> Option<u8>
    ensures { result ≡ first_of (view row.now) }
{
    match value_in(row, "first") {
        Some(value) => byte_in(value, 0, u8::MAX),
        None => Some(0),
    }
}

fn table_at<'a>(row: &'a Value, key: &str) -> Option<&'a Table>
    ensures { option_map (λ t. table_view t.now) result ≡ table_at key.now (view row.now) }
{
    value_in(row, key)?.as_table()
}

/// A console's show, not yet read, and its first number.
fn console_in(row: &Value) -> Option<(&Table, u8)>
    ensures { option_map (λ c. (table_view c.0.now, c.1)) result ≡ console_in (view row.now) }
{
    let first = first_of(row)?;
    let table = table_at(row, "show")?;
    Some((table, first))
}

fn is_console(row: &Value) -> bool
    ensures { result ≡ is_console (view row.now) }
{
    console_in(row).is_some()
}

fn is_node(row: &Value) -> bool
    ensures { result ≡ is_node (view row.now) }
{
    table_at(row, "setup").is_some()
}

fn each_is_console(rows: &[Value]) -> bool
    ensures { result ≡ list_all (λ row. is_console (view row)) rows.now }
{
    rows.iter().all(|row| is_console(row))
}

/// Whether each row has a first number and a table for its show.
pub(super) fn are_consoles(rows: &[Value]) -> bool
    ensures { result ≡ list_all is_console (map view rows.now) }
{
    each_is_console(rows)
}

fn each_is_node(rows: &[Value]) -> bool
    ensures { result ≡ list_all (λ row. is_node (view row)) rows.now }
{
    rows.iter().all(|row| is_node(row))
}

/// Whether each row has a table for its setup.
pub(super) fn are_nodes(rows: &[Value]) -> bool
    ensures { result ≡ list_all is_node (map view rows.now) }
{
    each_is_node(rows)
}

/// A way to read one member of a world, from its row and its index.
pub(super) trait ReadMember {
    ghost use Rattle.std.specs.Prelude.{ℕ, Result};
    ghost use Rattle.toml.specs.Data.{Data};
    ghost use Rattle.toml.specs.View.{view};
    ghost use Rattle.sacn_files.specs.Document.{Gives};
    ghost use Rattle.sacn_schedule.specs.declared.world_file.fault.WorldTextFault.{WorldTextFault as Fault};

    /// What a row gives.
    type Item: Drop;

    ghost reads: { Self → ℕ → Data → Result Self.Item Fault };

    /// The member at this index, from 0.
    fn read(&self, alloc: Global, index: usize, row: &Value) -> Result<Self::Item, WorldTextFault>
        ensures { Gives WorldTextFault.OutOfMemory result (reads self.now index (view row.now)) };
}

/// Reads a console: its show, and its first number.
#[derive(Clone, Copy)]
pub(super) struct Desks;

impl ReadMember for Desks {
    ghost use Rattle.sacn_schedule.specs.WorldFile.{desk_in};

    type Item = (Show, u8);

    ghost reads = { λ _ index d. desk_in index d };

    fn read(&self, alloc: Global, index: usize, row: &Value) -> Result<(Show, u8), WorldTextFault> {
        let (table, first) = console_in(row).ok_or(WorldTextFault::KeyValue)?;
        match show_of(alloc, table) {
            Ok(show) => Ok((show, first)),
            Err(ShowFault::OutOfMemory) => Err(WorldTextFault::OutOfMemory),
            Err(fault) => Err(WorldTextFault::Console(index, fault)),
        }
    }
}

/// Reads a node's setup.
#[derive(Clone, Copy)]
pub(super) struct Setups;

impl ReadMember for Setups {
    ghost use Rattle.sacn_schedule.specs.WorldFile.{setup_at};

    type Item = NodeSetup;

    ghost reads = { λ _ index d. setup_at index d };

    fn read(&self, alloc: Global, index: usize, row: &Value) -> Result<NodeSetup, WorldTextFault> {
        let table = table_at(row, "setup").ok_or(WorldTextFault::KeyValue)?;
        match setup_of(alloc, table) {
            Ok(setup) => Ok(setup),
            Err(SetupFault::OutOfMemory) => Err(WorldTextFault::OutOfMemory),
            Err(fault) => Err(WorldTextFault::Node(index, fault)),
        }
    }
}

/// What each row gives, in the rows' order, or the first fault.
pub(super) fn read_members<R: ReadMember>(
    alloc: Global,
    reader: &R,
    rows: &[Value],
) -> Result<Vec<R::Item>, WorldTextFault>
    ensures { GivesAs (λ found. found.items) WorldTextFault.OutOfMemory result
        (each_from (R.reads reader.now) 0 (map view rows.now)) }
{
    let mut found = Vec::new(alloc);
    for i in 0..rows.len() {
        found.push(reader.read(alloc, i, &rows[i])?)?;
    }
    Ok(found)
}
