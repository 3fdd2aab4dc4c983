//! Reading a world, phase by phase.
ghost use Rattle.std.specs.Prelude.{◌≡◌, Ok, map, IfOk};
ghost use Rattle.toml.specs.Parse.{parse_document};
ghost use Rattle.toml.specs.View.{view, table_view};
ghost use Rattle.sacn_schedule.specs.WorldFile.{console_rows, node_rows, keys_are_known, keys_are_there, values_are_good, last_phase, value_phase, after_version, world_in, world_or_toml, GivesWorld};
ghost use Rattle.sacn_schedule.specs.Cids.{HaveOwnCids};

use super::members::{Desks, Setups, are_consoles, are_nodes, read_members};
use super::{NEWEST_WORLD, WorldTextFault};
use crate::cids::has_same_cid;
use sacn_console::Show;
use sacn_files::document::{read_table, version_in};
use sacn_files::keys::{Keys, has_keys, has_known_keys, rows_are_known, rows_have_keys};
use sacn_files::values::{has_rows, rows_at, value_at};
use sacn_node::NodeSetup;
use std::alloc::Global;
use toml::{Table, Value};

/// The consoles of a world, each with the first number of its packets, and its nodes.
type Members = (Vec<(Show, u8)>, Vec<NodeSetup>);

/// The tables of `console`.
fn console_rows(table: &Table) -> &[Value]
    ensures { map view result.now ≡ console_rows (table_view table.now) }
{
    rows_at(table, "console")
}

/// The tables of `node`.
fn node_rows(table: &Table) -> &[Value]
    ensures { map view result.now ≡ node_rows (table_view table.now) }
{
    rows_at(table, "node")
}

/// The keys of the world's own table.
const WORLD_KEYS: Keys = Keys {
    required: &["version"],
    optional: &["console", "node"],
};

/// The keys of a console.
const CONSOLE_KEYS: Keys = Keys {
    required: &["show"],
    optional: &["first"],
};

/// The keys of a node.
const NODE_KEYS: Keys = Keys {
    required: &["setup"],
    optional: &[],
};

/// Whether no table has a key that isn't listed for it.
fn keys_are_known(table: &Table) -> bool
    ensures { result ≡ keys_are_known (table_view table.now) }
{
    has_known_keys(table, WORLD_KEYS)
        && (rows_are_known(console_rows(table), CONSOLE_KEYS)
            && rows_are_known(node_rows(table), NODE_KEYS))
}

/// Whether each table has its required keys.
fn keys_are_there(table: &Table) -> bool
    ensures { result ≡ keys_are_there (table_view table.now) }
{
    has_keys(table, WORLD_KEYS)
        && (rows_have_keys(console_rows(table), CONSOLE_KEYS)
            && rows_have_keys(node_rows(table), NODE_KEYS))
}

/// Whether each value of the world itself has its kind and range.
fn values_are_good(table: &Table) -> bool
    ensures { result ≡ values_are_good (table_view table.now) }
{
    (has_rows(table, "console") && has_rows(table, "node"))
        && (are_consoles(console_rows(table)) && are_nodes(node_rows(table)))
}

/// The last phase: the consoles, then the nodes, then two consoles of one CID.
fn last_phase(alloc: Global, consoles: &[Value], nodes: &[Value]) -> Result<Members, WorldTextFault>
    ensures world { GivesWorld result (last_phase (map view consoles.now) (map view nodes.now)) }
    ensures different { IfOk result (λ world. HaveOwnCids world.0.items) }
{
    let desks = read_members(alloc, &Desks, consoles)?;
    let setups = read_members(alloc, &Setups, nodes)?;
    if has_same_cid(desks.as_slice()) {
        return Err(WorldTextFault::SameCid);
    }
    Ok((desks, setups))
}

/// The values, and then the last phase.
fn value_phase(alloc: Global, table: &Table) -> Result<Members, WorldTextFault>
    ensures world { GivesWorld result (value_phase (table_view table.now)) }
    ensures different { IfOk result (λ world. HaveOwnCids world.0.items) }
{
    if !values_are_good(table) {
        return Err(WorldTextFault::KeyValue);
    }
    last_phase(alloc, console_rows(table), node_rows(table))
}

/// The phases after the version.
fn after_version(alloc: Global, table: &Table) -> Result<Members, WorldTextFault>
    ensures world { GivesWorld result (after_version (Ok 1) (table_view table.now)) }
    ensures different { IfOk result (λ world. HaveOwnCids world.0.items) }
{
    if !keys_are_known(table) {
        return Err(WorldTextFault::UnknownKey);
    }
    if !keys_are_there(table) {
        return Err(WorldTextFault::MissingKey);
    }
    value_phase(alloc, table)
}

/// The world of a table of version 1, or the fault of the first phase that fails; `OutOfMemory` may stand in
/// place of either where a request for memory is refused.
pub fn world_of(
    alloc: Global,
    table: &Table,
) -> Result<(Vec<(Show, u8)>, Vec<NodeSetup>), WorldTextFault>
    ensures world { GivesWorld result (world_in (table_view table.now)) }
    ensures different { IfOk result (λ world. HaveOwnCids world.0.items) }
{
    version_in(value_at(table, "version"), NEWEST_WORLD)?;
    after_version(alloc, table)
}

/// The world of a text: its consoles, each with the first number of its packets, and its nodes' setups,
/// both in the file's order; or the fault of the first phase that fails. `OutOfMemory` may stand in
/// place of either where a request for memory is refused.
///
/// The phases are the document, its version, unknown keys, missing keys and values of the world itself,
/// then each console's show, each node's setup, and the CIDs, of which no two consoles share one.
pub fn read_world(
    alloc: Global,
    text: &str,
) -> Result<(Vec<(Show, u8)>, Vec<NodeSetup>), WorldTextFault>
    ensures world { GivesWorld result (world_or_toml (parse_document text.now)) }
    ensures different { IfOk result (λ world. HaveOwnCids world.0.items) }
{
    let table = read_table(alloc, text)?;
    world_of(alloc, &table)
}
