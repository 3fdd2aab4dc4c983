//! Reading a setup, phase by phase.
ghost use Rattle.std.specs.Prelude.{◌≡◌, ◌≤◌, Ok, map, length, All};
ghost use Rattle.std.specs.List.Sorted.{IsStrictlyIncreasing};
ghost use Rattle.toml.specs.Parse.{parse_document};
ghost use Rattle.toml.specs.View.{view, table_view};
ghost use Rattle.sacn_files.specs.Document.{Gives};
ghost use Rattle.sacn_files.specs.Keys.{key_table};
ghost use Rattle.sacn_node.specs.Setup.{IsPort, port_numbers};
ghost use Rattle.sacn_node.specs.SetupReading.{port_rows, port_keys, keys_are_known, keys_are_there, udp_port_of, order_fault, unless, last_phase, value_phase, after_version, setup_in, setup_or_toml};

use super::checks::check_order;
use super::ports::ports_in;
use super::{NodeSetup, PortSetup, SetupFault};
use crate::limits::{MAX_PORTS, NEWEST_SETUP};
use sacn_files::document::{read_table, version_in};
use sacn_files::keys::{
    Keys, has_keys, has_known_keys, inner_rows_are_known, inner_rows_have_keys, rows_are_known,
    rows_have_keys,
};
use sacn_files::limits::{DEFAULT_UDP_PORT, MAX_UDP_PORT, MIN_UDP_PORT};
use sacn_files::numbers::{has_repeat, in_order};
use sacn_files::values::{has_rows, rows_at, short_in, value_at};
use std::alloc::Global;
use toml::{Table, Value};

/// The tables of `port`.
fn port_rows(table: &Table) -> &[Value]
    ensures { map view result.now ≡ port_rows (table_view table.now) }
{
    rows_at(table, "port")
}

/// The keys of the setup's own table.
const SETUP_KEYS: Keys = Keys {
    required: &["version"],
    optional: &["udp_port", "port"],
};

/// The keys of a range.
const RANGE_KEYS: Keys = Keys {
    required: &["universe", "slot", "count", "port_slot"],
    optional: &[],
};

/// The keys of a port.
fn port_keys(version: u8) -> Keys
    ensures { key_table result ≡ port_keys version }
{
    let required: &'static [&'static str] = if version == 1 {
        &["number", "universe"]
    } else {
        &["number", "range"]
    };
    Keys {
        required,
        optional: &[],
    }
}

/// Whether no table has a key that isn't listed for it.
fn keys_are_known(version: u8, table: &Table) -> bool
    ensures { result ≡ keys_are_known version (table_view table.now) }
{
    let rows = port_rows(table);
    has_known_keys(table, SETUP_KEYS)
        && rows_are_known(rows, port_keys(version))
        && (version == 1 || inner_rows_are_known(rows, "range", RANGE_KEYS))
}

/// Whether each table has its required keys.
fn keys_are_there(version: u8, table: &Table) -> bool
    ensures { result ≡ keys_are_there version (table_view table.now) }
{
    let rows = port_rows(table);
    has_keys(table, SETUP_KEYS)
        && rows_have_keys(rows, port_keys(version))
        && (version == 1 || inner_rows_have_keys(rows, "range", RANGE_KEYS))
}

/// The UDP port that the node hears.
fn udp_port_of(table: &Table) -> Option<u16>
    ensures { result ≡ udp_port_of (table_view table.now) }
{
    match value_at(table, "udp_port") {
        Some(value) => short_in(value, MIN_UDP_PORT, MAX_UDP_PORT),
        None => Some(DEFAULT_UDP_PORT),
    }
}

/// The last phase, over ports in order of number.
fn order_phase(alloc: Global, udp_port: u16, ports: Vec<PortSetup>) -> Result<NodeSetup, SetupFault>
    requires port { MIN_UDP_PORT ≤ udp_port }
    requires rising { IsStrictlyIncreasing (port_numbers ports.items) }
    requires few { length ports.items ≤ MAX_PORTS }
    requires ports { All IsPort ports.items }
    ensures { Gives SetupFault.OutOfMemory result
        (unless (order_fault ports.items) (record { udp_port = udp_port; ports = ports.items })) }
{
    check_order(alloc, ports.as_slice())?;
    Ok(NodeSetup::new(udp_port, ports))
}

/// The last phase, over ports in the file's order.
fn last_phase(alloc: Global, udp_port: u16, ports: Vec<PortSetup>) -> Result<NodeSetup, SetupFault>
    requires port { MIN_UDP_PORT ≤ udp_port }
    requires ports { All IsPort ports.items }
    ensures { Gives SetupFault.OutOfMemory result (last_phase udp_port ports.items) }
{
    if has_repeat(ports.as_slice()) {
        return Err(SetupFault::PortTaken);
    }
    if MAX_PORTS < ports.len() {
        return Err(SetupFault::Limit);
    }
    let sorted = in_order(alloc, ports)?;
    order_phase(alloc, udp_port, sorted)
}

/// The values, and then the last phase.
fn value_phase(alloc: Global, version: u8, table: &Table) -> Result<NodeSetup, SetupFault>
    ensures { Gives SetupFault.OutOfMemory result (value_phase version (table_view table.now)) }
{
    let udp_port = udp_port_of(table).ok_or(SetupFault::KeyValue)?;
    if !has_rows(table, "port") {
        return Err(SetupFault::KeyValue);
    }
    let ports = ports_in(alloc, version, port_rows(table))?;
    last_phase(alloc, udp_port, ports)
}

/// The phases after the version.
fn after_version(alloc: Global, version: u8, table: &Table) -> Result<NodeSetup, SetupFault>
    ensures { Gives SetupFault.OutOfMemory result
        (after_version (Ok version) (table_view table.now)) }
{
    if !keys_are_known(version, table) {
        return Err(SetupFault::UnknownKey);
    }
    if !keys_are_there(version, table) {
        return Err(SetupFault::MissingKey);
    }
    value_phase(alloc, version, table)
}

/// The setup of a table of version 1 or 2, or the fault of the first phase that fails; OutOfMemory
/// may stand in place of either where a growth is refused.
pub fn setup_of(alloc: Global, table: &Table) -> Result<NodeSetup, SetupFault>
    ensures { Gives SetupFault.OutOfMemory result (setup_in (table_view table.now)) }
{
    let version = version_in(value_at(table, "version"), NEWEST_SETUP)?;
    after_version(alloc, version, table)
}

/// The setup of a text, or the fault of the first phase that fails; OutOfMemory may stand in place of
/// either where a growth is refused.
pub fn read_node(alloc: Global, text: &str) -> Result<NodeSetup, SetupFault>
    ensures { Gives SetupFault.OutOfMemory result (setup_or_toml (parse_document text.now)) }
{
    let table = read_table(alloc, text)?;
    setup_of(alloc, &table)
}
