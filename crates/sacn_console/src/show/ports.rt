//! The UDP ports to which a show is sent.
ghost use Rattle.std.specs.Prelude.{◌≡◌, ◌≤◌, ◌∷◌, [], length, map, IfOk};
ghost use Rattle.toml.specs.View.{view, table_view};
ghost use Rattle.sacn_files.specs.Document.{Gives};
ghost use Rattle.sacn_console.specs.ShowReading.{send_to_in, send_to_of, required};
ghost use Rattle.sacn_console.specs.declared.limits.TheConstants.{MAX_DESTINATIONS};

use super::ShowFault;
use super::show_rows::rows_in;
use crate::limits::MAX_DESTINATIONS;
use sacn_files::limits::{DEFAULT_UDP_PORT, MAX_UDP_PORT, MIN_UDP_PORT};
use sacn_files::rows::Numbers;
use sacn_files::values::{array_values, value_at};
use std::alloc::{AllocError, Global};
use std::marker::Model;
use toml::{Table, Value};

/// The UDP ports to which a show is sent, in the file's order.
#[derive(Drop)]
pub(super) struct Destinations {
    pub(super) ports: Vec<u16>,
}

impl Model for Destinations {
    ghost use Rattle.std.specs.Prelude.{List, ℕ, ◌≤◌, length};
    ghost use Rattle.sacn_console.specs.declared.limits.TheConstants.{MAX_DESTINATIONS};

    ghost Value = { List ℕ };

    ghost view = { λ d. d.ports.items };

    ghost invariant = { λ d. length d.ports.items ≤ MAX_DESTINATIONS };
}

fn destinations_of(ports: Vec<u16>) -> Destinations
    requires { length ports.items ≤ MAX_DESTINATIONS }
    ensures { result ≡ ports.items }
{
    Destinations { ports }
}

fn send_to_in(alloc: Global, values: &[Value]) -> Result<Destinations, ShowFault>
    ensures { Gives ShowFault.OutOfMemory result (required (send_to_in (map view values.now))) }
{
    if MAX_DESTINATIONS < values.len() {
        return Err(ShowFault::KeyValue);
    }
    let range = Numbers {
        low: MIN_UDP_PORT,
        high: MAX_UDP_PORT,
    };
    let ports = rows_in(alloc, &range, values)?;
    Ok(destinations_of(ports))
}

fn one_port(alloc: Global) -> Result<Destinations, AllocError>
    ensures { IfOk result (λ d. d ≡ DEFAULT_UDP_PORT ∷ []) }
{
    let mut ports = Vec::new(alloc);
    ports.push(DEFAULT_UDP_PORT)?;
    Ok(destinations_of(ports))
}

/// The ports of a table, in the file's order.
pub(super) fn send_to_of(alloc: Global, table: &Table) -> Result<Destinations, ShowFault>
    ensures { Gives ShowFault.OutOfMemory result (required (send_to_of (table_view table.now))) }
{
    match value_at(table, "send_to") {
        Some(value) => send_to_in(alloc, array_values(value).ok_or(ShowFault::KeyValue)?),
        None => Ok(one_port(alloc)?),
    }
}
