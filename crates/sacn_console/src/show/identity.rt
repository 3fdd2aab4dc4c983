//! Who sends: the values of a show that stand alone.
ghost use Rattle.std.specs.Prelude.{◌≡◌, ◌≤◌, codes, true, option_map, option_and_then, IfSome};
ghost use Rattle.toml.specs.Data.{get_member, as_str};
ghost use Rattle.toml.specs.View.{view, table_view};
ghost use Rattle.sacn_files.specs.Document.{Gives};
ghost use Rattle.sacn_packets.specs.Naming.{is_nameable, padded};
ghost use Rattle.sacn_console.specs.ShowReading.{name_in, cid_in, priority_of, identity_in};

use super::ShowFault;
use crate::limits::DEFAULT_PRIORITY;
use crate::sender::Sender;
use sacn_files::values::{byte_in, value_at};
use sacn_packets::{MAX_PRIORITY, source_name};
use std::alloc::Global;
use std::marker::Model;
use toml::{Table, Value};
use uuid::Uuid;

/// The CID, the name and the priority of a show.
#[derive(Drop)]
pub(super) struct Identity {
    pub(super) sender: Sender,
    pub(super) name: String,
}

impl Model for Identity {
    ghost use Rattle.std.specs.Prelude.{◌≡◌, ◌≤◌, true, string_bytes};
    ghost use Rattle.sacn_packets.specs.Naming.{is_nameable, padded};
    ghost use Rattle.sacn_console.specs.ShowReading.{Identity as Value_of};

    ghost Value = { Value_of };

    ghost view = { λ d. record { cid = d.sender.cid; name = string_bytes d.name; priority = d.sender.priority } };

    ghost invariant = { λ d. (d.sender.name ≡ padded (string_bytes d.name)) × (is_nameable (string_bytes d.name) ≡ true) × (d.sender.priority ≤ 200) };
}

/// The sixteen octets of a text in any of the forms of a UUID.
fn cid_of(value: &Value) -> Option<[u8; 16]>
    ensures { result ≡ cid_in (view value.now) }
{
    let text = value.as_str()?;
    match Uuid::parse_str(text) {
        Ok(id) => Some(id.into_bytes()),
        Err(_) => None,
    }
}

fn cid_at(table: &Table) -> Option<[u8; 16]>
    ensures { result ≡ option_and_then cid_in (get_member (codes "cid") (table_view table.now)) }
{
    cid_of(value_at(table, "cid")?)
}

fn text_at(table: &Table) -> Option<&str>
    ensures { option_map (λ s. s.now) result
        ≡ option_and_then as_str (get_member (codes "name") (table_view table.now)) }
{
    value_at(table, "name")?.as_str()
}

/// The name, and its octets padded to the field of a packet.
fn name_at(table: &Table) -> Option<(&str, [u8; 64])>
    ensures name { option_map (λ n. n.0.now) result
        ≡ option_and_then name_in (get_member (codes "name") (table_view table.now)) }
    ensures padded { IfSome result (λ n. n.1 ≡ padded n.0.now) }
    ensures nameable { IfSome result (λ n. is_nameable n.0.now ≡ true) }
{
    let text = text_at(table)?;
    let padded = source_name(text)?;
    Some((text, padded))
}

fn priority_of(table: &Table) -> Option<u8>
    ensures priority { result ≡ priority_of (table_view table.now) }
    ensures most { IfSome result (λ p. p ≤ 200) }
{
    match value_at(table, "priority") {
        Some(value) => byte_in(value, 0, MAX_PRIORITY),
        None => Some(DEFAULT_PRIORITY),
    }
}

/// The CID, the name and the priority of a table.
pub(super) fn identity_in(alloc: Global, table: &Table) -> Result<Identity, ShowFault>
    ensures { Gives ShowFault.OutOfMemory result (identity_in (table_view table.now)) }
{
    let cid = cid_at(table).ok_or(ShowFault::KeyValue)?;
    let (text, name) = name_at(table).ok_or(ShowFault::KeyValue)?;
    let priority = priority_of(table).ok_or(ShowFault::KeyValue)?;
    let sender = Sender {
        cid,
        name,
        priority,
    };
    let name = String::from_str(alloc, text)?;
    Ok(Identity { sender, name })
}
