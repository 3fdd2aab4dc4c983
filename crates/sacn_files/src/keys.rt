//! The keys that tables of a file may have, and those that they must have.
ghost use Rattle.std.specs.Prelude.{◌≡◌, map, string_bytes, is_some};
ghost use Rattle.std.specs.List.{list_all, list_any};
ghost use Rattle.std.specs.Str.{bytes_eq};
ghost use Rattle.std.specs.BTreeMap.{keys};
ghost use Rattle.toml.specs.Data.{get_member};
ghost use Rattle.toml.specs.View.{view, table_view};
ghost use Rattle.sacn_files.specs.Values.{members_or_none, rows_at};
ghost use Rattle.sacn_files.specs.Keys.{key_table, is_listed, is_known, has_known_keys, has_keys, rows_are_known, rows_have_keys, inner_rows_are_known, inner_rows_have_keys};

use crate::values::{inner_rows, value_at, value_in};
use toml::{Table, Value};

/// The keys of a table, each in one of two lists: what a reader knows and what it wants are both said by
/// this one value.
#[derive(Clone, Copy)]
pub struct Keys {
    /// The keys that the table must have.
    pub required: &'static [&'static str],
    /// The keys that it may have beside them.
    pub optional: &'static [&'static str],
}

fn is_listed(key: &str, names: &[&str]) -> bool
    ensures { result ≡ list_any (λ name. bytes_eq name.now key.now) names.now }
{
    names.iter().any(|name| *name == key)
}

/// Whether a table of these keys may have this one.
fn is_known(key: &str, keys: Keys) -> bool
    ensures { result ≡ is_known (key_table keys) key.now }
{
    is_listed(key, keys.required) | is_listed(key, keys.optional)
}

fn are_known(table: &Table, known: Keys) -> bool
    ensures { result ≡ list_all (λ key. is_known (key_table known) (string_bytes key))
        (keys table.now) }
{
    table.keys().all(|key| is_known(key.as_str(), known))
}

/// Whether each key of a table is one of these.
pub fn has_known_keys(table: &Table, known: Keys) -> bool
    ensures { result ≡ has_known_keys (key_table known) (table_view table.now) }
{
    are_known(table, known)
}

fn is_there(table: &Table, key: &str) -> bool
    ensures { result ≡ is_some (get_member key.now (table_view table.now)) }
{
    value_at(table, key).is_some()
}

fn are_there(table: &Table, required: &[&str]) -> bool
    ensures { result ≡ list_all (λ key. is_some (get_member key.now (table_view table.now)))
        required.now }
{
    required.iter().all(|key| is_there(table, key))
}

/// Whether a table has each key that it must have.
pub fn has_keys(table: &Table, wanted: Keys) -> bool
    ensures { result ≡ has_keys (key_table wanted) (table_view table.now) }
{
    are_there(table, wanted.required)
}

fn row_is_known(row: &Value, known: Keys) -> bool
    ensures { result ≡ has_known_keys (key_table known) (members_or_none (view row.now)) }
{
    match row.as_table() {
        Some(table) => has_known_keys(table, known),
        None => true,
    }
}

fn each_is_known(rows: &[Value], known: Keys) -> bool
    ensures { result
        ≡ list_all (λ row. has_known_keys (key_table known) (members_or_none (view row))) rows.now }
{
    rows.iter().all(|row| row_is_known(row, known))
}

/// Whether each key of each row is one of these.
pub fn rows_are_known(rows: &[Value], known: Keys) -> bool
    ensures { result ≡ rows_are_known (key_table known) (map view rows.now) }
{
    each_is_known(rows, known)
}

fn has_key(row: &Value, key: &str) -> bool
    ensures { result ≡ is_some (get_member key.now (members_or_none (view row.now))) }
{
    value_in(row, key).is_some()
}

fn row_has_each(row: &Value, required: &[&str]) -> bool
    ensures { result
        ≡ list_all (λ key. is_some (get_member key.now (members_or_none (view row.now))))
        required.now }
{
    required.iter().all(|key| has_key(row, key))
}

fn row_has_keys(row: &Value, wanted: Keys) -> bool
    ensures { result ≡ has_keys (key_table wanted) (members_or_none (view row.now)) }
{
    row_has_each(row, wanted.required)
}

fn each_has_keys(rows: &[Value], wanted: Keys) -> bool
    ensures { result
        ≡ list_all (λ row. has_keys (key_table wanted) (members_or_none (view row))) rows.now }
{
    rows.iter().all(|row| row_has_keys(row, wanted))
}

/// Whether each row has each key that it must have.
pub fn rows_have_keys(rows: &[Value], wanted: Keys) -> bool
    ensures { result ≡ rows_have_keys (key_table wanted) (map view rows.now) }
{
    each_has_keys(rows, wanted)
}

fn inner_is_known(row: &Value, key: &str, known: Keys) -> bool
    ensures { result
        ≡ rows_are_known (key_table known) (rows_at key.now (members_or_none (view row.now))) }
{
    rows_are_known(inner_rows(row, key), known)
}

fn each_inner_is_known(rows: &[Value], key: &str, known: Keys) -> bool
    ensures { result ≡ list_all
        (λ row. rows_are_known (key_table known) (rows_at key.now (members_or_none (view row))))
        rows.now }
{
    rows.iter().all(|row| inner_is_known(row, key, known))
}

/// Whether each key of the rows that stand at a key of each row is one of these.
pub fn inner_rows_are_known(rows: &[Value], key: &str, known: Keys) -> bool
    ensures { result ≡ inner_rows_are_known key.now (key_table known) (map view rows.now) }
{
    each_inner_is_known(rows, key, known)
}

fn inner_has_keys(row: &Value, key: &str, wanted: Keys) -> bool
    ensures { result
        ≡ rows_have_keys (key_table wanted) (rows_at key.now (members_or_none (view row.now))) }
{
    rows_have_keys(inner_rows(row, key), wanted)
}

fn each_inner_has_keys(rows: &[Value], key: &str, wanted: Keys) -> bool
    ensures { result ≡ list_all
        (λ row. rows_have_keys (key_table wanted) (rows_at key.now (members_or_none (view row))))
        rows.now }
{
    rows.iter().all(|row| inner_has_keys(row, key, wanted))
}

/// Whether the rows that stand at a key of each row have each key that they must have.
pub fn inner_rows_have_keys(rows: &[Value], key: &str, wanted: Keys) -> bool
    ensures { result ≡ inner_rows_have_keys key.now (key_table wanted) (map view rows.now) }
{
    each_inner_has_keys(rows, key, wanted)
}
