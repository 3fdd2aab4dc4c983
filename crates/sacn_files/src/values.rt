//! The values of a file's tables: what stands at a key, numbers in ranges, arrays and their tables.
ghost use Rattle.std.specs.Prelude.{◌≡◌, ℕ, map, option_map};
ghost use Rattle.std.specs.List.{list_all};
ghost use Rattle.toml.specs.Data.{get_member};
ghost use Rattle.toml.specs.View.{view, table_view};
ghost use Rattle.sacn_files.specs.Values.{rows_in, rows_at, has_rows, array_values, array_at, number_in, number_at, is_table, members_or_none};

use toml::{Table, Value};

/// The value at a key of a table.
pub fn value_at<'a>(table: &'a Table, key: &str) -> Option<&'a Value>
    ensures { option_map (λ v. view v.now) result ≡ get_member key.now (table_view table.now) }
{
    table.get(key)
}

/// The value at a key of a row; none where the row is no table.
pub fn value_in<'a>(row: &'a Value, key: &str) -> Option<&'a Value>
    ensures { option_map (λ v. view v.now) result
        ≡ get_member key.now (members_or_none (view row.now)) }
{
    match row.as_table() {
        Some(table) => value_at(table, key),
        None => None,
    }
}

/// A whole number from `low` to `high`, both included.
pub fn number_in(value: &Value, low: u32, high: u32) -> Option<u32>
    ensures { result ≡ number_in low high (view value.now) }
{
    match value {
        Value::Integer(number) => match u32::try_from(*number) {
            Ok(number) => {
                if low <= number && number <= high {
                    Some(number)
                } else {
                    None
                }
            }
            Err(_) => None,
        },
        _ => None,
    }
}

/// The same of sixteen bits.
pub fn short_in(value: &Value, low: u16, high: u16) -> Option<u16>
    ensures { result ≡ number_in low high (view value.now) }
{
    match number_in(value, low as u32, high as u32) {
        Some(number) => Some(number as u16),
        None => None,
    }
}

/// The same of eight bits.
pub fn byte_in(value: &Value, low: u8, high: u8) -> Option<u8>
    ensures { result ≡ number_in low high (view value.now) }
{
    match number_in(value, low as u32, high as u32) {
        Some(number) => Some(number as u8),
        None => None,
    }
}

/// A whole number in a range at a key of a row.
pub fn number_at(row: &Value, key: &str, low: u32, high: u32) -> Option<u32>
    ensures { result ≡ number_at low high key.now (view row.now) }
{
    number_in(value_in(row, key)?, low, high)
}

/// The same of sixteen bits.
pub fn short_at(row: &Value, key: &str, low: u16, high: u16) -> Option<u16>
    ensures { result ≡ number_at low high key.now (view row.now) }
{
    short_in(value_in(row, key)?, low, high)
}

/// The same of eight bits.
pub fn byte_at(row: &Value, key: &str, low: u8, high: u8) -> Option<u8>
    ensures { result ≡ number_at low high key.now (view row.now) }
{
    byte_in(value_in(row, key)?, low, high)
}

/// The values of an array.
pub fn array_values(value: &Value) -> Option<&[Value]>
    ensures { option_map (λ s. map view s.now) result ≡ array_values (view value.now) }
{
    match value.as_array() {
        Some(array) => Some(array.as_slice()),
        None => None,
    }
}

/// The values of an array at a key of a row.
pub fn array_at<'a>(row: &'a Value, key: &str) -> Option<&'a [Value]>
    ensures { option_map (λ s. map view s.now) result ≡ array_at key.now (view row.now) }
{
    match value_in(row, key) {
        Some(value) => array_values(value),
        None => None,
    }
}

fn is_table(value: &Value) -> bool
    ensures { result ≡ is_table (view value.now) }
{
    value.is_table()
}

fn are_tables(values: &[Value]) -> bool
    ensures { result ≡ list_all (λ value. is_table (view value)) values.now }
{
    values.iter().all(|value| is_table(value))
}

/// The tables of an array of tables; none where some member is no table.
fn rows_in(values: Option<&[Value]>) -> &[Value]
    ensures { map view result.now ≡ rows_in (option_map (λ s. map view s.now) values.entry) }
{
    match values {
        Some(rows) => { if are_tables(rows) { rows } else { &[] } }
        None => &[],
    }
}

/// The tables of the array of tables at a key; none where something else stands there.
pub fn rows_at<'a>(table: &'a Table, key: &str) -> &'a [Value]
    ensures { map view result.now ≡ rows_at key.now (table_view table.now) }
{
    match value_at(table, key) {
        Some(value) => rows_in(array_values(value)),
        None => rows_in(None),
    }
}

/// The tables of the array of tables at a key of a row; none where something else stands there.
pub fn inner_rows<'a>(row: &'a Value, key: &str) -> &'a [Value]
    ensures { map view result.now ≡ rows_at key.now (members_or_none (view row.now)) }
{
    match row.as_table() {
        Some(table) => rows_at(table, key),
        None => &[],
    }
}

/// Whether nothing stands at a key, or an array of tables.
pub fn has_rows(table: &Table, key: &str) -> bool
    ensures { result ≡ has_rows key.now (table_view table.now) }
{
    match value_at(table, key) {
        Some(value) => match array_values(value) {
            Some(rows) => are_tables(rows),
            None => false,
        },
        None => true,
    }
}
