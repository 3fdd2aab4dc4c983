//! Lists of a file, read row by row.
ghost use Rattle.std.specs.Prelude.{◌≡◌, map, option_map, IfOk};
ghost use Rattle.toml.specs.View.{view};
ghost use Rattle.sacn_files.specs.Rows.{each};

use crate::values::short_in;
use std::alloc::{AllocError, Global};
use toml::Value;

/// A way to read one row of a list.
pub trait ReadRow {
    ghost use Rattle.std.specs.Prelude.{◌≡◌, Option, IfOk};
    ghost use Rattle.toml.specs.Data.{Data};
    ghost use Rattle.toml.specs.View.{view};

    /// What a row gives.
    type Item: Drop;

    // what a row's value gives; none where it has the wrong kind or range
    ghost reads: { Self → Data → Option Self.Item };

    /// What this row gives, or none where its value has the wrong kind or range.
    fn read(&self, alloc: Global, row: &Value) -> Result<Option<Self::Item>, AllocError>
        ensures { IfOk result (λ o. o ≡ reads self.now (view row.now)) };
}

/// What each row gives, in the rows' order; none where some row gives none.
pub fn read_rows<R: ReadRow>(
    alloc: Global,
    reader: &R,
    rows: &[Value],
) -> Result<Option<Vec<R::Item>>, AllocError>
    ensures { IfOk result
        (λ o. option_map (λ v. v.items) o ≡ each (R.reads reader.now) (map view rows.now)) }
{
    let mut found = Vec::new(alloc);
    for row in rows {
        match reader.read(alloc, row)? {
            Some(item) => found.push(item)?,
            None => return Ok(None),
        }
    }
    Ok(Some(found))
}

/// Reads whole numbers of sixteen bits from `low` to `high`, both included.
#[derive(Clone, Copy)]
pub struct Numbers {
    pub low: u16,
    pub high: u16,
}

impl ReadRow for Numbers {
    ghost use Rattle.sacn_files.specs.Values.{number_in};

    type Item = u16;

    ghost reads = { λ range d. number_in range.low range.high d };

    fn read(&self, _alloc: Global, row: &Value) -> Result<Option<u16>, AllocError> {
        Ok(short_in(row, self.low, self.high))
    }
}
