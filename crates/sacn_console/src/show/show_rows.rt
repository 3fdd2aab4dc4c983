//! Lists of a show, read row by row.
ghost use Rattle.std.specs.Prelude.{map};
ghost use Rattle.toml.specs.View.{view};
ghost use Rattle.sacn_files.specs.Rows.{each};
ghost use Rattle.sacn_console.specs.ShowReading.{required, GivesAs};

use super::ShowFault;
use sacn_files::rows::{ReadRow, read_rows};
use std::alloc::Global;
use toml::Value;

/// What each row gives, in the rows' order.
pub(super) fn rows_in<R: ReadRow>(
    alloc: Global,
    reader: &R,
    rows: &[Value],
) -> Result<Vec<R::Item>, ShowFault>
    ensures { GivesAs (λ v. v.items) result
        (required (each (R.reads reader.now) (map view rows.now))) }
{
    read_rows(alloc, reader, rows)?.ok_or(ShowFault::KeyValue)
}
