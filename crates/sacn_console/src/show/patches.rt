//! The patch of a show.
ghost use Rattle.std.specs.Prelude.{◌≡◌, ◌==◌, map};
ghost use Rattle.std.specs.List.{list_any};
ghost use Rattle.std.specs.FinMap.{empty};
ghost use Rattle.toml.specs.View.{view};
ghost use Rattle.sacn_files.specs.Document.{Gives};
ghost use Rattle.sacn_console.specs.ShowReading.{wide_of, patch_in, patches_in, patches_added, required, GivesAs};

use super::ShowFault;
use super::show_rows::rows_in;
use sacn_files::rows::ReadRow;
use sacn_files::values::{short_at, value_in};
use sacn_patch::Patch;
use std::alloc::{AllocError, Global};
use toml::Value;

/// A row of a show's patch: a channel, and the slot of a universe that shows it.
#[derive(Clone, Copy)]
pub struct PatchRow {
    pub channel: u16,
    pub universe: u16,
    pub slot: u16,
    pub wide: bool,
}

fn wide_of(row: &Value) -> Option<bool>
    ensures { result ≡ wide_of (view row.now) }
{
    match value_in(row, "wide") {
        Some(value) => value.as_bool(),
        None => Some(false),
    }
}

fn patch_in(row: &Value) -> Option<PatchRow>
    ensures { result ≡ patch_in (view row.now) }
{
    let channel = short_at(row, "channel", 0, u16::MAX)?;
    let universe = short_at(row, "universe", 0, u16::MAX)?;
    let slot = short_at(row, "slot", 0, u16::MAX)?;
    let wide = wide_of(row)?;
    Some(PatchRow {
        channel,
        universe,
        slot,
        wide,
    })
}

/// Reads a row of the patch.
#[derive(Clone, Copy)]
struct PatchReader;

impl ReadRow for PatchReader {
    ghost use Rattle.sacn_console.specs.ShowReading.{patch_in};

    type Item = PatchRow;

    ghost reads = { λ _ d. patch_in d };

    fn read(&self, _alloc: Global, row: &Value) -> Result<Option<PatchRow>, AllocError> {
        Ok(patch_in(row))
    }
}

/// Each row, in the file's order.
pub(super) fn patches_in(alloc: Global, rows: &[Value]) -> Result<Vec<PatchRow>, ShowFault>
    ensures { GivesAs (λ v. v.items) result (required (patches_in (map view rows.now))) }
{
    rows_in(alloc, &PatchReader, rows)
}

fn is_among(universe: u16, universes: &[u16]) -> bool
    ensures { result ≡ list_any (λ u. u == universe) universes.now }
{
    universes.iter().any(|known| *known == universe)
}

/// The rows, each added to those before it.
pub(super) fn patches_added(
    alloc: Global,
    universes: &[u16],
    rows: &[PatchRow],
) -> Result<Patch, ShowFault>
    ensures { Gives ShowFault.OutOfMemory result (patches_added universes.now empty rows.now) }
{
    let mut patch = Patch::new(alloc);
    for row in rows {
        if !is_among(row.universe, universes) {
            return Err(ShowFault::Patch);
        }
        patch.add(row.channel, row.universe, row.slot, row.wide)?;
    }
    Ok(patch)
}
