//! The cues of a show.
ghost use Rattle.std.specs.Prelude.{◌≡◌, map};
ghost use Rattle.std.specs.FinMap.{empty};
ghost use Rattle.toml.specs.View.{view};
ghost use Rattle.sacn_files.specs.Document.{Gives};
ghost use Rattle.sacn_console.specs.ShowReading.{pair_in, level_in, levels_at, times_in, cue_in, cues_in, cues_added, required, GivesAs};

use super::ShowFault;
use super::show_rows::rows_in;
use sacn_cues::{Cue, CueList};
use sacn_files::rows::ReadRow;
use sacn_files::values::{array_at, array_values, number_at, short_at, short_in};
use std::alloc::{AllocError, Global};
use toml::Value;

fn pair_in(values: &[Value]) -> Option<(u16, u16)>
    ensures { result ≡ pair_in (map view values.now) }
{
    match values {
        [channel, level] => {
            let channel = short_in(channel, 0, 65535)?;
            let level = short_in(level, 0, 65535)?;
            Some((channel, level))
        }
        _ => None,
    }
}

/// A channel with its level.
fn level_in(value: &Value) -> Option<(u16, u16)>
    ensures { result ≡ level_in (view value.now) }
{
    pair_in(array_values(value)?)
}

/// Reads a channel with its level.
#[derive(Clone, Copy)]
struct LevelRow;

impl ReadRow for LevelRow {
    ghost use Rattle.sacn_console.specs.ShowReading.{level_in};

    type Item = (u16, u16);

    ghost reads = { λ _ d. level_in d };

    fn read(&self, _alloc: Global, row: &Value) -> Result<Option<(u16, u16)>, AllocError> {
        Ok(level_in(row))
    }
}

fn levels_at(alloc: Global, row: &Value) -> Result<Vec<(u16, u16)>, ShowFault>
    ensures { GivesAs (λ v. v.items) result (required (levels_at (view row.now))) }
{
    let values = array_at(row, "levels").ok_or(ShowFault::KeyValue)?;
    rows_in(alloc, &LevelRow, values)
}

fn split_times(row: &Value) -> Option<(u32, u32)>
    ensures { result ≡ times_in 2 (view row.now) }
{
    let up = number_at(row, "up", 0, u32::MAX)?;
    let down = number_at(row, "down", 0, u32::MAX)?;
    Some((up, down))
}

fn one_time(row: &Value) -> Option<(u32, u32)>
    ensures { result ≡ times_in 1 (view row.now) }
{
    let fade = number_at(row, "fade", 0, u32::MAX)?;
    Some((fade, fade))
}

/// The up and the down time of a cue.
fn times_in(version: u8, row: &Value) -> Option<(u32, u32)>
    ensures { result ≡ times_in version (view row.now) }
{
    if version == 1 {
        one_time(row)
    } else {
        split_times(row)
    }
}

fn cue_in(alloc: Global, version: u8, row: &Value) -> Result<Cue, ShowFault>
    ensures { Gives ShowFault.OutOfMemory result (cue_in version (view row.now)) }
{
    let number = short_at(row, "number", 0, 65535).ok_or(ShowFault::KeyValue)?;
    let (up, down) = times_in(version, row).ok_or(ShowFault::KeyValue)?;
    let levels = levels_at(alloc, row)?;
    Ok(Cue {
        number,
        up,
        down,
        levels,
    })
}

/// Each row's cue, in the file's order.
pub(super) fn cues_in(alloc: Global, version: u8, rows: &[Value]) -> Result<Vec<Cue>, ShowFault>
    ensures { GivesAs (λ v. v.items) result (cues_in version (map view rows.now)) }
{
    let mut cues = Vec::new(alloc);
    for row in rows {
        cues.push(cue_in(alloc, version, row)?)?;
    }
    Ok(cues)
}

/// The cues, each added to those before it.
pub(super) fn cues_added(alloc: Global, cues: Vec<Cue>) -> Result<CueList, ShowFault>
    ensures { Gives ShowFault.OutOfMemory result (cues_added empty cues.items) }
{
    let mut list = CueList::new(alloc);
    let mut rest = cues.into_iter();
    while let Some(cue) = rest.next() {
        list.add(cue)?;
    }
    Ok(list)
}
