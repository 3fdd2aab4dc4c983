//! The phases of reading a show.
ghost use Rattle.std.specs.Prelude.{◌≡◌, Ok, map};
ghost use Rattle.toml.specs.Parse.{parse_document};
ghost use Rattle.toml.specs.View.{view, table_view};
ghost use Rattle.sacn_files.specs.Document.{Gives};
ghost use Rattle.sacn_files.specs.Keys.{key_table};
ghost use Rattle.sacn_console.specs.ShowReading.{cue_rows, patch_rows, cue_keys, keys_are_known, rows_are_whole, keys_are_there, draft_in, last_phase, after_version, show_in, show_or_toml};

use super::cues::{cues_added, cues_in};
use super::draft::Draft;
use super::identity::identity_in;
use super::patches::{patches_added, patches_in};
use super::ports::send_to_of;
use super::universes::universes_of;
use super::{Show, ShowFault};
use crate::limits::NEWEST_SHOW;
use sacn_files::document::{read_table, version_in};
use sacn_files::keys::{Keys, has_keys, has_known_keys, rows_are_known, rows_have_keys};
use sacn_files::values::{has_rows, rows_at, value_at};
use std::alloc::Global;
use toml::{Table, Value};

/// The tables of `cue`.
fn cue_rows(table: &Table) -> &[Value]
    ensures { map view result.now ≡ cue_rows (table_view table.now) }
{
    rows_at(table, "cue")
}

/// The tables of `patch`.
fn patch_rows(table: &Table) -> &[Value]
    ensures { map view result.now ≡ patch_rows (table_view table.now) }
{
    rows_at(table, "patch")
}

/// The keys of the show's own table.
const SHOW_KEYS: Keys = Keys {
    required: &["version", "cid", "name", "universes"],
    optional: &["priority", "send_to", "cue", "patch"],
};

/// The keys of an entry of the patch.
const PATCH_KEYS: Keys = Keys {
    required: &["channel", "universe", "slot"],
    optional: &["wide"],
};

/// The keys of a cue.
fn cue_keys(version: u8) -> Keys
    ensures { key_table result ≡ cue_keys version }
{
    let required: &'static [&'static str] = if version == 1 {
        &["number", "fade", "levels"]
    } else {
        &["number", "up", "down", "levels"]
    };
    Keys {
        required,
        optional: &[],
    }
}

/// Whether no table has a key that isn't listed for it.
fn keys_are_known(version: u8, table: &Table) -> bool
    ensures { result ≡ keys_are_known version (table_view table.now) }
{
    has_known_keys(table, SHOW_KEYS)
        && (rows_are_known(cue_rows(table), cue_keys(version))
            && rows_are_known(patch_rows(table), PATCH_KEYS))
}

/// Whether each cue, and each entry of the patch, has its required keys.
#[tactic(auto, unfolding(crate::specs::ShowReading::rows_are_whole))]
fn rows_are_whole(version: u8, table: &Table) -> bool
    ensures { result ≡ rows_are_whole version (table_view table.now) }
{
    rows_have_keys(cue_rows(table), cue_keys(version))
        && rows_have_keys(patch_rows(table), PATCH_KEYS)
}

/// Whether each table has its required keys.
fn keys_are_there(version: u8, table: &Table) -> bool
    ensures { result ≡ keys_are_there version (table_view table.now) }
{
    has_keys(table, SHOW_KEYS) && rows_are_whole(version, table)
}

/// What a table says, value by value.
fn draft_in(alloc: Global, version: u8, table: &Table) -> Result<Draft, ShowFault>
    ensures { Gives ShowFault.OutOfMemory result (draft_in version (table_view table.now)) }
{
    let identity = identity_in(alloc, table)?;
    let universes = universes_of(alloc, table)?;
    let send_to = send_to_of(alloc, table)?;
    let cues = cues_in(alloc, version, cue_rows(table))?;
    let patch = patches_in(alloc, patch_rows(table))?;
    Ok(Draft {
        identity,
        universes,
        send_to,
        cues,
        patch,
    })
}

/// The last phase: the cues, and then the patch.
fn last_phase(alloc: Global, draft: Draft) -> Result<Show, ShowFault>
    ensures { Gives ShowFault.OutOfMemory result (last_phase draft) }
{
    let Draft {
        identity,
        universes,
        send_to,
        cues,
        patch,
    } = draft;
    let cues = cues_added(alloc, cues)?;
    let patch = patches_added(alloc, universes.numbers.as_slice(), patch.as_slice())?;
    Ok(Show::new(identity, universes, send_to, cues, patch))
}

/// The phases after the version.
fn after_version(alloc: Global, version: u8, table: &Table) -> Result<Show, ShowFault>
    ensures { Gives ShowFault.OutOfMemory result
        (after_version (Ok version) (table_view table.now)) }
{
    if !keys_are_known(version, table) {
        return Err(ShowFault::UnknownKey);
    }
    if !keys_are_there(version, table) {
        return Err(ShowFault::MissingKey);
    }
    if !(has_rows(table, "cue") && has_rows(table, "patch")) {
        return Err(ShowFault::KeyValue);
    }
    let draft = draft_in(alloc, version, table)?;
    last_phase(alloc, draft)
}

/// The show of a table of version 1 or 2, or the fault of the first phase that fails; `OutOfMemory`
/// may stand in place of either where a request for memory is refused.
pub fn show_of(alloc: Global, table: &Table) -> Result<Show, ShowFault>
    ensures { Gives ShowFault.OutOfMemory result (show_in (table_view table.now)) }
{
    let version = version_in(value_at(table, "version"), NEWEST_SHOW)?;
    after_version(alloc, version, table)
}

/// The show of a text, or the fault of the first phase that fails: `Toml` where the text is no
/// document; `OutOfMemory` may stand in place of either where a request for memory is refused.
pub fn read_show(alloc: Global, text: &str) -> Result<Show, ShowFault>
    ensures { Gives ShowFault.OutOfMemory result (show_or_toml (parse_document text.now)) }
{
    let table = read_table(alloc, text)?;
    show_of(alloc, &table)
}
