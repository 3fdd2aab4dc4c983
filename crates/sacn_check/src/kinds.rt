//! The kinds of files, and how a file's kind is told.

use crate::quick::is_surely_show;
use sacn_files::lines::is_skipped;
use sacn_files::words::{number_in, put_words};
use std::alloc::{AllocError, Global};
use toml::Table;

pub(crate) const WORLD_KEYS: &[&str] = &["console", "node"];

pub(crate) const SETUP_KEYS: &[&str] = &["port", "udp_port"];

pub(crate) const SHOW_KEYS: &[&str] = &[
    "cid",
    "name",
    "priority",
    "universes",
    "send_to",
    "cue",
    "patch",
];

/// The kinds of files that a reader has.
#[derive(Clone, Copy)]
pub enum FileKind {
    Show,
    Setup,
    World,
    Script,
    Schedule,
}

/// The kind of a file by what stands in it, where that tells it. A document is a world if it has `console` or `node`, a
/// setup if it has `port` or `udp_port`, and a show if it has another key of shows. A text that is no document is a
/// schedule or a script by its first line that is one of these, and else a show, whose document is told faulty.
pub fn kind_of(alloc: Global, text: &str) -> Result<Option<FileKind>, AllocError> {
    if is_surely_show(text) {
        return Ok(Some(FileKind::Show));
    }
    match toml::table_from_str(alloc, text) {
        Ok(table) => Ok(document_kind(&table)),
        Err(error) if error.is_memory() => Err(AllocError),
        Err(_) => Ok(Some(text_kind(alloc, text)?)),
    }
}

fn has_one(table: &Table, keys: &[&str]) -> bool {
    keys.iter().any(|key| table.contains_key(*key))
}

fn document_kind(table: &Table) -> Option<FileKind> {
    if has_one(table, WORLD_KEYS) {
        Some(FileKind::World)
    } else if has_one(table, SETUP_KEYS) {
        Some(FileKind::Setup)
    } else if has_one(table, SHOW_KEYS) {
        Some(FileKind::Show)
    } else {
        None
    }
}

// The kind that the first line of some kind tells. The lines behind it aren't looked at, and one vector has the words of
// each in turn: as by a loop over `said_lines`, which makes those of all lines first.
fn text_kind(alloc: Global, text: &str) -> Result<FileKind, AllocError> {
    let mut words = Vec::new(alloc);
    for line in text.lines() {
        put_words(&mut words, line)?;
        if !is_skipped(words.as_slice()) {
            if let Some(kind) = line_kind(words.as_slice()) {
                return Ok(kind);
            }
        }
    }
    Ok(FileKind::Show)
}

// The kind of text that has a line of these words.
fn line_kind(words: &[&str]) -> Option<FileKind> {
    match words {
        [_, "=", ..] => Some(FileKind::Show),
        [
            "order" | "poll" | "deliver" | "look" | "restart-console" | "restart-node" | "noise",
            ..
        ] => { Some(FileKind::Schedule) }
        [_, "go" | "goto" | "set" | "master" | "end" | "start", ..] => Some(FileKind::Script),
        [moment, _, ..] if number_in(u64::MAX, moment).is_some() => Some(FileKind::Script),
        _ => None,
    }
}
