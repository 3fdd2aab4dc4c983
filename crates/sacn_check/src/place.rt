//! Where a fault is.

use crate::refusal::Owner;
use crate::rules::TableKind;
use toml::{Table, Value};

/// A member of an array of tables.
#[derive(Clone, Copy)]
pub(crate) struct Step {
    pub(crate) key: &'static str,
    /// From 0.
    pub(crate) index: usize,
}

/// The way to a table of a file: at most two arrays of tables below its owner's.
#[derive(Clone, Copy)]
pub(crate) struct Path {
    pub(crate) owner: Owner,
    pub(crate) row: Option<Step>,
    pub(crate) inner: Option<Step>,
}

impl Path {
    /// The owner's own table.
    pub(crate) fn top(owner: Owner) -> Path {
        Path {
            owner,
            row: None,
            inner: None,
        }
    }

    /// A member of an array of this table.
    pub(crate) fn below(self, key: &'static str, index: usize) -> Path {
        let step = Some(Step { key, index });
        match self.row {
            None => Path { row: step, ..self },
            Some(_) => Path {
                inner: step,
                ..self
            },
        }
    }
}

/// A table with its place, and the kind that says which keys it has.
#[derive(Clone, Copy)]
pub(crate) struct Spot<'a> {
    pub(crate) path: Path,
    pub(crate) table: &'a Table,
    pub(crate) kind: TableKind,
}

/// Where a fault is.
#[derive(Clone, Copy)]
pub(crate) enum Place<'a> {
    /// No part of the file alone.
    Whole,
    /// A line, from 1.
    Line(usize),
    /// A letter of a line, both from 1.
    Letter { line: usize, column: usize },
    /// A key of a table.
    Key(Path, &'a str),
    /// A member of the array at a key, from 0.
    Member(Path, &'a str, usize),
    /// A member of such a member.
    Inner(Path, &'a str, usize, usize),
}

/// What stands there.
#[derive(Clone, Copy)]
pub(crate) enum Found<'a> {
    Nothing,
    Value(&'a Value),
    Text(&'a str),
    /// So many of something.
    Count(usize, &'static str),
}
