//! The values of a table, each by the rule of its key.

use crate::finding::{Fault, Findings};
use crate::place::{Found, Path, Place, Spot};
use crate::rules::{
    CHANNELS, LEVELS, Rule, SHORT, Shape, Span, TableKind, UDP_PORTS, UNIVERSES, Wanted,
};
use sacn_console::CONSOLE_UNIVERSES;
use sacn_console::limits::MAX_DESTINATIONS;
use sacn_files::faults::FileFault;
use sacn_files::values::{array_values, number_in, value_at};
use sacn_node::MAX_RANGES;
use sacn_packets::source_name;
use std::alloc::{AllocError, Global};
use std::collections::BTreeSet;
use toml::Value;
use uuid::Uuid;

/// The values of a table that are of the wrong kind or range.
pub(crate) fn wrong_values(
    alloc: Global,
    findings: &mut Findings,
    spot: Spot<'_>,
    rules: &[Rule],
) -> Result<(), AllocError> {
    for rule in rules {
        if let Some(value) = value_at(spot.table, rule.key) {
            wrong_value(alloc, findings, spot.path, rule, value)?;
        }
    }
    Ok(())
}

fn wrong_value(
    alloc: Global,
    findings: &mut Findings,
    path: Path,
    rule: &Rule,
    value: &Value,
) -> Result<(), AllocError> {
    if !has_shape(rule.shape, value) {
        let place = Place::Key(path, rule.key);
        return findings.take(alloc, &wrong(path, place, found_of(value), rule.wanted));
    }
    match (rule.shape, array_values(value)) {
        (Shape::Universes, Some(values)) => {
            wrong_numbers(
                alloc,
                findings,
                path,
                rule.key,
                values,
                "a universe",
                UNIVERSES,
            )?;
            repeated_universes(alloc, findings, path, rule.key, values)
        }
        (Shape::Destinations, Some(values)) => {
            wrong_numbers(
                alloc,
                findings,
                path,
                rule.key,
                values,
                "a UDP port",
                UDP_PORTS,
            )
        }
        (Shape::Levels, Some(values)) => wrong_levels(alloc, findings, path, rule.key, values),
        (Shape::Rows(_), Some(values)) => wrong_rows(alloc, findings, path, rule, values),
        _ => Ok(()),
    }
}

// An array is told by its length.
fn found_of(value: &Value) -> Found<'_> {
    match array_values(value) {
        Some(values) => Found::Count(values.len(), "members"),
        None => Found::Value(value),
    }
}

/// A value of the wrong kind or range.
fn wrong<'a>(path: Path, place: Place<'a>, found: Found<'a>, wanted: Wanted<'a>) -> Fault<'a> {
    Fault {
        refusal: path.owner.file(FileFault::KeyValue),
        detail: None,
        place,
        found,
        wanted,
    }
}

/// Whether a number lies in a span.
pub(crate) fn is_within(value: &Value, span: Span) -> bool {
    number_in(value, span.low, span.high).is_some()
}

/// Whether a value is of a shape, its members apart.
fn has_shape(shape: Shape, value: &Value) -> bool {
    match shape {
        Shape::Version => true,
        Shape::Number(span) => is_within(value, span),
        Shape::Cid => cid_of(value).is_some(),
        Shape::Name => is_name(value),
        Shape::Flag => value.is_bool(),
        Shape::Universes => has_members(value, 0, CONSOLE_UNIVERSES),
        Shape::Destinations => has_members(value, 0, MAX_DESTINATIONS),
        Shape::Rows(TableKind::Range) => has_members(value, 1, MAX_RANGES),
        Shape::Levels | Shape::Rows(_) => value.is_array(),
        Shape::Table => value.is_table(),
    }
}

fn has_members(value: &Value, least: usize, most: usize) -> bool {
    match array_values(value) {
        Some(values) => least <= values.len() && values.len() <= most,
        None => false,
    }
}

fn is_name(value: &Value) -> bool {
    match value.as_str() {
        Some(text) => source_name(text).is_some(),
        None => false,
    }
}

/// The sixteen octets of a CID's text (E1.31, 5.6).
pub(crate) fn cid_of(value: &Value) -> Option<[u8; 16]> {
    match Uuid::parse_str(value.as_str()?) {
        Ok(id) => Some(id.into_bytes()),
        Err(_) => None,
    }
}

fn wrong_numbers(
    alloc: Global,
    findings: &mut Findings,
    path: Path,
    key: &'static str,
    values: &[Value],
    what: &'static str,
    span: Span,
) -> Result<(), AllocError> {
    for (index, value) in values.iter().enumerate() {
        if !is_within(value, span) {
            let place = Place::Member(path, key, index);
            let wanted = Wanted::Within(what, span);
            findings.take(alloc, &wrong(path, place, Found::Value(value), wanted))?;
        }
    }
    Ok(())
}

fn repeated_universes(
    alloc: Global,
    findings: &mut Findings,
    path: Path,
    key: &'static str,
    values: &[Value],
) -> Result<(), AllocError> {
    let mut seen = BTreeSet::new(alloc);
    for (index, value) in values.iter().enumerate() {
        if let Some(number) = number_in(value, UNIVERSES.low, UNIVERSES.high) {
            if !seen.insert(number)? {
                let place = Place::Member(path, key, index);
                let wanted = Wanted::Text("a universe stands once");
                findings.take(alloc, &wrong(path, place, Found::Value(value), wanted))?;
            }
        }
    }
    Ok(())
}

/// The two values of a pair.
pub(crate) fn pair_of(value: &Value) -> Option<(&Value, &Value)> {
    match array_values(value)? {
        [first, second] => Some((first, second)),
        _ => None,
    }
}

fn wrong_levels(
    alloc: Global,
    findings: &mut Findings,
    path: Path,
    key: &'static str,
    values: &[Value],
) -> Result<(), AllocError> {
    for (index, value) in values.iter().enumerate() {
        match pair_of(value) {
            Some((channel, level)) => {
                if !is_within(channel, SHORT) {
                    let place = Place::Inner(path, key, index, 0);
                    let wanted = Wanted::Within("a channel", CHANNELS);
                    findings.take(alloc, &wrong(path, place, Found::Value(channel), wanted))?;
                }
                if !is_within(level, LEVELS) {
                    let place = Place::Inner(path, key, index, 1);
                    let wanted = Wanted::Within("a level", LEVELS);
                    findings.take(alloc, &wrong(path, place, Found::Value(level), wanted))?;
                }
            }
            None => {
                let place = Place::Member(path, key, index);
                let wanted = Wanted::Text("a pair of a channel and a level");
                findings.take(alloc, &wrong(path, place, Found::Value(value), wanted))?;
            }
        }
    }
    Ok(())
}

fn wrong_rows(
    alloc: Global,
    findings: &mut Findings,
    path: Path,
    rule: &Rule,
    values: &[Value],
) -> Result<(), AllocError> {
    for (index, value) in values.iter().enumerate() {
        if !value.is_table() {
            let place = Place::Member(path, rule.key, index);
            findings.take(alloc, &wrong(path, place, Found::Value(value), rule.wanted))?;
        }
    }
    Ok(())
}
