//! How places, values and names are spelled: by letters of ASCII from the space to the tilde alone.

use crate::finding::Detail;
use crate::place::{Found, Path, Place, Step};
use crate::refusal::{Owner, Refusal};
use crate::rules::{Rule, Wanted, rules_of};
use sacn_files::faults::TextFault;
use sacn_schedule::WorldTextFault;
use std::alloc::AllocError;
use std::fmt::{InlineText, Write};

/// The letters of a value, a line or a key that are shown.
const MAX_LETTERS: usize = 40;

/// Octets enough for that many letters.
const ROOM: usize = 192;

/// A letter as it is if it is one from the space to the tilde, and else by its number, as TOML spells it.
fn push_letter(text: &mut String, letter: char) -> Result<(), AllocError> {
    match letter {
        ' '..='~' => text.push(letter),
        _ => push_number(text, letter as u32),
    }
}

fn push_number(text: &mut String, code: u32) -> Result<(), AllocError> {
    if code < 0x1_0000 {
        write!(text, "\\u{code:04x}")
    } else {
        write!(text, "\\U{code:08x}")
    }
}

/// A text that comes from outside, whole.
pub(crate) fn push_shown(text: &mut String, shown: &str) -> Result<(), AllocError> {
    for letter in shown.chars() {
        push_letter(text, letter)?;
    }
    Ok(())
}

/// The first letters of a text that comes from outside, and two dots where there are more.
pub(crate) fn push_cut(text: &mut String, shown: &str) -> Result<(), AllocError> {
    let mut left = MAX_LETTERS;
    for letter in shown.chars() {
        if left == 0 {
            return text.push_str("..");
        }
        push_letter(text, letter)?;
        left -= 1;
    }
    Ok(())
}

/// What stands at a place.
pub(crate) fn push_found(text: &mut String, found: Found<'_>) -> Result<(), AllocError> {
    match found {
        Found::Nothing => Ok(()),
        Found::Value(value) => push_cut(text, InlineText::<ROOM>::of(value).as_str()),
        Found::Text(shown) => push_cut(text, shown),
        Found::Count(count, what) => write!(text, "{count} {what}"),
    }
}

/// What is wanted at a place.
pub(crate) fn push_wanted(text: &mut String, wanted: Wanted<'_>) -> Result<(), AllocError> {
    match wanted {
        Wanted::Text(words) => push_shown(text, words),
        Wanted::Within(what, span) => {
            let low = span.low;
            let high = span.high;
            write!(text, "{what} is {low} to {high}")
        }
        Wanted::AtMost(owner, most, things) => write!(text, "{owner} has at most {most} {things}"),
        Wanted::Keys(kind, version) => push_keys(text, rules_of(kind, version)),
    }
}

fn push_keys(text: &mut String, rules: &[Rule]) -> Result<(), AllocError> {
    let mut before = "the keys here are ";
    for rule in rules {
        text.push_str(before)?;
        text.push_str(rule.key)?;
        before = ", ";
    }
    Ok(())
}

fn push_owner(text: &mut String, owner: Owner) -> Result<(), AllocError> {
    match owner {
        Owner::Console(index) => write!(text, "console[{index}].show."),
        Owner::Node(index) => write!(text, "node[{index}].setup."),
        Owner::Show | Owner::Setup | Owner::World => Ok(()),
    }
}

fn push_step(text: &mut String, step: Option<Step>) -> Result<(), AllocError> {
    match step {
        Some(Step { key, index }) => write!(text, "{key}[{index}]."),
        None => Ok(()),
    }
}

fn is_bare(key: &str) -> bool {
    !key.is_empty()
        && key.as_bytes().iter().all(|octet| octet.is_ascii_alphanumeric()
            || *octet == b'_'
            || *octet == b'-')
}

fn push_key(text: &mut String, path: Path, key: &str) -> Result<(), AllocError> {
    push_owner(text, path.owner)?;
    push_step(text, path.row)?;
    push_step(text, path.inner)?;
    if is_bare(key) {
        return push_cut(text, key);
    }
    text.push('"')?;
    push_cut(text, key)?;
    text.push('"')
}

/// Where a fault is.
pub(crate) fn push_place(text: &mut String, place: Place<'_>) -> Result<(), AllocError> {
    match place {
        Place::Whole => Ok(()),
        Place::Line(line) => write!(text, "line {line}"),
        Place::Letter { line, column } => write!(text, "line {line}, column {column}"),
        Place::Key(path, key) => push_key(text, path, key),
        Place::Member(path, key, index) => {
            push_key(text, path, key)?;
            write!(text, "[{index}]")
        }
        Place::Inner(path, key, index, inner) => {
            push_key(text, path, key)?;
            write!(text, "[{index}][{inner}]")
        }
    }
}

/// The name of a refusal as the program says it, but for the line of a text, and the closer one after it.
pub(crate) fn push_name(
    text: &mut String,
    refusal: Refusal,
    detail: Option<Detail>,
) -> Result<(), AllocError> {
    match refusal {
        Refusal::Show(fault) => write!(text, "{fault:?}")?,
        Refusal::Setup(fault) => write!(text, "{fault:?}")?,
        Refusal::World(fault) => push_world_name(text, fault)?,
        Refusal::Text(fault) => text.push_str(text_name(fault))?,
    }
    match detail {
        Some(detail) => write!(text, " {detail:?}"),
        None => Ok(()),
    }
}

fn push_world_name(text: &mut String, fault: WorldTextFault) -> Result<(), AllocError> {
    match fault {
        WorldTextFault::Console(index, fault) => write!(text, "Console {index} {fault:?}"),
        WorldTextFault::Node(index, fault) => write!(text, "Node {index} {fault:?}"),
        own => write!(text, "{own:?}"),
    }
}

fn text_name(fault: TextFault) -> &'static str {
    match fault {
        TextFault::OutOfMemory => "OutOfMemory",
        TextFault::UnknownWord(_) => "UnknownWord",
        TextFault::WordCount(_) => "WordCount",
        TextFault::Number(_) => "Number",
        TextFault::Hex(_) => "Hex",
    }
}
