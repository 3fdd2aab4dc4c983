//! The levels of a universe on a screen.

ghost use Rattle.std.specs.Prelude.{◌≡◌, IfOk};
ghost use Rattle.sacn_watch.specs.Pages.{FitsOn};

use crate::digits::{put_hex, put_number};
use crate::layout::push_more;
use crate::numbers::letter_of;
use crate::page::{Ink, Page, Row};
use crate::steering::{LevelForm, Steering};
use crate::view::View;
use sacn_packets::SLOTS;
use std::alloc::{AllocError, Global};
use std::fmt::Write;

/// The columns before the levels of a row.
const HEAD_COLUMNS: usize = 5;

/// The columns of a level in two digits, and in three, with its letter and what stands behind it.
const TWO_DIGITS: usize = 4;

const THREE_DIGITS: usize = 5;

/// The octet of a level of 100 %.
const FULL: u32 = 255;

// The columns of a slot.
fn columns_of(steering: &Steering) -> usize {
    if steering.has_priorities {
        return THREE_DIGITS;
    }
    match steering.form {
        LevelForm::Hex => TWO_DIGITS,
        LevelForm::Decimal => THREE_DIGITS,
        LevelForm::Percent => THREE_DIGITS,
    }
}

// How many slots stand in a row, at least one: as many eights or tens as there is room for, or where there is room for fewer than eight, as many as that.
fn slots_in(width: usize, columns: usize) -> usize {
    let room = width.saturating_sub(HEAD_COLUMNS) / columns.max(1);
    if room < 8 {
        return room.max(1);
    }
    let eights = room - room % 8;
    let tens = room - room % 10;
    eights.max(tens).min(SLOTS)
}

/// The levels of the shown universe: the rows with a slot above 0 or one that is marked, and how many more there are where not all fit.
pub(crate) fn push_levels(
    alloc: Global,
    page: &mut Page,
    view: &View,
    numbers: &[usize],
) -> Result<(), AllocError>
    ensures size { page.new.size ≡ page.old.size }
    ensures fits { FitsOn page.old.size page.old.rows.items
        → FitsOn page.new.size page.new.rows.items }
{
    let Some(universe) = view.universe() else {
        return Ok(());
    };
    let mut text = String::new(alloc);
    push_head(&mut text, view, universe)?;
    page.push_text(alloc, "", Ink::Plain)?;
    page.push_text(alloc, text.as_str(), Ink::Heading)?;
    let rows = lit_rows(view, page.size.width);
    let room = page.size.height.saturating_sub(page.rows.len());
    if rows <= room {
        return push_level_rows(alloc, page, view, numbers, rows);
    }
    let room = room.saturating_sub(1);
    push_level_rows(alloc, page, view, numbers, room)?;
    push_more(alloc, page, "    ", rows.saturating_sub(room), Ink::Plain)
}

// What stands below it.
fn push_head(text: &mut String, view: &View, universe: u16) -> Result<(), AllocError> {
    if !view.is_heard() {
        return write!(text, "universe {universe}: no levels heard yet");
    }
    let slots = if view.steering.marks.are_on() {
        "* changed since f"
    } else {
        "slots above 0"
    };
    let what = what_stands(&view.steering);
    write!(
        text,
        "universe {universe}: {slots}, the source's letter and {what}"
    )
}

fn what_stands(steering: &Steering) -> &'static str {
    if steering.has_priorities {
        return "its priority";
    }
    match steering.form {
        LevelForm::Hex => "the level, 00 to ff",
        LevelForm::Decimal => "the level, 0 to 255",
        LevelForm::Percent => "the level in percent",
    }
}

/// How many rows have a slot above 0, or one that is marked.
pub(crate) fn lit_rows(view: &View, width: usize) -> usize {
    let count = slots_in(width, columns_of(&view.steering));
    let mut rows = 0_usize;
    for number in 0..SLOTS {
        if is_lit(view, number.saturating_mul(count), count) {
            rows = rows.saturating_add(1);
        }
    }
    rows
}

// The first so many rows that have a slot above 0, or one that is marked.
fn push_level_rows(
    alloc: Global,
    page: &mut Page,
    view: &View,
    numbers: &[usize],
    room: usize,
) -> Result<(), AllocError>
    ensures size { page.new.size ≡ page.old.size }
    ensures fits { FitsOn page.old.size page.old.rows.items
        → FitsOn page.new.size page.new.rows.items }
{
    let count = slots_in(page.size.width, columns_of(&view.steering));
    let places = view.places();
    let mut rows = 0_usize;
    for number in 0..SLOTS {
        let first = number.saturating_mul(count);
        if rows < room && is_lit(view, first, count) {
            rows += 1;
            let end = first.saturating_add(count).min(SLOTS);
            let row = level_row(alloc, view, &places, numbers, first, end, page.size.width)?;
            page.push(row)?;
        }
    }
    Ok(())
}

// Whether a slot of a row is above 0, or marked.
fn is_lit(view: &View, first: usize, count: usize) -> bool {
    first < SLOTS
        && (view
            .levels()
            .iter()
            .skip(first)
            .take(count)
            .any(|level| *level > 0)
            || has_mark(view, first, count))
}

fn has_mark(view: &View, first: usize, count: usize) -> bool {
    if !view.steering.marks.are_on() {
        return false;
    }
    let mut has_mark = false;
    for slot in first..first.saturating_add(count) {
        has_mark = view.steering.marks.has(slot) | has_mark;
    }
    has_mark
}

// The row of the slots from one on, behind its number: of each the letter of the source that gives it its level, and the level.
fn level_row(
    alloc: Global,
    view: &View,
    places: &[Option<usize>; SLOTS],
    numbers: &[usize],
    first: usize,
    end: usize,
    width: usize,
) -> Result<Row, AllocError>
    ensures { IfOk result (λ row. row.width ≡ width) }
{
    let mut text = String::new(alloc);
    let number = first.saturating_add(1);
    write!(text, "{number:>4} ")?;
    let mut row = Row::new(alloc, width);
    row.put_text(text.as_str(), Ink::Plain)?;
    let levels = view.levels();
    for slot in first..end.min(SLOTS) {
        let source = number_of(numbers, places[slot]);
        let ink = ink_of(source, view.steering.marks.has(slot));
        row.put(letter_of_source(source), ink)?;
        put_slot(&mut row, view, levels[slot], places[slot], ink)?;
        row.put(behind(ink), ink)?;
    }
    Ok(row)
}

// The number of the source whose stream stands at a place.
fn number_of(numbers: &[usize], place: Option<usize>) -> Option<usize> {
    match place {
        Some(place) => Some(numbers.get(place).copied().unwrap_or(place)),
        None => None,
    }
}

fn letter_of_source(source: Option<usize>) -> u32 {
    match source {
        Some(number) => letter_of(number),
        None => '.' as u32,
    }
}

// What is shown of a slot behind the letter of its source.
fn put_slot(
    row: &mut Row,
    view: &View,
    level: u8,
    place: Option<usize>,
    ink: Ink,
) -> Result<(), AllocError>
    ensures { row.new.width ≡ row.old.width }
{
    if view.steering.has_priorities {
        return put_number(row, priority_at(view, place), ink);
    }
    match view.steering.form {
        LevelForm::Hex => put_hex(row, level, ink),
        LevelForm::Decimal => put_number(row, level, ink),
        LevelForm::Percent => put_number(row, percent_of(level), ink),
    }
}

// A level in percent, the nearest.
fn percent_of(level: u8) -> u8 {
    ((u32::from(level) * 100 + FULL / 2) / FULL) as u8
}

// The priority of the stream at a place; 0 where nobody gives the level.
fn priority_at(view: &View, place: Option<usize>) -> u8 {
    let Some(place) = place else {
        return 0;
    };
    match view.monitor().streams().get(place) {
        Some(stream) => stream.account.priority,
        None => 0,
    }
}

// A star behind a slot that is marked.
fn behind(ink: Ink) -> u32 {
    match ink {
        Ink::Alarm => '*' as u32,
        _ => ' ' as u32,
    }
}

fn ink_of(source: Option<usize>, is_marked: bool) -> Ink {
    if is_marked {
        return Ink::Alarm;
    }
    match source {
        Some(number) => Ink::Source(number),
        None => Ink::Plain,
    }
}
