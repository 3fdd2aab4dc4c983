//! Rows of letters, and how they are written to a terminal.

ghost use Rattle.std.specs.Prelude.{◌≡◌, ◌≤◌, [], ◌++◌, true, length, string_bytes, OnOk, IfOk};
ghost use Rattle.sacn_watch.specs.Pages.{is_shown, shown_as, with_cell, with_text, with_row, row_of, FitsOn};
ghost use Rattle.sacn_watch.specs.Drawing.{is_same, ink_code, change_code, letter_of, inked, placed_row, cleared_from, page_text};
ghost use Rattle.sacn_watch.specs.declared.page.Ink.TheVariants.{Plain};

use std::alloc::{AllocError, Global};
use std::fmt::Write;
use std::marker::Model;

/// The number of colours that tell sources apart.
const COLOURS: usize = 6;

/// Stands for a letter that isn't shown.
const UNKNOWN: u32 = '?' as u32;

/// How many columns and rows a terminal has.
#[derive(Clone, Copy)]
pub struct Size {
    pub width: usize,
    pub height: usize,
}

/// How a letter is written.
#[derive(Clone, Copy, PartialEq, Eq)]
pub enum Ink {
    Plain,
    Heading,
    Alarm,
    /// In the colour of the source at this place.
    Source(usize),
}

/// A letter of one column, and its ink.
#[derive(Clone, Copy)]
pub struct Cell {
    /// Its number in Unicode.
    pub code: u32,
    pub ink: Ink,
}

/// Whether a letter takes one column and steers no terminal.
pub fn is_shown(code: u32) -> bool
    ensures { result ≡ is_shown code }
{
    ((32 <= code) & (code <= 126)) | (((161 <= code) & (code <= 591)) & !(code == 173))
}

/// The letter, or a question mark where it can't be shown.
pub fn printable(code: u32) -> u32
    ensures letter { result ≡ shown_as code }
    ensures shown { is_shown result ≡ true }
{
    if is_shown(code) { code } else { UNKNOWN }
}

/// A row of a screen: never more letters than its width, each of one column.
#[derive(Drop)]
pub struct Row {
    width: usize,
    cells: Vec<Cell>,
}

impl Model for Row {
    ghost use Rattle.std.specs.Prelude.{◌≤◌, length};
    ghost use Rattle.sacn_watch.specs.Pages.{Line};

    ghost Value = { Line };

    ghost view = { λ r. record { width = r.width; cells = r.cells.items } };

    ghost invariant = { λ r. length r.cells.items ≤ r.width };
}

impl Row {
    /// An empty row of this width.
    pub fn new(alloc: Global, width: usize) -> Self
        ensures { result ≡ record { width = width; cells = [] } }
    {
        Row {
            width,
            cells: Vec::new(alloc),
        }
    }

    /// The letters so far: at most the width.
    pub fn cells(&self) -> &[Cell]
        ensures cells { result.now ≡ self.now.cells }
        ensures few { length result.now ≤ self.now.width }
    {
        self.cells.as_slice()
    }

    /// A letter more, where there is room for it.
    pub fn put(&mut self, code: u32, ink: Ink) -> Result<(), AllocError>
        ensures width { self.new.width ≡ self.old.width }
        ensures kept { OnOk result
            (self.new ≡ with_cell (record { code = shown_as code; ink = ink }) self.old) }
    {
        if self.cells.len() < self.width {
            self.cells.push(Cell {
                code: printable(code),
                ink,
            })?;
        }
        Ok(())
    }

    /// A text more, as much of it as there is room for.
    pub fn put_text(&mut self, text: &str, ink: Ink) -> Result<(), AllocError>
        ensures width { self.new.width ≡ self.old.width }
        ensures kept { OnOk result (self.new ≡ with_text ink text.now self.old) }
    {
        let _ = &self.width;
        for letter in text.chars() {
            self.put(letter as u32, ink)?;
        }
        Ok(())
    }
}

/// The rows of a screen, at most as many as the terminal has.
#[derive(Drop)]
pub struct Page {
    pub size: Size,
    pub rows: Vec<Row>,
    /// How many rows of sources stand above the first of them, of those for which there is no room.
    pub sources_above: usize,
}

impl Page {
    /// No row yet.
    pub fn new(alloc: Global, size: Size) -> Self
        ensures size { result.size ≡ size }
        ensures rows { result.rows.items ≡ [] }
    {
        Page {
            size,
            rows: Vec::new(alloc),
            sources_above: 0,
        }
    }

    /// A row more, where there is room for it.
    pub fn push(&mut self, row: Row) -> Result<(), AllocError>
        ensures size { self.new.size ≡ self.old.size }
        ensures kept { OnOk result
            (self.new.rows.items ≡ with_row self.old.size.height row self.old.rows.items) }
        ensures fits { row.width ≡ self.old.size.width → FitsOn self.old.size self.old.rows.items
            → FitsOn self.new.size self.new.rows.items }
    {
        if self.rows.len() < self.size.height {
            self.rows.push(row)?;
        }
        Ok(())
    }

    /// A row of one ink more, where there is room for it.
    pub fn push_text(&mut self, alloc: Global, text: &str, ink: Ink) -> Result<(), AllocError>
        ensures size { self.new.size ≡ self.old.size }
        ensures kept { OnOk result (self.new.rows.items ≡ with_row self.old.size.height
            (row_of self.old.size.width ink text.now) self.old.rows.items) }
        ensures fits { FitsOn self.old.size self.old.rows.items
            → FitsOn self.new.size self.new.rows.items }
    {
        let mut row = Row::new(alloc, self.size.width);
        row.put_text(text, ink)?;
        self.push(row)
    }

    /// Its rows as lines, without inks.
    pub fn lines(&self, alloc: Global) -> Result<String, AllocError> {
        let mut text = String::new(alloc);
        for row in self.rows.iter() {
            push_row(&mut text, row, false)?;
            text.push('\n')?;
        }
        Ok(text)
    }

    /// The text that draws the page over whatever a terminal shows, in colours or without them.
    pub fn text(&self, alloc: Global, has_colours: bool) -> Result<String, AllocError>
        ensures { IfOk result (λ text. string_bytes text
            ≡ page_text has_colours self.now.size.height self.now.rows.items) }
    {
        let mut text = String::new(alloc);
        let mut number = 1_usize;
        for row in self.rows.iter() {
            push_placed(&mut text, row, number, has_colours)?;
            number = number.saturating_add(1);
        }
        push_rest(&mut text, number, self.size.height)?;
        Ok(text)
    }
}

// The letters of a row, each after the code of its ink where the letter before has another one.
fn push_row(text: &mut String, row: &Row, has_colours: bool) -> Result<(), AllocError>
    ensures { OnOk result
        (string_bytes text.new ≡ string_bytes text.old ++ inked has_colours Plain row.now.cells) }
{
    let mut ink = Ink::Plain;
    for cell in row.cells() {
        let next = if has_colours { cell.ink } else { Ink::Plain };
        push_change(text, ink, next)?;
        push_letter(text, cell.code)?;
        ink = next;
    }
    push_change(text, ink, Ink::Plain)
}

fn is_same(before: Ink, after: Ink) -> bool
    ensures { result ≡ is_same before after }
{
    before == after
}

fn push_change(text: &mut String, before: Ink, after: Ink) -> Result<(), AllocError>
    ensures { OnOk result
        (string_bytes text.new ≡ string_bytes text.old ++ change_code before after) }
{
    if is_same(before, after) {
        Ok(())
    } else {
        push_ink(text, after)
    }
}

fn push_letter(text: &mut String, code: u32) -> Result<(), AllocError>
    ensures { OnOk result (string_bytes text.new ≡ string_bytes text.old ++ letter_of code) }
{
    match char::from_u32(code) {
        Some(letter) => text.push(letter),
        None => Ok(()),
    }
}

fn push_ink(text: &mut String, ink: Ink) -> Result<(), AllocError>
    ensures { OnOk result (string_bytes text.new ≡ string_bytes text.old ++ ink_code ink) }
{
    match ink {
        Ink::Plain => text.push_str("\u{1b}[0m"),
        Ink::Heading => text.push_str("\u{1b}[0;1m"),
        Ink::Alarm => text.push_str("\u{1b}[0;1;31m"),
        Ink::Source(place) => {
            let colour = 31 + place % COLOURS;
            write!(text, "\u{1b}[0;{colour}m")
        }
    }
}

// A row at its place, and nothing right of it.
fn push_placed(
    text: &mut String,
    row: &Row,
    number: usize,
    has_colours: bool,
) -> Result<(), AllocError>
    ensures { OnOk result
        (string_bytes text.new ≡ string_bytes text.old ++ placed_row has_colours number row.now) }
{
    write!(text, "\u{1b}[{number};1H")?;
    push_row(text, row, has_colours)?;
    text.push_str("\u{1b}[K")
}

// The lines below the rows, where there are any.
fn push_rest(text: &mut String, number: usize, height: usize) -> Result<(), AllocError>
    ensures { OnOk result
        (string_bytes text.new ≡ string_bytes text.old ++ cleared_from height number) }
{
    if number <= height {
        write!(text, "\u{1b}[{number};1H\u{1b}[J")
    } else {
        Ok(())
    }
}
