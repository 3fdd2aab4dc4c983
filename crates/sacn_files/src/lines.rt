//! Lines of a text.
ghost use Rattle.std.specs.Prelude.{◌≡◌, ◌==◌, slice_index, map, IfOk, OnOk};
ghost use Rattle.std.specs.Str.Lines.{lines};
ghost use Rattle.sacn_files.specs.Words.{words};
ghost use Rattle.sacn_files.specs.Lines.{is_skipped, saying, said_lines, said};

use crate::words::words;
use std::alloc::{AllocError, Global};

/// A line that says something.
#[derive(Drop)]
pub struct Line<'a> {
    /// The line's number in its text, counted from 1.
    pub number: usize,
    /// The line's words, at least one.
    pub words: Vec<&'a str>,
}

/// The lines of a text. A line ends with LF, which the last may lack; one CR directly before an LF is
/// dropped, and a CR at the very end of a text stays.
pub fn lines_of<'a>(alloc: Global, text: &'a str) -> Result<Vec<&'a str>, AllocError>
    ensures { IfOk result (λ v. map (λ l. l.now) v.items ≡ lines text.now) }
{
    text.lines().collect(alloc)
}

/// Whether a line of these words says nothing: it has none, or the first begins with `#`.
pub fn is_skipped(words: &[&str]) -> bool
    ensures { result ≡ is_skipped (map (λ w. w.now) words.now) }
{
    match words.split_first() {
        Some((first, _)) => starts_with_mark(first),
        None => true,
    }
}

fn starts_with_mark(word: &str) -> bool
    ensures { result ≡ (slice_index word.now 0 == 35) }
{
    match word.as_bytes().first() {
        Some(octet) => *octet == b'#',
        None => false,
    }
}

/// Adds a line, if it says something.
fn add_line<'a>(
    alloc: Global,
    found: &mut Vec<Line<'a>>,
    number: usize,
    text: &'a str,
) -> Result<(), AllocError>
    ensures { OnOk result
        (map said found.new.items ≡ saying (map said found.old.items) number (words text.now)) }
{
    let words = words(alloc, text)?;
    if !is_skipped(words.as_slice()) {
        found.push(Line { number, words })?;
    }
    Ok(())
}

/// The lines of a text that say something, in order.
pub fn said_lines<'a>(alloc: Global, text: &'a str) -> Result<Vec<Line<'a>>, AllocError>
    ensures { IfOk result (λ v. map said v.items ≡ said_lines text.now) }
{
    let lines = lines_of(alloc, text)?;
    let mut found = Vec::new(alloc);
    for i in 0..lines.len() {
        add_line(alloc, &mut found, i + 1, lines[i])?;
    }
    Ok(found)
}
