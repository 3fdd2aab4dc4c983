//! A quick look at the lines of a text, by which most shows are known without their document.
//!
//! Making the document is nearly all that telling a file's kind costs, and the file's reader makes it once more. The look
//! says yes only of texts of which the form that makes the document gives Show whether there is one or not, and of all
//! others it says nothing:
//!
//! - Where there is no document, the first line that says something decides: it has `=` for its second word.
//! - Where there is one, no text in it goes over several lines, since nothing opens such a text. So each key of its top
//!   table stands first in a line, alone or within the brackets of a header. None of these keys is one of worlds or setups:
//!   no line begins with such a word, nor with quotes, in which a key's letters may be written otherwise. And one is a key
//!   of shows: it stands in a header, or in front of `=` where no header is above it and no brace, since keys of an inner
//!   table may stand first in lines too.

use crate::kinds::{SETUP_KEYS, SHOW_KEYS, WORLD_KEYS};

/// Whether a text is a show to [`kind_of`](crate::kind_of), document or not. Where it is not so nothing is known.
pub fn is_surely_show(text: &str) -> bool {
    lines_are_of_show(text) && !text.contains("\"\"\"") && !text.contains("'''")
}

fn lines_are_of_show(text: &str) -> bool {
    let mut is_first = true;
    let mut is_at_top = true;
    let mut has_key = false;
    for line in text.lines() {
        let line = after_blanks(line.as_bytes());
        if !says_something(line) {
            continue;
        }
        if may_be_of_another(line) || (is_first && !has_equals(line)) {
            return false;
        }
        is_first = false;
        if !has_key {
            has_key = is_show_header(line) || (is_at_top && sets_show_key(line));
            is_at_top = is_at_top && !line.starts_with(b"[") && !line.contains(&b'{');
        }
    }
    has_key
}

fn is_blank(octet: u8) -> bool {
    octet == b' ' || octet == b'\t'
}

fn after_blanks(line: &[u8]) -> &[u8] {
    match line.iter().position(|octet| !is_blank(*octet)) {
        Some(start) => &line[start..],
        None => &[],
    }
}

// After brackets and blanks, between which a header has its key.
fn after_brackets(line: &[u8]) -> &[u8] {
    match line
        .iter()
        .position(|octet| *octet != b'[' && !is_blank(*octet))
    {
        Some(start) => &line[start..],
        None => &[],
    }
}

fn says_something(line: &[u8]) -> bool {
    match line.first() {
        Some(octet) => *octet != b'#',
        None => false,
    }
}

/// Whether the second word of a line is `=`.
fn has_equals(line: &[u8]) -> bool {
    let mut words = line
        .split(|octet| is_blank(*octet))
        .filter(|word| !word.is_empty());
    matches!(words.nth(1), Some([b'=']))
}

/// Whether a line may begin with a key of worlds or setups.
fn may_be_of_another(line: &[u8]) -> bool {
    let key = after_brackets(line);
    match key.first() {
        Some(octet) => {
            *octet == b'"'
                || *octet == b'\''
                || 128 <= *octet
                || begins_with_one(key, WORLD_KEYS)
                || begins_with_one(key, SETUP_KEYS)
        }
        None => false,
    }
}

fn begins_with_one(line: &[u8], keys: &[&str]) -> bool {
    keys.iter().any(|key| line.starts_with(key.as_bytes()))
}

/// Whether a line is a header of one key of shows.
fn is_show_header(line: &[u8]) -> bool {
    line.starts_with(b"[") && has_show_key(after_brackets(line), b']')
}

/// Whether a line gives a key of shows a value.
fn sets_show_key(line: &[u8]) -> bool {
    has_show_key(line, b'=')
}

/// Whether a key of shows comes first, and then this mark.
fn has_show_key(line: &[u8], mark: u8) -> bool {
    SHOW_KEYS.iter().any(|key| match line.strip_prefix(key.as_bytes()) {
        Some(rest) => after_blanks(rest).first() == Some(&mark),
        None => false,
    })
}
