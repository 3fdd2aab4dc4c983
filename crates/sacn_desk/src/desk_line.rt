//! What a line of standard input says to a desk.
use crate::order_refusal::refusal;
use sacn_console::TextFault;
use sacn_files::words::words;
use sacn_orders::{Order, OrderFault, order_of};
use std::alloc::Global;

/// What a line of standard input says.
#[derive(Drop)]
pub(crate) enum DeskLine {
    Nothing,
    Order(Order),
    /// Every universe that runs is to end.
    EndAll,
    /// Every universe that has ended is to start.
    StartAll,
    Status,
    Help,
    Quit,
    /// It is no order, for this reason.
    Fault(&'static str),
    /// It is no order, for this reason, which names its words.
    Refused(String),
}

const OUT_OF_MEMORY: &str = "out of memory";

/// What a line's words are no order for.
fn refused(alloc: Global, word: &str, fault: OrderFault) -> DeskLine {
    match refusal(alloc, word, fault) {
        Ok(text) => DeskLine::Refused(text),
        Err(_) => DeskLine::Fault(OUT_OF_MEMORY),
    }
}

/// What is no order of a console's: it is the desk's own.
fn own(words: &[&str]) -> Option<DeskLine> {
    match words {
        [word] => match *word {
            "status" => Some(DeskLine::Status),
            "help" => Some(DeskLine::Help),
            "quit" => Some(DeskLine::Quit),
            _ => None,
        },
        [word, universes] => match (*word, *universes) {
            ("end", "all") => Some(DeskLine::EndAll),
            ("start", "all") => Some(DeskLine::StartAll),
            _ => None,
        },
        _ => None,
    }
}

fn is_own(word: &str) -> bool {
    matches!(word, "status" | "help" | "quit")
}

/// The meaning of a line's words, the first of which is this.
fn said_by(alloc: Global, first: &str, words: &[&str], line_number: usize) -> DeskLine {
    if let Some(said) = own(words) {
        return said;
    }
    if is_own(first) {
        let fault = OrderFault::Text(TextFault::WordCount(line_number));
        return refused(alloc, first, fault);
    }
    match order_of(alloc, words, line_number) {
        Ok(order) => DeskLine::Order(order),
        Err(fault) => refused(alloc, first, fault),
    }
}

/// The meaning of a line. One without words, or whose first begins with `#`, says nothing.
pub(crate) fn line_said(alloc: Global, line: Option<&[u8]>, line_number: usize) -> DeskLine {
    let Some(octets) = line else {
        return DeskLine::Fault("a line has at most 65536 octets");
    };
    let Ok(text) = std::str::from_utf8(octets) else {
        return DeskLine::Fault("this isn't text in UTF-8");
    };
    let Ok(words) = words(alloc, text) else {
        return DeskLine::Fault(OUT_OF_MEMORY);
    };
    match words.as_slice().first() {
        None => DeskLine::Nothing,
        Some(word) => {
            if word.starts_with('#') {
                DeskLine::Nothing
            } else {
                said_by(alloc, word, words.as_slice(), line_number)
            }
        }
    }
}
