//! What a desk answers to an order that sets levels and was taken, in the words of the order.
use crate::show_lists::ShowLists;
use sacn_console::Command;
use sacn_cues::{FULL, MAX_CHANNELS};
use sacn_orders::Selection;
use std::alloc::{AllocError, Global};
use std::fmt::Write;

/// The most spans of channels that an answer names.
const MAX_SPANS: usize = 8;

fn push_span(text: &mut String, first: u16, last: u16) -> Result<(), AllocError> {
    if first == last {
        write!(text, "{first}")
    } else {
        write!(text, "{first} thru {last}")
    }
}

/// Whether a selection is every channel, said as one part.
fn is_all(selection: &Selection) -> bool {
    match selection.parts() {
        [part] => part.is_added && part.first == 1 && part.last == MAX_CHANNELS,
        _ => false,
    }
}

fn push_selection(text: &mut String, selection: &Selection) -> Result<(), AllocError> {
    if is_all(selection) {
        return text.push_str("all");
    }
    for (place, part) in selection.parts().iter().enumerate() {
        if place > 0 {
            text.push_str(if part.is_added { " + " } else { " - " })?;
        }
        push_span(text, part.first, part.last)?;
    }
    Ok(())
}

/// Hundredths of a percent, without the decimals that are 0.
fn push_percent(text: &mut String, hundredths: u64) -> Result<(), AllocError> {
    let (whole, tenths, rest) = (hundredths / 100, hundredths / 10 % 10, hundredths % 10);
    if rest > 0 {
        write!(text, "{whole}.{tenths}{rest} %")
    } else if tenths > 0 {
        write!(text, "{whole}.{tenths} %")
    } else {
        write!(text, "{whole} %")
    }
}

/// The hundredths of a percent that give this level, rounded down.
fn hundredths_of(level: u16) -> u64 {
    (u64::from(level) * 10_000).div_ceil(u64::from(FULL))
}

/// A level in hundredths of a percent, rounded to tenths of one.
pub(crate) fn rounded(level: u16) -> u64 {
    (u64::from(level) * 2_000 + u64::from(FULL)) / (2 * u64::from(FULL)) * 10
}

/// The chosen channels that no slot shows, as spans of neighbours.
fn dark_spans(
    alloc: Global,
    selection: &Selection,
    lists: &ShowLists,
) -> Result<Vec<(u16, u16)>, AllocError> {
    let mut spans = Vec::new(alloc);
    let mut open: Option<(u16, u16)> = None;
    for channel in 1..MAX_CHANNELS + 1 {
        let is_dark = selection.holds(channel) && !lists.is_patched(channel);
        match open {
            Some((first, last)) if is_dark && last.saturating_add(1) == channel => open = Some((
                first, channel,
            )),
            _ => {
                if let Some(span) = open {
                    spans.push(span)?;
                }
                open = if is_dark {
                    Some((channel, channel))
                } else {
                    None
                };
            }
        }
    }
    if let Some(span) = open {
        spans.push(span)?;
    }
    Ok(spans)
}

fn push_dark(text: &mut String, spans: &[(u16, u16)]) -> Result<(), AllocError> {
    if let [(first, last)] = spans {
        if first == last {
            return write!(text, "ok, but channel {first} is not patched\n");
        }
    }
    text.push_str("ok, but channels ")?;
    for (place, (first, last)) in spans.iter().take(MAX_SPANS).enumerate() {
        text.push_str(if place > 0 { ", " } else { "" })?;
        push_span(text, *first, *last)?;
    }
    text.push_str(if spans.len() > MAX_SPANS {
        " and others are not patched\n"
    } else {
        " are not patched\n"
    })
}

/// The answer to an order for these channels. An order for all channels says nothing of those that aren't patched.
pub(crate) fn push_levels(
    text: &mut String,
    alloc: Global,
    selection: &Selection,
    level: u16,
    lists: &ShowLists,
) -> Result<(), AllocError> {
    if selection.next_from(1).is_none() {
        return text.push_str("ok, but no channel is chosen\n");
    }
    let spans = dark_spans(alloc, selection, lists)?;
    if !is_all(selection) && !spans.is_empty() {
        return push_dark(text, spans.as_slice());
    }
    text.push_str("ok ")?;
    push_selection(text, selection)?;
    text.push_str(" at ")?;
    push_percent(text, hundredths_of(level))?;
    text.push_str("\n")
}

fn push_set(
    text: &mut String,
    channel: u16,
    level: u16,
    lists: &ShowLists,
) -> Result<(), AllocError> {
    if !lists.is_patched(channel) {
        return push_dark(text, &[(channel, channel)]);
    }
    write!(text, "ok {channel} at ")?;
    push_percent(text, rounded(level))?;
    text.push_str("\n")
}

/// The answer to a command of one universe or one channel; none to the others.
pub(crate) fn push_answer(
    text: &mut String,
    command: Command,
    lists: &ShowLists,
) -> Result<(), AllocError> {
    match command {
        Command::SetLevel(channel, level) => push_set(text, channel, level, lists),
        Command::EndUniverse(universe) => write!(text, "ok universe {universe} ends\n"),
        Command::StartUniverse(universe) => write!(text, "ok universe {universe} starts\n"),
        Command::Master(_) | Command::Go | Command::GoTo(_) => Ok(()),
    }
}

/// The answer to an order for the grand master.
pub(crate) fn push_master(text: &mut String, level: u16) -> Result<(), AllocError> {
    text.push_str("ok master at ")?;
    push_percent(text, hundredths_of(level))?;
    text.push_str("\n")
}
