//! What stands on a screen.

ghost use Rattle.std.specs.Prelude.{◌≡◌, IfOk};
ghost use Rattle.sacn_watch.specs.Pages.{FitsOn};

use crate::alarms::push_alarms;
use crate::levels::{lit_rows, push_levels};
use crate::numbers::{letter_of, source_numbers};
use crate::page::{Ink, Page, Row, Size};
use crate::view::View;
use sacn_monitor::{Account, Stream, StreamState};
use sacn_packets::up_to_nul;
use std::alloc::{AllocError, Global};
use std::fmt::Write;
use std::str;

/// Where fewer rows are left below the alarms, the sources take all of them.
const MIN_SHARED: usize = 8;

/// The columns of a name.
const NAME_COLUMNS: usize = 20;

const SOURCE_HEAD: &str = "  universe state   prio  rate missed  late name                 address";

/// The screen of a view, at a terminal of this size: alarms, the sources on universes, and the levels of one universe, each
/// after the letter of the source that gives it. Where not all sources fit above the levels, those of that universe come first, the
/// levels keep up to half of the rows, and how many of each there are more is said; the sources are then shown from the one on to
/// which they were scrolled. Rows are cut at the terminal's edge, and rows below its end are left out: there are never more rows than
/// the terminal has, and each is as wide as it.
///
/// Errors: a growth was refused.
pub fn screen(alloc: Global, view: &View, size: Size) -> Result<Page, AllocError>
    ensures size { IfOk result (λ page. page.size ≡ size) }
    ensures fits { IfOk result (λ page. FitsOn page.size page.rows.items) }
{
    let mut page = Page::new(alloc, size);
    push_counts(alloc, &mut page, view)?;
    push_stop(alloc, &mut page, view)?;
    push_alarms(alloc, &mut page, view)?;
    let numbers = source_numbers(alloc, view.monitor().streams())?;
    push_sources(alloc, &mut page, view, numbers.as_slice())?;
    push_levels(alloc, &mut page, view, numbers.as_slice())?;
    Ok(page)
}

fn push_counts(alloc: Global, page: &mut Page, view: &View) -> Result<(), AllocError>
    ensures size { page.new.size ≡ page.old.size }
    ensures fits { FitsOn page.old.size page.old.rows.items
        → FitsOn page.new.size page.new.rows.items }
{
    let mut text = String::new(alloc);
    let streams = view.monitor().streams().len();
    let datagrams = view.monitor().tally().datagrams;
    write!(
        text,
        "sacn watch  sources on universes {streams}  datagrams {datagrams}"
    )?;
    page.push_text(alloc, text.as_str(), Ink::Heading)
}

// For how long this program was stopped, if it was.
fn push_stop(alloc: Global, page: &mut Page, view: &View) -> Result<(), AllocError>
    ensures size { page.new.size ≡ page.old.size }
    ensures fits { FitsOn page.old.size page.old.rows.items
        → FitsOn page.new.size page.new.rows.items }
{
    if view.stopped == 0 {
        return Ok(());
    }
    let mut text = String::new(alloc);
    let seconds = view.stopped / 1000;
    let rest = view.stopped % 1000;
    write!(
        text,
        "! not heard for {seconds}.{rest:03} s: this program was stopped"
    )?;
    page.push_text(alloc, text.as_str(), Ink::Alarm)
}

// Says how many rows more there would be, where there would be any.
pub(crate) fn push_more(
    alloc: Global,
    page: &mut Page,
    front: &str,
    count: usize,
    ink: Ink,
) -> Result<(), AllocError>
    ensures size { page.new.size ≡ page.old.size }
    ensures fits { FitsOn page.old.size page.old.rows.items
        → FitsOn page.new.size page.new.rows.items }
{
    if count == 0 {
        return Ok(());
    }
    let mut text = String::new(alloc);
    write!(text, "{front} and {count} more")?;
    page.push_text(alloc, text.as_str(), ink)
}

fn push_sources(
    alloc: Global,
    page: &mut Page,
    view: &View,
    numbers: &[usize],
) -> Result<(), AllocError>
    ensures size { page.new.size ≡ page.old.size }
    ensures fits { FitsOn page.old.size page.old.rows.items
        → FitsOn page.new.size page.new.rows.items }
{
    page.push_text(alloc, "", Ink::Plain)?;
    page.push_text(alloc, SOURCE_HEAD, Ink::Heading)?;
    let streams = view.monitor().streams();
    let count = streams.len();
    let room = room_for_sources(page, view);
    if count <= room {
        page.sources_above = 0;
        return push_sources_of(alloc, page, view, numbers, Part::All, Span::all(count));
    }
    let room = room.saturating_sub(1);
    let above = view
        .steering
        .sources_above
        .min(count.saturating_sub(room.max(1)));
    page.sources_above = above;
    let shown = count_of(view, Part::Shown);
    let first = Span::of(above, room, shown);
    push_sources_of(alloc, page, view, numbers, Part::Shown, first)?;
    let others = Span::of(
        above.saturating_sub(shown),
        room.saturating_sub(first.count),
        count.saturating_sub(shown),
    );
    push_sources_of(alloc, page, view, numbers, Part::Others, others)?;
    let left = count
        .saturating_sub(above)
        .saturating_sub(first.count)
        .saturating_sub(others.count);
    push_rest_of_sources(alloc, page, above, left)
}

// Says how many sources stand above and below those that are shown.
fn push_rest_of_sources(
    alloc: Global,
    page: &mut Page,
    above: usize,
    below: usize,
) -> Result<(), AllocError>
    ensures size { page.new.size ≡ page.old.size }
    ensures fits { FitsOn page.old.size page.old.rows.items
        → FitsOn page.new.size page.new.rows.items }
{
    if above == 0 {
        return push_more(alloc, page, " ", below, Ink::Plain);
    }
    let mut text = String::new(alloc);
    write!(text, "  {above} above")?;
    if below > 0 {
        write!(text, ", and {below} more")?;
    }
    page.push_text(alloc, text.as_str(), Ink::Plain)
}

// How many rows of sources there is room for.
fn room_for_sources(page: &Page, view: &View) -> usize {
    let left = page.size.height.saturating_sub(page.rows.len());
    if left < MIN_SHARED {
        return left;
    }
    let levels = match view.universe() {
        Some(_) => lit_rows(view, page.size.width).saturating_add(2),
        None => 0,
    };
    left.saturating_sub(levels.min(left / 2))
}

// Which sources: all, those of the universe whose levels are shown, or the others.
#[derive(Clone, Copy)]
enum Part {
    All,
    Shown,
    Others,
}

// Whether a source on a universe is of a part.
fn is_of(view: &View, stream: &Stream, part: Part) -> bool {
    match part {
        Part::All => true,
        Part::Shown => view.universe() == Some(stream.universe),
        Part::Others => view.universe() != Some(stream.universe),
    }
}

// How many sources on universes are of a part.
fn count_of(view: &View, part: Part) -> usize {
    let mut count = 0_usize;
    for stream in view.monitor().streams() {
        if is_of(view, stream, part) {
            count = count.saturating_add(1);
        }
    }
    count
}

// Which rows of a part: so many, behind those that are passed by.
#[derive(Clone, Copy)]
struct Span {
    above: usize,
    count: usize,
}

impl Span {
    // All rows of so many.
    fn all(count: usize) -> Self {
        Span { above: 0, count }
    }

    // Of so many rows those behind the ones above, as far as there is room.
    fn of(above: usize, room: usize, count: usize) -> Self {
        Span {
            above,
            count: count.saturating_sub(above).min(room),
        }
    }
}

// The rows of the sources of a part.
fn push_sources_of(
    alloc: Global,
    page: &mut Page,
    view: &View,
    numbers: &[usize],
    part: Part,
    span: Span,
) -> Result<(), AllocError>
    ensures size { page.new.size ≡ page.old.size }
    ensures fits { FitsOn page.old.size page.old.rows.items
        → FitsOn page.new.size page.new.rows.items }
{
    let streams = view.monitor().streams();
    let end = span.above.saturating_add(span.count);
    let mut passed = 0_usize;
    for place in 0..streams.len() {
        if is_of(view, &streams[place], part) {
            if span.above <= passed && passed < end {
                let number = numbers.get(place).copied().unwrap_or(place);
                push_source_row(
                    alloc,
                    page,
                    &streams[place],
                    number,
                    view.monitor().moment(),
                )?;
            }
            passed = passed.saturating_add(1);
        }
    }
    Ok(())
}

// The row of a source on a universe, behind the letter of the source.
fn push_source_row(
    alloc: Global,
    page: &mut Page,
    stream: &Stream,
    number: usize,
    moment: u64,
) -> Result<(), AllocError>
    ensures size { page.new.size ≡ page.old.size }
    ensures fits { FitsOn page.old.size page.old.rows.items
        → FitsOn page.new.size page.new.rows.items }
{
    let mut text = String::new(alloc);
    push_source(&mut text, stream, moment)?;
    let mut row = Row::new(alloc, page.size.width);
    row.put(letter_of(number), Ink::Source(number))?;
    row.put_text(text.as_str(), Ink::Source(number))?;
    page.push(row)?;
    Ok(())
}

fn state_word(state: StreamState) -> &'static str {
    match state {
        StreamState::Sending => "sending",
        StreamState::Ended => "ended",
        StreamState::Lost => "lost",
    }
}

fn push_source(text: &mut String, stream: &Stream, moment: u64) -> Result<(), AllocError> {
    let account = &stream.account;
    let universe = stream.universe;
    let state = state_word(stream.state(moment));
    let priority = account.priority;
    write!(text, "{universe:>9} {state:<7} {priority:>4} ")?;
    let rate = account.rate.last_second(moment);
    let lost = account.skipped;
    let late = account.late;
    write!(text, "{rate:>5} {lost:>6} {late:>5} ")?;
    push_name(text, account)?;
    let [a, b, c, d] = account.sender.address;
    write!(text, " {a}.{b}.{c}.{d}")?;
    let port = account.sender.port;
    write!(text, ":{port}")
}

// A name in its columns. One that isn't UTF-8 has its octets as letters.
pub(crate) fn push_name(text: &mut String, account: &Account) -> Result<(), AllocError> {
    let name = up_to_nul(&account.name);
    let mut columns = 0_usize;
    if let Ok(letters) = str::from_utf8(name) {
        for letter in letters.chars() {
            if columns < NAME_COLUMNS {
                text.push(letter)?;
                columns += 1;
            }
        }
    } else {
        for octet in name {
            if columns < NAME_COLUMNS {
                text.push(char::from(*octet))?;
                columns += 1;
            }
        }
    }
    for _ in columns..NAME_COLUMNS {
        text.push(' ')?;
    }
    Ok(())
}
