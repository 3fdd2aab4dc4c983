//! The document of a viewer, and what changed in it (docs/FILES.md tells its members).

ghost use Rattle.std.specs.Prelude.{◌≡◌, ◌++◌, ◌+◌, [], OnOk, IfOk, true, length, codes, option_copied, string_bytes};
ghost use Rattle.sacn_tell.specs.Numbers.{numbers_member};
ghost use Rattle.sacn_page.specs.AlarmTexts.{alarms_member};
ghost use Rattle.sacn_page.specs.Documents.{Tells, before_row, counts_member, counts_object, counts_of, digits_member, long_digits_member, row_object, row_of, sources_member, universe_member};
ghost use Rattle.sacn_page.specs.WholeDocuments.{document, levels_of, lit_members, lit_of, recording_member, winners_of};
ghost use Rattle.sacn_page.specs.declared.document.Extent.TheVariants.{Whole};

use crate::alarm_texts::push_alarms_member;
use crate::alarms::Alarms;
use crate::board::Board;
use crate::members::{
    marks_of, push_digits_member, push_facts, push_first_number, push_long_digits_member, push_row,
    push_universe_member,
};
use crate::scene::Facts;
use sacn_monitor::{Monitor, Stream, StreamState, Tally};
use sacn_network::LitUniverse;
use sacn_packets::SLOTS;
use sacn_tell::{push_key, push_number, push_numbers, total};
use std::alloc::{AllocError, Global};

/// A source on a universe, as a viewer sees it at a moment.
#[derive(Clone, Copy, PartialEq, Eq)]
struct Row {
    stream: Stream,
    state: StreamState,
    last_second: u64,
}

/// Counts of datagrams.
#[derive(Clone, Copy, PartialEq, Eq)]
struct Counts {
    datagrams: u64,
    refused: u64,
    pages: u64,
    untracked: u64,
}

/// What a viewer was given last.
#[derive(Drop)]
pub struct Given {
    universe: Option<u16>,
    heard: Vec<u16>,
    rows: Vec<Row>,
    levels: [u8; SLOTS],
    winners: [u16; SLOTS],
    alarms: u64,
    counts: Counts,
}

/// Which members are written.
#[derive(Clone, Copy)]
pub enum Extent {
    /// All.
    Whole,
    /// Those that aren't as they were given last.
    Changes,
}

impl Given {
    /// Nothing.
    pub fn nothing(alloc: Global) -> Self
        ensures rows { result.rows.items ≡ [] }
        ensures alarms { result.alarms ≡ 0 }
    {
        Given {
            universe: None,
            heard: Vec::new(alloc),
            rows: Vec::new(alloc),
            levels: [0; SLOTS],
            winners: [0; SLOTS],
            alarms: 0,
            counts: Counts {
                datagrams: 0,
                refused: 0,
                pages: 0,
                untracked: 0,
            },
        }
    }
}

impl Row {
    fn of(stream: &Stream, moment: u64) -> Self
        ensures { result ≡ row_of moment stream.now }
    {
        Row {
            stream: *stream,
            state: stream.state(moment),
            last_second: stream.account.rate.last_second(moment),
        }
    }
}

impl Counts {
    fn of(tally: &Tally) -> Self
        ensures { result ≡ counts_of tally.now }
    {
        Counts {
            datagrams: tally.datagrams,
            refused: total(&tally.refused),
            pages: tally.pages,
            untracked: tally.untracked,
        }
    }
}

/// Writes the document of a viewer that names this universe, or none, and notes what was given; of a recording with what is known of
/// it. Returns whether any member but the moment was written. Clause `whole` says what a viewer is given that was given nothing.
///
/// Errors: a growth was refused; the text and what was given then are of no use.
pub fn push_document(
    text: &mut String,
    facts: Option<&Facts>,
    board: &Board,
    named: Option<u16>,
    given: &mut Given,
    extent: Extent,
) -> Result<bool, AllocError>
    ensures whole { length given.old.rows.items ≡ 0 → given.old.alarms ≡ 0 → extent ≡ Whole
        → OnOk result (string_bytes text.new
        ≡ string_bytes text.old ++ document (option_copied facts.entry) board.now named) }
{
    let monitor = board.monitor();
    let moment = monitor.moment();
    let streams = monitor.streams();
    let universe = board.chosen_universe(named);
    push_first_number(text, "ms", moment)?;
    push_recording(text, facts)?;
    let start = text.len();
    push_universe(text, universe, &mut given.universe, extent)?;
    let heard = board.universes_heard()?;
    push_heard(text, heard.as_slice(), &mut given.heard, extent)?;
    push_rows(text, streams, moment, &mut given.rows, extent)?;
    push_lit(text, find_lit(board, universe), monitor, given, extent)?;
    push_alarms(text, streams, board.alarms(), &mut given.alarms, extent)?;
    let counts = Counts::of(monitor.tally());
    push_counts(text, &counts, &mut given.counts, extent)?;
    let is_more = text.len() > start;
    text.push('}')?;
    Ok(is_more)
}

// What is known of a recording, where it is one.
fn push_recording(text: &mut String, facts: Option<&Facts>) -> Result<(), AllocError>
    ensures { OnOk result (string_bytes text.new
        ≡ string_bytes text.old ++ recording_member (option_copied facts.entry)) }
{
    let Some(facts) = facts else {
        return Ok(());
    };
    push_key(text, "recording")?;
    push_facts(text, facts)
}

fn push_universe(
    text: &mut String,
    universe: Option<u16>,
    given: &mut Option<u16>,
    extent: Extent,
) -> Result<(), AllocError>
    ensures told { OnOk result (Tells extent given.old universe
        (universe_member universe) (string_bytes text.old) (string_bytes text.new)) }
    ensures given { OnOk result (given.new ≡ universe) }
{
    if (extent == Extent::Changes) & (*given == universe) {
        return Ok(());
    }
    *given = universe;
    push_universe_member(text, universe)
}

fn push_heard(
    text: &mut String,
    heard: &[u16],
    given: &mut Vec<u16>,
    extent: Extent,
) -> Result<(), AllocError>
    ensures told { OnOk result (Tells extent given.old.items heard.now
        (numbers_member (codes "heard") heard.now) (string_bytes text.old) (string_bytes text.new)) }
    ensures given { OnOk result (given.new.items ≡ heard.now) }
{
    if (extent == Extent::Changes) & (given.as_slice() == heard) {
        return Ok(());
    }
    given.clear();
    given.extend_from_slice(heard)?;
    push_numbers(text, "heard", heard)
}

// The rows that aren't as they were given: all where none was.
fn push_rows(
    text: &mut String,
    streams: &[Stream],
    moment: u64,
    given: &mut Vec<Row>,
    extent: Extent,
) -> Result<(), AllocError>
    ensures first { length given.old.items ≡ 0 → extent ≡ Whole → OnOk result
        (string_bytes text.new ≡ string_bytes text.old ++ sources_member moment streams.now) }
{
    let mut is_first = true;
    for place in 0..streams.len() {
        let stream = &streams[place];
        if note_row(given, place, Row::of(stream, moment))? {
            push_listed(text, is_first, moment, place, stream)?;
            is_first = false;
        }
    }
    if !is_first {
        return text.push(']');
    }
    if extent == Extent::Whole {
        return push_no_row(text);
    }
    Ok(())
}

// Notes a row at a place, and returns whether it is another one.
fn note_row(rows: &mut Vec<Row>, place: usize, row: Row) -> Result<bool, AllocError>
    ensures new { IfOk result (λ is_other. length rows.old.items ≡ place
        → (is_other ≡ true) × (length rows.new.items ≡ place + 1)) }
{
    match rows.get_mut(place) {
        Some(given) if *given == row => Ok(false),
        Some(given) => {
            *given = row;
            Ok(true)
        }
        None => {
            rows.push(row)?;
            Ok(true)
        }
    }
}

// The first source that is written, or one behind others.
fn push_listed(
    text: &mut String,
    is_first: bool,
    moment: u64,
    place: usize,
    stream: &Stream,
) -> Result<(), AllocError>
    ensures { OnOk result (string_bytes text.new
        ≡ string_bytes text.old ++ (before_row is_first ++ row_object moment place stream.now)) }
{
    text.push_str(if is_first { ",\"sources\":[" } else { "," })?;
    push_row(text, moment, place, stream)
}

fn push_no_row(text: &mut String) -> Result<(), AllocError>
    ensures { OnOk result
        (string_bytes text.new ≡ string_bytes text.old ++ codes ",\"sources\":[]") }
{
    text.push_str(",\"sources\":[]")
}

// A universe as it is merged, where there is one that is.
fn find_lit(board: &Board, universe: Option<u16>) -> Option<&LitUniverse>
    ensures { option_copied result ≡ lit_of board.now.lit.items universe }
{
    match universe {
        Some(universe) => board.find_lit(universe),
        None => None,
    }
}

// The levels of a universe, all 0 where it isn't merged.
fn levels_of(lit: Option<&LitUniverse>) -> [u8; SLOTS]
    ensures { result ≡ levels_of (option_copied lit.entry) }
{
    match lit {
        Some(lit) => *lit.levels(),
        None => [0; SLOTS],
    }
}

// Who gives them, as marks of a monitor's streams.
fn winners_of(lit: Option<&LitUniverse>, monitor: &Monitor) -> [u16; SLOTS]
    ensures { result ≡ winners_of monitor.now.streams (option_copied lit.entry) }
{
    match lit {
        Some(lit) => marks_of(&lit.places(monitor)),
        None => [0; SLOTS],
    }
}

// The levels of the universe that is shown, and who gives them.
#[tactic(auto, unfolding(crate::specs::WholeDocuments::lit_members))]
fn push_lit(
    text: &mut String,
    lit: Option<&LitUniverse>,
    monitor: &Monitor,
    given: &mut Given,
    extent: Extent,
) -> Result<(), AllocError>
    ensures whole { extent ≡ Whole → OnOk result (string_bytes text.new
        ≡ string_bytes text.old ++ lit_members monitor.now.streams (option_copied lit.entry)) }
    ensures alarms { given.new.alarms ≡ given.old.alarms }
{
    push_levels(text, &levels_of(lit), &mut given.levels, extent)?;
    push_winners(text, &winners_of(lit, monitor), &mut given.winners, extent)
}

fn push_levels(
    text: &mut String,
    levels: &[u8; SLOTS],
    given: &mut [u8; SLOTS],
    extent: Extent,
) -> Result<(), AllocError>
    ensures told { OnOk result (Tells extent given.old levels.now
        (digits_member (codes "levels") levels.now) (string_bytes text.old) (string_bytes text.new)) }
    ensures given { OnOk result (given.new ≡ levels.now) }
{
    if (extent == Extent::Changes) & (*given == *levels) {
        return Ok(());
    }
    *given = *levels;
    push_digits_member(text, "levels", levels)
}

fn push_winners(
    text: &mut String,
    winners: &[u16; SLOTS],
    given: &mut [u16; SLOTS],
    extent: Extent,
) -> Result<(), AllocError>
    ensures told { OnOk result (Tells extent given.old winners.now
        (long_digits_member (codes "winners") winners.now) (string_bytes text.old) (string_bytes text.new)) }
    ensures given { OnOk result (given.new ≡ winners.now) }
{
    if (extent == Extent::Changes) & (*given == *winners) {
        return Ok(());
    }
    *given = *winners;
    push_long_digits_member(text, "winners", winners)
}

fn push_alarms(
    text: &mut String,
    streams: &[Stream],
    alarms: &Alarms,
    given: &mut u64,
    extent: Extent,
) -> Result<(), AllocError>
    ensures told { OnOk result (Tells extent given.old alarms.now.count
        (alarms_member given.old streams.now alarms.now) (string_bytes text.old) (string_bytes text.new)) }
    ensures given { OnOk result (given.new ≡ alarms.now.count) }
{
    if (extent == Extent::Changes) & (*given == alarms.count()) {
        return Ok(());
    }
    let before = *given;
    *given = alarms.count();
    push_alarms_member(text, before, streams, alarms)
}

fn push_counts(
    text: &mut String,
    counts: &Counts,
    given: &mut Counts,
    extent: Extent,
) -> Result<(), AllocError>
    ensures told { OnOk result (Tells extent given.old counts.now
        (counts_member counts.now) (string_bytes text.old) (string_bytes text.new)) }
    ensures given { OnOk result (given.new ≡ counts.now) }
{
    if (extent == Extent::Changes) & (*given == *counts) {
        return Ok(());
    }
    *given = *counts;
    push_counts_member(text, counts)
}

#[tactic(auto, unfolding(crate::specs::Documents::counts_member))]
fn push_counts_member(text: &mut String, counts: &Counts) -> Result<(), AllocError>
    ensures { OnOk result
        (string_bytes text.new ≡ string_bytes text.old ++ counts_member counts.now) }
{
    push_key(text, "counts")?;
    push_counts_object(text, counts)
}

#[tactic(auto, unfolding(crate::specs::Documents::counts_object))]
fn push_counts_object(text: &mut String, counts: &Counts) -> Result<(), AllocError>
    ensures { OnOk result
        (string_bytes text.new ≡ string_bytes text.old ++ counts_object counts.now) }
{
    push_first_number(text, "datagrams", counts.datagrams)?;
    push_number(text, "refused", counts.refused)?;
    push_number(text, "pages", counts.pages)?;
    push_number(text, "untracked", counts.untracked)?;
    text.push('}')
}
