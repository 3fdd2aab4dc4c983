//! What is counted of a universe, rows of universes, lists and refusals, and packets that came twice.

ghost use Rattle.std.specs.Prelude.{◌≡◌, ◌++◌, OnOk, string_bytes};
ghost use Rattle.sacn_tell.specs.Rows.{column, list_row, packets_members, refused_row, silent_text, universe_columns, universe_json, universe_members, universe_row, universe_text, unlisted_text};
ghost use Rattle.sacn_monitor.specs.Streams.{state_of};
ghost use Rattle.sacn_tell.specs.Amounts.{counts_of, sending_in, with_stream};
ghost use Rattle.sacn_tell.specs.Tellings.{Tells};
ghost use Rattle.sacn_tell.specs.Twice.{twice_count, twice_in, twice_of, twice_row, twice_text, twice_told};

use crate::account_lines::{push_source, push_source_members};
use crate::fault::TellFault;
use crate::json;
use crate::listings::Listing;
use crate::numbers::{push_numbers, push_ranges};
use crate::options::{Form, Options};
use crate::refusals::fault_name;
use crate::spelling::push_left;
use crate::teller::Teller;
use sacn_monitor::{Stream, StreamState};
use sacn_packets::PacketFault;
use std::alloc::AllocError;
use std::fmt::Write as _;
use std::io::Write;

/// What the streams of one universe amount to. Each count stops at 2^64 - 1.
#[derive(Clone, Copy)]
pub struct UniverseCounts {
    pub sources: u64,
    /// Those that send at the end.
    pub sending: u64,
    /// The packets that were taken.
    pub taken: u64,
    pub skipped: u64,
    /// The packets that were discarded.
    pub discarded: u64,
}

impl UniverseCounts {
    /// The counts of a universe among these streams, at a moment.
    pub fn of(streams: &[Stream], universe: u16, moment: u64) -> Self
        ensures { result ≡ counts_of universe moment streams.now }
    {
        let mut counts = UniverseCounts {
            sources: 0,
            sending: 0,
            taken: 0,
            skipped: 0,
            discarded: 0,
        };
        for stream in streams {
            if stream.universe == universe {
                counts.add(stream, moment);
            }
        }
        counts
    }

    fn add(&mut self, stream: &Stream, moment: u64)
        ensures { self.new ≡ with_stream moment self.old stream.now }
    {
        let account = &stream.account;
        self.sources = self.sources.saturating_add(1);
        self.sending = self.sending.saturating_add(sending_in(stream, moment));
        self.taken = self.taken.saturating_add(account.kinds.total());
        self.skipped = self.skipped.saturating_add(account.skipped);
        let discarded = account.late.saturating_add(account.repeats);
        self.discarded = self.discarded.saturating_add(discarded);
    }
}

// One where the source sends.
fn sending_in(stream: &Stream, moment: u64) -> u64
    ensures { result ≡ sending_in (state_of moment stream.now) }
{
    match stream.state(moment) {
        StreamState::Sending => 1,
        StreamState::Ended | StreamState::Lost => 0,
    }
}

/// A number, right-aligned in nine places behind a space.
#[tactic(auto, unfolding(crate::specs::Rows::column), using(crate::proofs::Padding::right_is))]
pub fn push_column(text: &mut String, count: u64) -> Result<(), AllocError>
    ensures { OnOk result (string_bytes text.new ≡ string_bytes text.old ++ column count) }
{
    write!(text, " {count:>9}")
}

/// The counts of a universe.
pub fn universe_row(
    text: &mut String,
    form: Form,
    universe: u16,
    counts: &UniverseCounts,
) -> Result<(), AllocError>
    ensures { OnOk result
        (string_bytes text.new ≡ string_bytes text.old ++ universe_row form universe counts.now) }
{
    match form {
        Form::Text => universe_text(text, universe, counts),
        Form::Json => universe_json(text, universe, counts),
    }
}

#[tactic(auto, unfolding(crate::specs::Rows::universe_text))]
fn universe_text(
    text: &mut String,
    universe: u16,
    counts: &UniverseCounts,
) -> Result<(), AllocError>
    ensures { OnOk result
        (string_bytes text.new ≡ string_bytes text.old ++ universe_text universe counts.now) }
{
    push_universe(text, universe, counts)?;
    push_column(text, counts.taken)?;
    push_column(text, counts.skipped)?;
    push_column(text, counts.discarded)
}

#[tactic(auto, unfolding(crate::specs::Rows::universe_columns), using(crate::proofs::Padding::right_is))]
fn push_universe(
    text: &mut String,
    universe: u16,
    counts: &UniverseCounts,
) -> Result<(), AllocError>
    ensures { OnOk result
        (string_bytes text.new ≡ string_bytes text.old ++ universe_columns universe counts.now) }
{
    let sources = counts.sources;
    let sending = counts.sending;
    write!(text, "{universe:>8} {sources:>8} {sending:>8}")
}

#[tactic(auto, unfolding(crate::specs::Rows::universe_json))]
fn universe_json(
    text: &mut String,
    universe: u16,
    counts: &UniverseCounts,
) -> Result<(), AllocError>
    ensures { OnOk result
        (string_bytes text.new ≡ string_bytes text.old ++ universe_json universe counts.now) }
{
    json::begin_row(text, "universe")?;
    push_universe_members(text, universe, counts)?;
    push_packets_members(text, counts)?;
    text.push('}')
}

#[tactic(auto, unfolding(crate::specs::Rows::universe_members))]
fn push_universe_members(
    text: &mut String,
    universe: u16,
    counts: &UniverseCounts,
) -> Result<(), AllocError>
    ensures { OnOk result
        (string_bytes text.new ≡ string_bytes text.old ++ universe_members universe counts.now) }
{
    json::push_number(text, "universe", u64::from(universe))?;
    json::push_number(text, "sources", counts.sources)?;
    json::push_number(text, "sending", counts.sending)
}

#[tactic(auto, unfolding(crate::specs::Rows::packets_members))]
fn push_packets_members(text: &mut String, counts: &UniverseCounts) -> Result<(), AllocError>
    ensures { OnOk result
        (string_bytes text.new ≡ string_bytes text.old ++ packets_members counts.now) }
{
    json::push_number(text, "taken", counts.taken)?;
    json::push_number(text, "skipped", counts.skipped)?;
    json::push_number(text, "discarded", counts.discarded)
}

/// What a source lists, and how that differs from what was heard of it.
#[derive(Drop)]
pub struct Lists<'a> {
    pub listed: &'a [u16],
    pub silent: Vec<u16>,
    pub unlisted: Vec<u16>,
}

/// The list of a source, beside what was heard of it.
pub fn list_row(
    text: &mut String,
    form: Form,
    listing: &Listing,
    lists: &Lists<'_>,
) -> Result<(), AllocError>
    ensures { OnOk result (string_bytes text.new ≡ string_bytes text.old ++ list_row form
        listing.now lists.now.listed.now lists.now.silent.items lists.now.unlisted.items) }
{
    match form {
        Form::Text => {
            push_source(text, listing)?;
            text.push_str("  lists ")?;
            push_ranges(text, lists.listed)?;
            push_silent(text, lists.silent.as_slice())?;
            push_unlisted(text, lists.unlisted.as_slice())
        }
        Form::Json => {
            json::begin_row(text, "list")?;
            push_source_members(text, listing)?;
            push_numbers(text, "universes", lists.listed)?;
            push_numbers(text, "silent", lists.silent.as_slice())?;
            push_numbers(text, "unlisted", lists.unlisted.as_slice())?;
            text.push('}')
        }
    }
}

#[tactic(auto, unfolding(crate::specs::Rows::silent_text))]
fn push_silent(text: &mut String, silent: &[u16]) -> Result<(), AllocError>
    ensures { OnOk result
        (string_bytes text.new ≡ string_bytes text.old ++ silent_text silent.now) }
{
    text.push_str("; listed and silent: ")?;
    push_ranges(text, silent)
}

#[tactic(auto, unfolding(crate::specs::Rows::unlisted_text))]
fn push_unlisted(text: &mut String, unlisted: &[u16]) -> Result<(), AllocError>
    ensures { OnOk result
        (string_bytes text.new ≡ string_bytes text.old ++ unlisted_text unlisted.now) }
{
    text.push_str("; heard and unlisted: ")?;
    push_ranges(text, unlisted)
}

/// How many datagrams were refused for a fault.
pub fn refused_row(
    text: &mut String,
    form: Form,
    fault: PacketFault,
    count: u64,
) -> Result<(), AllocError>
    ensures { OnOk result
        (string_bytes text.new ≡ string_bytes text.old ++ refused_row form fault count) }
{
    match form {
        Form::Text => {
            push_left(text, fault_name(fault), 30)?;
            write!(text, " {count}")
        }
        Form::Json => {
            json::begin_row(text, "refused")?;
            json::push_number(text, "fault", u64::from(fault.number()))?;
            json::push_word(text, "name", fault_name(fault))?;
            json::push_number(text, "count", count)?;
            text.push('}')
        }
    }
}

/// Writes how many packets came twice, for people. Nothing is written where hardly one did: of a source on a universe
/// they count where they are at least half as many as were taken.
pub fn tell_twice<O: Write>(
    teller: &mut Teller<'_, O>,
    options: &Options<'_>,
    streams: &[Stream],
) -> Result<(), TellFault>
    ensures { OnOk result (Tells O.contents teller.old teller.new
        (twice_told teller.old.form options.now.universes.now streams.now)) }
{
    match teller.form {
        Form::Text => tell_count(teller, twice_in(options, streams)),
        Form::Json => Ok(()),
    }
}

fn tell_count<O: Write>(teller: &mut Teller<'_, O>, count: u64) -> Result<(), TellFault>
    ensures { OnOk result (Tells O.contents teller.old teller.new (twice_row count)) }
{
    if count == 0 {
        return Ok(());
    }
    push_twice(&mut teller.line, count)?;
    teller.write()
}

// The packets of these streams that came twice.
fn twice_in(options: &Options<'_>, streams: &[Stream]) -> u64
    ensures { result ≡ twice_in options.now.universes.now streams.now }
{
    let mut count = 0_u64;
    for stream in streams {
        count = count.saturating_add(twice_of(options, stream));
    }
    count
}

// Those of one stream, where it is asked for.
fn twice_of(options: &Options<'_>, stream: &Stream) -> u64
    ensures { result ≡ twice_of options.now.universes.now stream.now }
{
    let repeats = stream.account.repeats;
    let taken = stream.account.kinds.total();
    if options.is_wanted(stream.universe)
        && (taken.saturating_sub(repeats) <= repeats && repeats <= taken)
    {
        repeats
    } else {
        0
    }
}

#[tactic(auto, unfolding(crate::specs::Twice::twice_text))]
fn push_twice(text: &mut String, count: u64) -> Result<(), AllocError>
    ensures { OnOk result (string_bytes text.new ≡ string_bytes text.old ++ twice_text count) }
{
    push_count(text, count)?;
    text.push_str(
        " came twice (same source, universe and number), as where two interfaces are heard at once",
    )
}

#[tactic(auto, unfolding(crate::specs::Twice::twice_count))]
fn push_count(text: &mut String, count: u64) -> Result<(), AllocError>
    ensures { OnOk result (string_bytes text.new ≡ string_bytes text.old ++ twice_count count) }
{
    match count {
        1 => text.push_str("\n1 packet"),
        count => write!(text, "\n{count} packets"),
    }
}
