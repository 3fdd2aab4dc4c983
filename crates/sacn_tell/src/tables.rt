//! Tables at the end.

ghost use Rattle.std.specs.Prelude.{◌≡◌, ◌<◌, ◌==◌, OnOk, IfOk, is_some, length};
ghost use Rattle.std.specs.List.{list_any};
ghost use Rattle.sacn_tell.specs.Lists.{silent, unlisted};
ghost use Rattle.sacn_tell.specs.Totals.{counts_row};
ghost use Rattle.sacn_tell.specs.Tellings.{Tells, with_line_end};
ghost use Rattle.sacn_tell.specs.Tables.{faults_told, has_refusals, head_told, head_where, is_told, list_told, lists_told, place_told, refused_for, refused_told, refusals_told, stream_told, streams_told, tables_told, universe_at, universe_told, universes_told, unread_rows, unread_told};

use crate::fault::TellFault;
use crate::listed::{silent_universes, unlisted_universes};
use crate::listings::{Listing, Listings};
use crate::options::{Form, Options};
use crate::report::{Report, counts_row, has_unread, unread_text};
use crate::stream_rows::stream_row;
use crate::table_rows::{Lists, UniverseCounts, list_row, refused_row, tell_twice, universe_row};
use crate::teller::Teller;
use sacn_capture::FrameCounts;
use sacn_monitor::{Monitor, Stream, Tally};
use sacn_packets::PacketFault;
use std::alloc::{AllocError, Global};
use std::io::Write;

const STREAM_HEAD: &str =
    "\nuniverse state    priority      first       last     taken   preview     other   skipped      late  repeated   gap ms  source";

const UNIVERSE_HEAD: &str = "\nuniverse  sources  sending     taken   skipped discarded";

const LIST_HEAD: &str = "\nlists of universes";

const REFUSED_HEAD: &str = "\nrefused by fault";

/// The faults of datagrams, by number.
const FAULTS: [PacketFault; 18] = [
    PacketFault::TooShort,
    PacketFault::Preamble,
    PacketFault::Postamble,
    PacketFault::Identifier,
    PacketFault::Flags,
    PacketFault::Length,
    PacketFault::RootVector,
    PacketFault::FramingVector,
    PacketFault::DmpVector,
    PacketFault::AddressType,
    PacketFault::FirstAddress,
    PacketFault::Increment,
    PacketFault::ValueCount,
    PacketFault::Priority,
    PacketFault::Universe,
    PacketFault::DiscoveryVector,
    PacketFault::PageRange,
    PacketFault::TooManyUniverses,
];

/// Writes what of a recording couldn't be read, how many packets came twice, the rows of the sources, of the universes, of the lists and refusals, and of all counts.
pub fn tell<O: Write>(
    teller: &mut Teller<'_, O>,
    options: &Options<'_>,
    monitor: &Monitor,
    listings: &Listings,
    report: &Report,
) -> Result<(), TellFault>
    ensures { OnOk result (Tells O.contents teller.old teller.new (tables_told teller.old.form
        options.now.universes.now monitor.now.streams listings.now.known.items report.now)) }
{
    let alloc = listings.alloc();
    tell_tables(
        alloc,
        teller,
        options,
        monitor.streams(),
        listings.listings(),
        report,
    )
}

fn tell_tables<O: Write>(
    alloc: Global,
    teller: &mut Teller<'_, O>,
    options: &Options<'_>,
    streams: &[Stream],
    listings: &[Listing],
    report: &Report,
) -> Result<(), TellFault>
    ensures { OnOk result (Tells O.contents teller.old teller.new (tables_told teller.old.form
        options.now.universes.now streams.now listings.now report.now)) }
{
    tell_unread(teller, &report.frames)?;
    tell_twice(teller, options, streams)?;
    tell_streams(teller, options, streams, report.length)?;
    tell_universes(teller, options, streams, report.length)?;
    tell_listings(alloc, teller, streams, listings)?;
    tell_refused(teller, &report.tally)?;
    tell_counts(teller, report)
}

// What of a recording couldn't be read, for people.
fn tell_unread<O: Write>(teller: &mut Teller<'_, O>, frames: &FrameCounts) -> Result<(), TellFault>
    ensures { OnOk result
        (Tells O.contents teller.old teller.new (unread_told teller.old.form frames.now)) }
{
    match teller.form {
        Form::Text => tell_unread_rows(teller, frames),
        Form::Json => Ok(()),
    }
}

fn tell_unread_rows<O: Write>(
    teller: &mut Teller<'_, O>,
    frames: &FrameCounts,
) -> Result<(), TellFault>
    ensures { OnOk result (Tells O.contents teller.old teller.new (unread_rows frames.now)) }
{
    if !has_unread(frames) {
        return Ok(());
    }
    unread_text(&mut teller.line, frames)?;
    teller.write()
}

// The head of a table, for people.
fn begin_table<O: Write>(teller: &mut Teller<'_, O>, head: &str) -> Result<(), TellFault>
    ensures { OnOk result
        (Tells O.contents teller.old teller.new (head_told teller.old.form head.now)) }
{
    match teller.form {
        Form::Text => {
            teller.line.push_str(head)?;
            teller.write()
        }
        Form::Json => Ok(()),
    }
}

// The head of a table that has rows.
fn begin_where<O: Write>(
    teller: &mut Teller<'_, O>,
    has_rows: bool,
    head: &str,
) -> Result<(), TellFault>
    ensures { OnOk result
        (Tells O.contents teller.old teller.new (head_where has_rows teller.old.form head.now)) }
{
    if !has_rows {
        return Ok(());
    }
    begin_table(teller, head)
}

fn tell_streams<O: Write>(
    teller: &mut Teller<'_, O>,
    options: &Options<'_>,
    streams: &[Stream],
    moment: u64,
) -> Result<(), TellFault>
    ensures { OnOk result (Tells O.contents teller.old teller.new
        (streams_told teller.old.form options.now.universes.now moment streams.now)) }
{
    begin_table(teller, STREAM_HEAD)?;
    for stream in streams {
        tell_stream(teller, options, stream, moment)?;
    }
    Ok(())
}

// The row of a source on a universe, where that is asked for.
fn tell_stream<O: Write>(
    teller: &mut Teller<'_, O>,
    options: &Options<'_>,
    stream: &Stream,
    moment: u64,
) -> Result<(), TellFault>
    ensures { OnOk result (Tells O.contents teller.old teller.new
        (stream_told teller.old.form options.now.universes.now moment stream.now)) }
{
    if !options.is_wanted(stream.universe) {
        return Ok(());
    }
    stream_row(&mut teller.line, teller.form, moment, stream)?;
    teller.write()
}

fn tell_universes<O: Write>(
    teller: &mut Teller<'_, O>,
    options: &Options<'_>,
    streams: &[Stream],
    moment: u64,
) -> Result<(), TellFault>
    ensures { OnOk result (Tells O.contents teller.old teller.new
        (universes_told teller.old.form options.now.universes.now moment streams.now)) }
{
    begin_table(teller, UNIVERSE_HEAD)?;
    for place in 0..streams.len() {
        tell_place(teller, options, streams, place, moment)?;
    }
    Ok(())
}

// Whether one of these streams is of the universe.
fn is_among(streams: &[Stream], universe: u16) -> bool
    ensures { result ≡ list_any (λ s. s.universe == universe) streams.now }
{
    streams.iter().any(|stream| stream.universe == universe)
}

fn universe_at(streams: &[Stream], place: usize) -> u16
    requires { place < length streams.now }
    ensures { result ≡ universe_at streams.now place }
{
    streams[place].universe
}

// Whether a stream before is of the same universe.
fn is_told(streams: &[Stream], place: usize) -> bool
    requires { place < length streams.now }
    ensures { result ≡ is_told streams.now place }
{
    is_among(&streams[..place], universe_at(streams, place))
}

// The row of the universe of a stream, where no stream before is of it.
fn tell_place<O: Write>(
    teller: &mut Teller<'_, O>,
    options: &Options<'_>,
    streams: &[Stream],
    place: usize,
    moment: u64,
) -> Result<(), TellFault>
    requires { place < length streams.now }
    ensures { OnOk result (Tells O.contents teller.old teller.new
        (place_told teller.old.form options.now.universes.now moment streams.now place)) }
{
    if is_told(streams, place) {
        return Ok(());
    }
    let universe = universe_at(streams, place);
    tell_universe(teller, options, universe, streams, moment)
}

// The row of a universe, where it is asked for.
fn tell_universe<O: Write>(
    teller: &mut Teller<'_, O>,
    options: &Options<'_>,
    universe: u16,
    streams: &[Stream],
    moment: u64,
) -> Result<(), TellFault>
    ensures { OnOk result (Tells O.contents teller.old teller.new
        (universe_told teller.old.form options.now.universes.now moment streams.now universe)) }
{
    if !options.is_wanted(universe) {
        return Ok(());
    }
    let counts = UniverseCounts::of(streams, universe, moment);
    universe_row(&mut teller.line, teller.form, universe, &counts)?;
    teller.write()
}

/// Writes the lists of the sources that list universes, each beside what was heard of it.
pub fn tell_listings<O: Write>(
    alloc: Global,
    teller: &mut Teller<'_, O>,
    streams: &[Stream],
    listings: &[Listing],
) -> Result<(), TellFault>
    ensures { OnOk result (Tells O.contents teller.old teller.new
        (lists_told teller.old.form streams.now listings.now)) }
{
    begin_where(teller, has_lists(listings), LIST_HEAD)?;
    for listing in listings {
        tell_list(alloc, teller, streams, listing)?;
    }
    Ok(())
}

// Whether a list came whole.
fn has_lists(listings: &[Listing]) -> bool
    ensures { result ≡ list_any (λ l. is_some l.universes) listings.now }
{
    listings.iter().any(|listing| listing.universes.is_some())
}

// The row of a source of which a list came whole.
fn tell_list<O: Write>(
    alloc: Global,
    teller: &mut Teller<'_, O>,
    streams: &[Stream],
    listing: &Listing,
) -> Result<(), TellFault>
    ensures { OnOk result (Tells O.contents teller.old teller.new
        (list_told teller.old.form streams.now listing.now)) }
{
    let Some(universes) = &listing.universes else {
        return Ok(());
    };
    let lists = lists_of(alloc, streams, &listing.cid, universes.as_slice())?;
    list_row(&mut teller.line, teller.form, listing, &lists)?;
    teller.write()
}

// What a source lists, beside what was heard of it.
fn lists_of<'a>(
    alloc: Global,
    streams: &[Stream],
    cid: &[u8; 16],
    listed: &'a [u16],
) -> Result<Lists<'a>, AllocError>
    ensures listed { IfOk result (λ lists. lists.listed.now ≡ listed.now) }
    ensures silent { IfOk result
        (λ lists. lists.silent.items ≡ silent streams.now cid.now listed.now) }
    ensures unlisted { IfOk result
        (λ lists. lists.unlisted.items ≡ unlisted streams.now cid.now listed.now) }
{
    let silent = silent_universes(alloc, streams, cid, listed)?;
    let unlisted = unlisted_universes(alloc, streams, cid, listed)?;
    Ok(Lists {
        listed,
        silent,
        unlisted,
    })
}

/// Writes how many datagrams were refused for each fault.
pub fn tell_refused<O: Write>(teller: &mut Teller<'_, O>, tally: &Tally) -> Result<(), TellFault>
    ensures { OnOk result
        (Tells O.contents teller.old teller.new (refusals_told teller.old.form tally.now)) }
{
    tell_faults(teller, tally, &FAULTS)
}

fn tell_faults<O: Write>(
    teller: &mut Teller<'_, O>,
    tally: &Tally,
    faults: &[PacketFault],
) -> Result<(), TellFault>
    ensures { OnOk result (Tells O.contents teller.old teller.new
        (faults_told teller.old.form tally.now faults.now)) }
{
    begin_where(teller, has_refusals(tally, faults), REFUSED_HEAD)?;
    for fault in faults {
        tell_fault(teller, *fault, refused_for(tally, *fault))?;
    }
    Ok(())
}

// Whether datagrams were refused for one of these faults.
fn has_refusals(tally: &Tally, faults: &[PacketFault]) -> bool
    ensures { result ≡ has_refusals tally.now faults.now }
{
    faults.iter().any(|fault| refused_for(tally, *fault) > 0)
}

// The datagrams that were refused for a fault.
fn refused_for(tally: &Tally, fault: PacketFault) -> u64
    ensures { result ≡ refused_for tally.now fault }
{
    match tally.refused.get(usize::from(fault.number())) {
        Some(count) => *count,
        None => 0,
    }
}

// The row of a fault for which datagrams were refused.
fn tell_fault<O: Write>(
    teller: &mut Teller<'_, O>,
    fault: PacketFault,
    count: u64,
) -> Result<(), TellFault>
    ensures { OnOk result
        (Tells O.contents teller.old teller.new (refused_told teller.old.form fault count)) }
{
    if count == 0 {
        return Ok(());
    }
    refused_row(&mut teller.line, teller.form, fault, count)?;
    teller.write()
}

fn tell_counts<O: Write>(teller: &mut Teller<'_, O>, report: &Report) -> Result<(), TellFault>
    ensures { OnOk result
        (Tells O.contents teller.old teller.new (with_line_end (counts_row teller.old.form report.now))) }
{
    counts_row(&mut teller.line, teller.form, report)?;
    teller.write()
}
