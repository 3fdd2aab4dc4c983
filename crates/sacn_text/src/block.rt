//! The texts of the packets.

ghost use Rattle.std.specs.Prelude.{◌≡◌, ◌/◌, ◌%◌, IfOk, string_bytes, codes};
ghost use Rattle.std.specs.Option.{option_map};
ghost use Rattle.sacn_text.specs.Blocks.{top_text, data_rest, counts_words, options_words, place_words, values_words, data_values, data_place, data_options, data_block, page_block, page_rest, page_places, known_words, name_text};

use crate::printed_names::{escaped, join, list_text, yes_or_no};
use sacn_packets::{DataView, PageView, multicast_group};
use std::alloc::{AllocError, Global};
use uuid::Uuid;

// The lines of both kinds up to the name: the kind and the CID.
fn top(alloc: Global, kind: &str, cid: [u8; 16]) -> Result<String, AllocError>
    ensures { IfOk result (λ text. string_bytes text ≡ top_text kind.now cid) }
{
    let mut buffer = Uuid::encode_buffer();
    let id = Uuid::from_bytes(cid);
    let digits = id.hyphenated().encode_lower(&mut buffer);
    format!(in alloc; "{kind}\ncid {digits}\nname ")
}

// The two octets of a multicast group that are the universe's.
fn group_high(universe: u16) -> u8
    ensures { result ≡ universe / 256 }
{
    multicast_group(universe)[2]
}

fn group_low(universe: u16) -> u8
    ensures { result ≡ universe % 256 }
{
    multicast_group(universe)[3]
}

// The lines that follow the name, a few at a time: a text of many parts proves slowly.
fn counts(alloc: Global, priority: u8, number: u8) -> Result<String, AllocError>
    ensures { IfOk result (λ text. string_bytes text ≡ counts_words priority number) }
{
    format!(in alloc; "\npriority {priority}\nnumber {number}")
}

fn options(alloc: Global, preview: &str, terminated: &str) -> Result<String, AllocError>
    ensures { IfOk result (λ text. string_bytes text ≡ options_words preview.now terminated.now) }
{
    format!(in alloc; "\npreview {preview}\nterminated {terminated}")
}

fn place(alloc: Global, universe: u16, high: u8, low: u8) -> Result<String, AllocError>
    ensures { IfOk result (λ text. string_bytes text ≡ place_words universe high low) }
{
    format!(in alloc; "\nuniverse {universe}\ngroup 239.255.{high}.{low}")
}

fn values(alloc: Global, start: u8, slots: usize, digits: &str) -> Result<String, AllocError>
    ensures { IfOk result (λ text. string_bytes text ≡ values_words start slots digits.now) }
{
    format!(in alloc; "\nstart {start}\nslots {slots}\nframe {digits}\n")
}

fn data_values(alloc: Global, packet: &DataView<'_>) -> Result<String, AllocError>
    ensures { IfOk result (λ text. string_bytes text ≡ data_values packet.now) }
{
    let mut frame = [0; 513];
    packet.frame_into(&mut frame);
    let digits = hex::encode(alloc, frame.as_slice())?;
    let slots = packet.slots();
    values(alloc, packet.start(), slots.len(), digits.as_str())
}

fn data_place(alloc: Global, packet: &DataView<'_>) -> Result<String, AllocError>
    ensures { IfOk result (λ text. string_bytes text ≡ data_place packet.now) }
{
    let universe = packet.universe();
    place(alloc, universe, group_high(universe), group_low(universe))
}

fn data_options(alloc: Global, packet: &DataView<'_>) -> Result<String, AllocError>
    ensures { IfOk result (λ text. string_bytes text ≡ data_options packet.now) }
{
    options(
        alloc,
        yes_or_no(packet.preview()),
        yes_or_no(packet.terminated()),
    )
}

// All lines after the name.
fn data_rest(alloc: Global, packet: &DataView<'_>) -> Result<Vec<u8>, AllocError>
    ensures { IfOk result (λ text. text.items ≡ data_rest packet.now) }
{
    let counts = counts(alloc, packet.priority(), packet.number())?;
    let options = data_options(alloc, packet)?;
    let place = data_place(alloc, packet)?;
    let values = data_values(alloc, packet)?;
    let front = join(
        alloc,
        counts.as_bytes(),
        options.as_bytes(),
        place.as_bytes(),
    )?;
    join(alloc, front.as_slice(), values.as_bytes(), b"")
}

/// The lines of a data packet.
pub fn data_block(alloc: Global, packet: &DataView<'_>) -> Result<Vec<u8>, AllocError>
    ensures { IfOk result (λ text. text.items ≡ data_block packet.now) }
{
    let top = top(alloc, "data", packet.cid())?;
    let name = escaped(alloc, packet.name())?;
    let rest = data_rest(alloc, packet)?;
    join(alloc, top.as_bytes(), name.as_slice(), rest.as_slice())
}

fn page_top(alloc: Global, page: &PageView<'_>) -> Result<String, AllocError>
    ensures { IfOk result (λ text. string_bytes text ≡ page_places page.now) }
{
    let number = page.page();
    let last = page.last();
    format!(in alloc; "\npage {number}\nlast {last}\nuniverses")
}

// The universe numbers of a page, as they came.
fn numbers_of(alloc: Global, page: &PageView<'_>) -> Result<Vec<u16>, AllocError>
    ensures { IfOk result (λ numbers. numbers.items ≡ page.now.numbers) }
{
    let mut numbers = Vec::with_capacity(alloc, page.count())?;
    for i in 0..page.count() {
        numbers.push(page.number(i))?;
    }
    Ok(numbers)
}

// What is known of a source: a list, or that a page is lacking.
fn known_words(alloc: Global, known: Option<Vec<u16>>) -> Result<Vec<u8>, AllocError>
    ensures { IfOk result (λ text. text.items ≡ known_words (option_map (λ v. v.items) known)) }
{
    match known {
        Some(list) => list_text(alloc, list.as_slice()),
        None => Vec::from_slice(alloc, b" incomplete"),
    }
}

// All lines after the name.
fn page_rest(
    alloc: Global,
    page: &PageView<'_>,
    known: Option<Vec<u16>>,
) -> Result<Vec<u8>, AllocError>
    ensures { IfOk result
        (λ text. text.items ≡ page_rest page.now (option_map (λ v. v.items) known)) }
{
    let top = page_top(alloc, page)?;
    let numbers = numbers_of(alloc, page)?;
    let universes = list_text(alloc, numbers.as_slice())?;
    let words = known_words(alloc, known)?;
    let front = join(alloc, top.as_bytes(), universes.as_slice(), b"\nknown")?;
    join(alloc, front.as_slice(), words.as_slice(), b"\n")
}

/// The lines of a page, with the list that is known.
pub fn page_block(
    alloc: Global,
    page: &PageView<'_>,
    known: Option<Vec<u16>>,
) -> Result<Vec<u8>, AllocError>
    ensures { IfOk result
        (λ text. text.items ≡ page_block page.now (option_map (λ v. v.items) known)) }
{
    let top = top(alloc, "page", page.cid())?;
    let name = escaped(alloc, page.name())?;
    let rest = page_rest(alloc, page, known)?;
    join(alloc, top.as_bytes(), name.as_slice(), rest.as_slice())
}
