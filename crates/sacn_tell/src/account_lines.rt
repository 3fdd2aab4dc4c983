//! Lines of universes, lists and frames.

ghost use Rattle.std.specs.Prelude.{◌≡◌, ◌++◌, OnOk, string_bytes};
ghost use Rattle.sacn_tell.specs.Causes.{reason_of};
ghost use Rattle.sacn_tell.specs.Lines.{frame_line, kept_list, list_words, listed_member, listed_ranges, listing_line, port_text, rivals_key, rivals_line, rivals_words, slot_digits, slots_member, stop_line};
ghost use Rattle.sacn_tell.specs.Members.{source_members};
ghost use Rattle.sacn_tell.specs.Sentences.{source_text};

use crate::cause::{Cause, push_cause, push_cause_members};
use crate::listings::Listing;
use crate::numbers::{push_numbers, push_ranges};
use crate::options::Form;
use crate::spelling::push_digits;
use crate::{event_words, json};
use sacn_node::PortFrame;
use std::alloc::AllocError;
use std::fmt::Write;

/// How many sources send at the top priority of a universe, where that is contested or no longer so.
pub fn rivals_line(
    text: &mut String,
    form: Form,
    now: u64,
    universe: u16,
    sources: usize,
    priority: u8,
) -> Result<(), AllocError>
    ensures { OnOk result (string_bytes text.new
        ≡ string_bytes text.old ++ rivals_line form now universe sources priority) }
{
    let sources = sources as u64;
    match form {
        Form::Text => {
            event_words::begin(text, now)?;
            event_words::push_universe(text, universe)?;
            push_rivals(text, sources, priority)
        }
        Form::Json => {
            json::begin(text, now, rivals_key(sources))?;
            json::push_number(text, "universe", u64::from(universe))?;
            json::push_number(text, "sources", sources)?;
            json::push_number(text, "priority", u64::from(priority))?;
            text.push('}')
        }
    }
}

fn rivals_key(sources: u64) -> &'static str
    ensures { result.now ≡ rivals_key sources }
{
    if sources >= 2 { "rivals" } else { "no_rivals" }
}

#[tactic(auto, unfolding(crate::specs::Lines::rivals_words))]
fn push_rivals(text: &mut String, sources: u64, priority: u8) -> Result<(), AllocError>
    ensures { OnOk result
        (string_bytes text.new ≡ string_bytes text.old ++ rivals_words sources priority) }
{
    match sources {
        0 => text.push_str("no source lights it any longer"),
        1 => write!(
            text,
            "one source alone sends at the top priority, {priority}"
        ),
        _ => write!(
            text,
            "{sources} sources send at the top priority, {priority}"
        ),
    }
}

/// A stop of this program, of so many milliseconds.
pub fn stop_line(text: &mut String, form: Form, now: u64, millis: u64) -> Result<(), AllocError>
    ensures { OnOk result
        (string_bytes text.new ≡ string_bytes text.old ++ stop_line form now millis) }
{
    match form {
        Form::Text => {
            event_words::begin(text, now)?;
            event_words::push_stop(text, millis)
        }
        Form::Json => {
            json::begin(text, now, "stopped")?;
            json::push_number(text, "for", millis)?;
            text.push('}')
        }
    }
}

/// A source's list of universes, which is another one than before.
pub fn listing_line(
    text: &mut String,
    form: Form,
    now: u64,
    event: &str,
    listing: &Listing,
) -> Result<(), AllocError>
    ensures { OnOk result (string_bytes text.new
        ≡ string_bytes text.old ++ listing_line form now event.now (kept_list listing.now)) }
{
    match form {
        Form::Text => {
            event_words::begin(text, now)?;
            push_source(text, listing)?;
            push_list_word(text, event)?;
            push_listed(text, listing)
        }
        Form::Json => {
            json::begin(text, now, event)?;
            push_source_members(text, listing)?;
            push_listed_member(text, listing)?;
            text.push('}')
        }
    }
}

#[tactic(auto, unfolding(crate::specs::Lines::list_words))]
fn push_list_word(text: &mut String, event: &str) -> Result<(), AllocError>
    ensures { OnOk result (string_bytes text.new ≡ string_bytes text.old ++ list_words event.now) }
{
    if event == "lists" {
        return text.push_str("  lists universes ");
    }
    text.push_str("  lists other universes than before: ")
}

/// A source: its CID and name.
pub fn push_source(text: &mut String, listing: &Listing) -> Result<(), AllocError>
    ensures { OnOk result (string_bytes text.new
        ≡ string_bytes text.old ++ source_text listing.now.cid listing.now.name.items) }
{
    event_words::push_source(text, &listing.cid, listing.name.as_slice())
}

/// The same as members of an object.
pub fn push_source_members(text: &mut String, listing: &Listing) -> Result<(), AllocError>
    ensures { OnOk result (string_bytes text.new
        ≡ string_bytes text.old ++ source_members listing.now.cid listing.now.name.items) }
{
    json::push_source(text, &listing.cid, listing.name.as_slice())
}

fn push_listed(text: &mut String, listing: &Listing) -> Result<(), AllocError>
    ensures { OnOk result (string_bytes text.new
        ≡ string_bytes text.old ++ listed_ranges (kept_list listing.now).universes) }
{
    match &listing.universes {
        Some(universes) => push_ranges(text, universes.as_slice()),
        None => Ok(()),
    }
}

fn push_listed_member(text: &mut String, listing: &Listing) -> Result<(), AllocError>
    ensures { OnOk result (string_bytes text.new
        ≡ string_bytes text.old ++ listed_member (kept_list listing.now).universes) }
{
    match &listing.universes {
        Some(universes) => push_numbers(text, "universes", universes.as_slice()),
        None => Ok(()),
    }
}

/// Why a frame of a port is another one; as JSON with its slots. As text its line follows, as a node writes it.
pub fn frame_line(
    text: &mut String,
    form: Form,
    now: u64,
    port: &PortFrame,
    cause: &Cause<'_>,
) -> Result<(), AllocError>
    ensures { OnOk result (string_bytes text.new
        ≡ string_bytes text.old ++ frame_line form now port.now (reason_of cause.now)) }
{
    let number = port.port;
    match form {
        Form::Text => {
            event_words::begin(text, now)?;
            push_port(text, number)?;
            push_cause(text, cause)
        }
        Form::Json => {
            json::begin(text, now, "frame")?;
            json::push_number(text, "port", u64::from(number))?;
            push_cause_members(text, cause)?;
            push_slots_member(text, port)?;
            text.push('}')
        }
    }
}

#[tactic(auto, unfolding(crate::specs::Lines::port_text), using(crate::proofs::Padding::right_is))]
fn push_port(text: &mut String, port: u8) -> Result<(), AllocError>
    ensures { OnOk result (string_bytes text.new ≡ string_bytes text.old ++ port_text port) }
{
    write!(text, "port {port:>9}  ")
}

#[tactic(auto, unfolding(crate::specs::Lines::slots_member))]
fn push_slots_member(text: &mut String, port: &PortFrame) -> Result<(), AllocError>
    ensures { OnOk result
        (string_bytes text.new ≡ string_bytes text.old ++ slots_member port.now.last) }
{
    json::push_key(text, "slots")?;
    text.push('"')?;
    push_slots(text, port)?;
    text.push('"')
}

// The digits of a frame's slots, two for each.
fn push_slots(text: &mut String, port: &PortFrame) -> Result<(), AllocError>
    ensures { OnOk result
        (string_bytes text.new ≡ string_bytes text.old ++ slot_digits port.now.last) }
{
    match &port.last {
        Some(frame) => push_digits(text, frame.split_at(1).1),
        None => Ok(()),
    }
}
