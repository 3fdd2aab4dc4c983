//! What couldn't be read, by its sender and why.

use crate::clauses::{clauses_of, is_foreign};
use crate::findings::joined;
use crate::objects::push_moments;
use crate::sentences::push_times;
use crate::sources::push_address;
use sacn_audit::{Audit, Breach, RefusedPackets, SourceAudit};
use sacn_tell::{begin_object, fault_words, push_decimal, push_key, push_number, push_word};
use std::alloc::AllocError;

/// What is said of octets that are no packet of streaming ACN.
const FOREIGN: &str = "no packets of streaming ACN";

/// Pushes a line for each sender and each reason for which its packets can't be read, in the order in which they appeared:
/// `10.0.0.9 sends what can't be read: 6.2.3 the priority is above 200 (once, at 4.000 s)`. What isn't of streaming ACN at all is one line
/// for its sender. What the audit had no room for is told at the end.
///
/// Errors: a growth was refused.
pub fn push_unread(text: &mut String, audit: &Audit) -> Result<(), AllocError> {
    let refused = audit.refused();
    for (place, packets) in refused.iter().enumerate() {
        if !is_foreign(packets.fault) {
            push_line(text, packets)?;
        } else if is_first_foreign(refused, place, packets.address) {
            push_foreign_line(text, refused, packets.address)?;
        }
    }
    push_untracked(text, audit.refused_untracked())
}

/// Whether packets of streaming ACN came that can't be read.
pub(crate) fn has_unread_packets(audit: &Audit) -> bool {
    audit
        .refused()
        .iter()
        .any(|packets| !is_foreign(packets.fault))
}

/// Whether such packets came from the address of a source.
pub(crate) fn sends_unread(audit: &Audit, source: &SourceAudit) -> bool {
    audit.refused().iter().any(|packets| packets.address == source.address
        && !is_foreign(packets.fault))
}

// A line for a fault.
fn push_line(text: &mut String, packets: &RefusedPackets) -> Result<(), AllocError> {
    begin_line(text, packets.address)?;
    if let Some(clauses) = clauses_of(packets.fault) {
        text.push_str(clauses)?;
        text.push(' ')?;
    }
    text.push_str(fault_words(packets.fault))?;
    push_times(text, packets.breach)
}

// A line for all octets of a sender that aren't of streaming ACN.
fn push_foreign_line(
    text: &mut String,
    refused: &[RefusedPackets],
    address: [u8; 4],
) -> Result<(), AllocError> {
    begin_line(text, address)?;
    text.push_str(FOREIGN)?;
    push_times(text, foreign_of(refused, address))
}

fn begin_line(text: &mut String, address: [u8; 4]) -> Result<(), AllocError> {
    push_address(text, address)?;
    text.push_str(" sends what can't be read: ")
}

fn push_untracked(text: &mut String, untracked: u64) -> Result<(), AllocError> {
    if untracked == 0 {
        return Ok(());
    }
    push_decimal(text, untracked)?;
    text.push_str(if untracked == 1 {
        " further packet that can't be read wasn't told apart\n"
    } else {
        " further packets that can't be read weren't told apart\n"
    })
}

/// Pushes an object for each sender and each reason for which its packets can't be read, as `push_unread` has lines.
///
/// Errors: a growth was refused.
pub fn push_unread_objects(text: &mut String, audit: &Audit) -> Result<(), AllocError> {
    let refused = audit.refused();
    let mut latest = 0;
    for (place, packets) in refused.iter().enumerate() {
        latest = packets.breach.latest.max(latest);
        if !is_foreign(packets.fault) {
            push_object(text, packets)?;
        } else if is_first_foreign(refused, place, packets.address) {
            push_foreign_object(text, refused, packets.address)?;
        }
    }
    push_untracked_object(text, latest, audit.refused_untracked())
}

// An object for a fault.
fn push_object(text: &mut String, packets: &RefusedPackets) -> Result<(), AllocError> {
    begin(text, packets.address, packets.breach)?;
    if let Some(clauses) = clauses_of(packets.fault) {
        push_word(text, "section", clauses)?;
    }
    push_word(text, "rule", fault_words(packets.fault))?;
    push_moments(text, packets.breach)
}

// An object for all octets of a sender that aren't of streaming ACN.
fn push_foreign_object(
    text: &mut String,
    refused: &[RefusedPackets],
    address: [u8; 4],
) -> Result<(), AllocError> {
    let breach = foreign_of(refused, address);
    begin(text, address, breach)?;
    push_word(text, "rule", FOREIGN)?;
    push_moments(text, breach)
}

// The front of an object: its moment, its key, and the sender.
fn begin(text: &mut String, address: [u8; 4], breach: Breach) -> Result<(), AllocError> {
    begin_object(text, breach.latest, "unread")?;
    push_key(text, "address")?;
    text.push('"')?;
    push_address(text, address)?;
    text.push('"')
}

fn push_untracked_object(text: &mut String, latest: u64, untracked: u64) -> Result<(), AllocError> {
    if untracked == 0 {
        return Ok(());
    }
    begin_object(text, latest, "unread_untracked")?;
    push_number(text, "packets", untracked)?;
    text.push_str("}\n")
}

// Whether octets are no packet of streaming ACN, and come from this sender.
fn is_foreign_of(packets: &RefusedPackets, address: [u8; 4]) -> bool {
    packets.address == address && is_foreign(packets.fault)
}

// Whether no such octets of this sender stand before this place.
fn is_first_foreign(refused: &[RefusedPackets], place: usize, address: [u8; 4]) -> bool {
    !refused
        .iter()
        .take(place)
        .any(|packets| is_foreign_of(packets, address))
}

// How often a sender sent such octets, and when.
fn foreign_of(refused: &[RefusedPackets], address: [u8; 4]) -> Breach {
    let mut total = Breach::none();
    for packets in refused {
        if is_foreign_of(packets, address) {
            total = joined(total, packets.breach);
        }
    }
    total
}
