//! What was found, as objects of JSON for programs.

use crate::findings::{short_ends_of, total_of, universes_of};
use crate::list_findings::{ListFinding, SECTION, list_findings};
use crate::namesakes::{self, namesake_at};
use crate::rule_rows::{ROWS, Row};
use crate::sentences::{conforms, is_list_unseen, is_unseen};
use crate::sources::push_address;
use crate::unread::sends_unread;
use sacn_audit::{Audit, AuditedStream, Breach, Rule, SourceAudit};
use sacn_packets::up_to_nul;
use sacn_tell::{
    begin_object, push_cid, push_key, push_number, push_numbers, push_source_members, push_word,
};
use std::alloc::{AllocError, Global};

/// Pushes an object for each source and each rule that it broke, a line each; for a source that broke none one object `conforms`, unless its
/// address sends what can't be read.
/// Where the audit had no room for some packets there is none of these, and an object `untracked` at the end.
///
/// Errors: a growth was refused.
pub fn push_objects(alloc: Global, text: &mut String, audit: &Audit) -> Result<(), AllocError> {
    let is_whole = audit.untracked() == 0;
    let mut latest = 0;
    for source in audit.sources() {
        push_source_objects(alloc, text, audit, source, is_whole)?;
        latest = source.moment.max(latest);
    }
    if is_whole {
        return Ok(());
    }
    begin_object(text, latest, "untracked")?;
    push_number(text, "packets", audit.untracked())?;
    text.push_str("}\n")
}

fn push_source_objects(
    alloc: Global,
    text: &mut String,
    audit: &Audit,
    source: &SourceAudit,
    is_whole: bool,
) -> Result<(), AllocError> {
    let streams = audit.streams();
    if is_whole && conforms(streams, source) && !sends_unread(audit, source) {
        begin(text, source.moment, "conforms", source)?;
        text.push_str("}\n")?;
    }
    push_two_senders(text, source)?;
    push_one_counter(text, source)?;
    for row in &ROWS {
        push_finding(alloc, text, streams, source, row)?;
        if is_unseen(streams, source, row) {
            push_unseen(text, source, row.section, row.words)?;
        }
        if row.rule == Rule::NameNotText {
            push_namesake(text, audit.sources(), source)?;
        }
    }
    for finding in &list_findings(source) {
        push_list_finding(text, source, finding)?;
        if is_list_unseen(source, finding) {
            push_unseen(text, source, SECTION, finding.words)?;
        }
    }
    push_short_end(alloc, text, streams, source)
}

fn push_finding(
    alloc: Global,
    text: &mut String,
    streams: &[AuditedStream],
    source: &SourceAudit,
    row: &Row,
) -> Result<(), AllocError> {
    let total = total_of(streams, &source.cid, row.rule);
    if total.times == 0 {
        return Ok(());
    }
    let universes = universes_of(alloc, streams, &source.cid, row.rule)?;
    begin(text, total.latest, event_of(row.is_breach), source)?;
    push_rule(text, row.section, row.words)?;
    push_numbers(text, "universes", universes.as_slice())?;
    push_moments(text, total)
}

// Another source of the same name, by its CID.
fn push_namesake(
    text: &mut String,
    sources: &[SourceAudit],
    source: &SourceAudit,
) -> Result<(), AllocError> {
    let Some(at) = namesake_at(source, sources) else {
        return Ok(());
    };
    let Some(other) = sources.get(at) else {
        return Ok(());
    };
    begin(text, source.moment, event_of(false), source)?;
    push_rule(text, namesakes::SECTION, namesakes::WORDS)?;
    push_key(text, "other")?;
    text.push('"')?;
    push_cid(text, &other.cid)?;
    text.push_str("\"}\n")
}

fn push_list_finding(
    text: &mut String,
    source: &SourceAudit,
    finding: &ListFinding,
) -> Result<(), AllocError> {
    let breach = finding.breach;
    if breach.times == 0 {
        return Ok(());
    }
    begin(text, breach.latest, event_of(finding.is_breach), source)?;
    push_rule(text, SECTION, finding.words)?;
    push_moments(text, breach)
}

// A rule that can't be seen.
fn push_unseen(
    text: &mut String,
    source: &SourceAudit,
    section: &str,
    words: &str,
) -> Result<(), AllocError> {
    begin(text, source.moment, "unseen", source)?;
    push_rule(text, section, words)?;
    text.push_str("}\n")
}

fn event_of(is_breach: bool) -> &'static str {
    if is_breach { "breach" } else { "seen" }
}

// The front of an object: its moment, its key, and the source.
fn begin(
    text: &mut String,
    moment: u64,
    event: &str,
    source: &SourceAudit,
) -> Result<(), AllocError> {
    begin_object(text, moment, event)?;
    push_source_members(text, &source.cid, up_to_nul(&source.name))?;
    push_key(text, "address")?;
    text.push('"')?;
    push_address(text, source.address)?;
    text.push('"')
}

/// A rule: its clause, and what breaks it.
fn push_rule(text: &mut String, section: &str, words: &str) -> Result<(), AllocError> {
    push_word(text, "section", section)?;
    push_word(text, "rule", words)
}

/// Its first and its latest moment, how often it was, and the end of the object.
pub(crate) fn push_moments(text: &mut String, breach: Breach) -> Result<(), AllocError> {
    push_number(text, "first", breach.first)?;
    push_number(text, "latest", breach.latest)?;
    push_number(text, "times", breach.times)?;
    text.push_str("}\n")
}

fn push_two_senders(text: &mut String, source: &SourceAudit) -> Result<(), AllocError> {
    if source.two_senders.times == 0 {
        return Ok(());
    }
    begin(text, source.two_senders.latest, "breach", source)?;
    push_rule(text, "5.6", "one CID at two addresses")?;
    push_moments(text, source.two_senders)
}

fn push_one_counter(text: &mut String, source: &SourceAudit) -> Result<(), AllocError> {
    if source.one_counter.times == 0 {
        return Ok(());
    }
    begin(text, source.one_counter.latest, "breach", source)?;
    push_rule(text, "6.2.5", "one counter for several universes")?;
    push_moments(text, source.one_counter)
}

// Streams that have ended by too few packets, after which nothing came.
fn push_short_end(
    alloc: Global,
    text: &mut String,
    streams: &[AuditedStream],
    source: &SourceAudit,
) -> Result<(), AllocError> {
    let universes = short_ends_of(alloc, streams, &source.cid)?;
    if universes.is_empty() {
        return Ok(());
    }
    begin(text, source.moment, "open_end", source)?;
    push_rule(text, "6.2.6", "ended by fewer than three packets")?;
    push_numbers(text, "universes", universes.as_slice())?;
    text.push_str("}\n")
}
