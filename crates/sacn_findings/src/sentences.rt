//! What was found, as text for people.

use crate::findings::{short_ends_of, total_of, universes_of};
use crate::list_findings::{ListFinding, SECTION, list_findings};
use crate::namesakes::{self, namesake_at};
use crate::rule_rows::{ROWS, Row};
use crate::sources::{heard_for, push_address, push_source};
use crate::unread::{has_unread_packets, push_unread, sends_unread};
use sacn_audit::{Audit, AuditedStream, Breach, Rule, SourceAudit};
use sacn_tell::{push_decimal, push_ranges, push_seconds, push_short_cid};
use std::alloc::{AllocError, Global};

/// Pushes a block for each source, in the order in which they appeared, and what stands behind them.
///
/// Errors: a growth was refused.
pub fn push_text(alloc: Global, text: &mut String, audit: &Audit) -> Result<(), AllocError> {
    for source in audit.sources() {
        push_block(alloc, text, audit, source)?;
    }
    push_text_end(text, audit)
}

/// Pushes the block of the source of a place, if there is one: `"Main FOH" 0001..0f at 10.0.0.5: conforms`, or a line for each rule that
/// it broke. Where the audit had no room for a stream, no source is told as one that conforms.
///
/// Errors: a growth was refused.
pub fn push_source_text(
    alloc: Global,
    text: &mut String,
    audit: &Audit,
    place: usize,
) -> Result<(), AllocError> {
    match audit.sources().get(place) {
        Some(source) => push_block(alloc, text, audit, source),
        None => Ok(()),
    }
}

/// Pushes what stands behind the blocks of the sources: what the audit had no room for, that there is no source, and what couldn't be read.
///
/// Errors: a growth was refused.
pub fn push_text_end(text: &mut String, audit: &Audit) -> Result<(), AllocError> {
    push_untracked(text, audit.untracked())?;
    if audit.sources().is_empty() && !has_unread_packets(audit) {
        text.push_str("no packets of streaming ACN\n")?;
    }
    push_unread(text, audit)
}

fn push_block(
    alloc: Global,
    text: &mut String,
    audit: &Audit,
    source: &SourceAudit,
) -> Result<(), AllocError> {
    let streams = audit.streams();
    push_source(text, source)?;
    text.push_str(verdict_of(audit, source))?;
    push_two_senders(text, source)?;
    for row in &ROWS {
        push_finding(alloc, text, streams, source, row)?;
        match row.rule {
            Rule::NameNotText => push_namesake(text, audit.sources(), source)?,
            Rule::NumberLeftOut => push_one_counter(text, source)?,
            Rule::ShortEnd => push_short_end(alloc, text, streams, source)?,
            _ => {}
        }
    }
    for finding in &list_findings(source) {
        push_list_finding(text, finding)?;
    }
    push_unseen(text, streams, source)
}

// What stands behind a source: that it conforms, where no rule is told below it.
fn verdict_of(audit: &Audit, source: &SourceAudit) -> &'static str {
    if audit.untracked() != 0 || !conforms(audit.streams(), source) {
        ":\n"
    } else if sends_unread(audit, source) {
        ": breaks no rule, but its address sends what can't be read\n"
    } else {
        ": conforms\n"
    }
}

/// Whether a source breaks no rule, as far as was heard of it.
pub(crate) fn conforms(streams: &[AuditedStream], source: &SourceAudit) -> bool {
    for row in &ROWS {
        if row.is_breach && total_of(streams, &source.cid, row.rule).times > 0 {
            return false;
        }
    }
    for stream in streams {
        if stream.cid == source.cid && stream.audit.is_short_end() {
            return false;
        }
    }
    let [none, lacking, _] = list_findings(source);
    source.two_senders.times == 0
        && source.one_counter.times == 0
        && none.breach.times == 0
        && lacking.breach.times == 0
}

// A line for a rule that was broken.
fn push_finding(
    alloc: Global,
    text: &mut String,
    streams: &[AuditedStream],
    source: &SourceAudit,
    row: &Row,
) -> Result<(), AllocError> {
    let total = total_of(streams, &source.cid, row.rule);
    if total.times == 0 {
        return Ok(());
    }
    let universes = universes_of(alloc, streams, &source.cid, row.rule)?;
    push_rule(text, row.is_breach, row.section, row.words)?;
    push_where(text, universes.as_slice())?;
    push_times(text, total)
}

// The front of a line: its clause, and what breaks it.
fn push_rule(
    text: &mut String,
    is_breach: bool,
    section: &str,
    words: &str,
) -> Result<(), AllocError> {
    text.push_str(if is_breach {
        "  "
    } else {
        "  seen, no breach: "
    })?;
    text.push_str(section)?;
    text.push(' ')?;
    text.push_str(words)
}

fn push_where(text: &mut String, universes: &[u16]) -> Result<(), AllocError> {
    text.push_str(" on ")?;
    push_ranges(text, universes)
}

/// How often, and when: ` (60 times, the first at 3.200 s, the latest at 61.105 s)`, and the end of the line.
pub(crate) fn push_times(text: &mut String, breach: Breach) -> Result<(), AllocError> {
    if breach.times == 1 {
        text.push_str(" (once, at ")?;
        push_seconds(text, breach.first)?;
        return text.push_str(" s)\n");
    }
    text.push_str(" (")?;
    push_decimal(text, breach.times)?;
    text.push_str(" times, the first at ")?;
    push_seconds(text, breach.first)?;
    text.push_str(" s, the latest at ")?;
    push_seconds(text, breach.latest)?;
    text.push_str(" s)\n")
}

fn push_two_senders(text: &mut String, source: &SourceAudit) -> Result<(), AllocError> {
    if source.two_senders.times == 0 {
        return Ok(());
    }
    text.push_str("  5.6 one CID at two addresses")?;
    push_times(text, source.two_senders)
}

fn push_one_counter(text: &mut String, source: &SourceAudit) -> Result<(), AllocError> {
    if source.one_counter.times == 0 {
        return Ok(());
    }
    text.push_str("  6.2.5 one counter for several universes")?;
    push_times(text, source.one_counter)
}

// Another source of the same name: `6.2.2 the name of another source too: 4d4d..4d at 10.0.0.6`.
fn push_namesake(
    text: &mut String,
    sources: &[SourceAudit],
    source: &SourceAudit,
) -> Result<(), AllocError> {
    let Some(at) = namesake_at(source, sources) else {
        return Ok(());
    };
    let Some(other) = sources.get(at) else {
        return Ok(());
    };
    push_rule(text, false, namesakes::SECTION, namesakes::WORDS)?;
    text.push_str(": ")?;
    push_short_cid(text, &other.cid)?;
    text.push_str(" at ")?;
    push_address(text, other.address)?;
    text.push('\n')
}

// A line for a rule of lists of universes, where it was broken.
fn push_list_finding(text: &mut String, finding: &ListFinding) -> Result<(), AllocError> {
    if finding.breach.times == 0 {
        return Ok(());
    }
    push_rule(text, finding.is_breach, SECTION, finding.words)?;
    push_times(text, finding.breach)
}

// Streams that have ended by too few packets, after which nothing came.
fn push_short_end(
    alloc: Global,
    text: &mut String,
    streams: &[AuditedStream],
    source: &SourceAudit,
) -> Result<(), AllocError> {
    let universes = short_ends_of(alloc, streams, &source.cid)?;
    if universes.is_empty() {
        return Ok(());
    }
    text.push_str("  6.2.6 ended by fewer than three packets")?;
    push_where(text, universes.as_slice())?;
    text.push_str(", and nothing came after them\n")
}

/// Whether a rule that wasn't broken can't be seen, since the source was heard for too short a time.
pub(crate) fn is_unseen(streams: &[AuditedStream], source: &SourceAudit, row: &Row) -> bool {
    heard_for(source) < row.least && total_of(streams, &source.cid, row.rule).times == 0
}

/// Whether a rule of lists that wasn't broken can't be seen, since the source was heard for too short a time.
pub(crate) fn is_list_unseen(source: &SourceAudit, finding: &ListFinding) -> bool {
    heard_for(source) < finding.least && finding.breach.times == 0
}

// The rules that can't be seen.
fn push_unseen(
    text: &mut String,
    streams: &[AuditedStream],
    source: &SourceAudit,
) -> Result<(), AllocError> {
    let mut is_first = true;
    for row in &ROWS {
        if is_unseen(streams, source, row) {
            push_one_unseen(text, row.section, row.words, is_first)?;
            is_first = false;
        }
    }
    for finding in &list_findings(source) {
        if is_list_unseen(source, finding) {
            push_one_unseen(text, SECTION, finding.words, is_first)?;
            is_first = false;
        }
    }
    if is_first {
        return Ok(());
    }
    text.push('\n')
}

// A rule that can't be seen, the first of these or a further one.
fn push_one_unseen(
    text: &mut String,
    section: &str,
    words: &str,
    is_first: bool,
) -> Result<(), AllocError> {
    text.push_str(if is_first {
        "  can't be seen in so short a recording: "
    } else {
        "; "
    })?;
    text.push_str(section)?;
    text.push(' ')?;
    text.push_str(words)
}

fn push_untracked(text: &mut String, untracked: u64) -> Result<(), AllocError> {
    if untracked == 0 {
        return Ok(());
    }
    push_decimal(text, untracked)?;
    text.push_str(if untracked == 1 {
        " packet of further streams wasn't looked at\n"
    } else {
        " packets of further streams weren't looked at\n"
    })
}
