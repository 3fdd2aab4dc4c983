//! What a recording had, and the row of all its counts.

ghost use Rattle.std.specs.Prelude.{◌≡◌, ◌++◌, ◌-◌, ◌^◌, OnOk, min, sum, string_bytes};
ghost use Rattle.sacn_tell.specs.Totals.{counts_json, counts_row, counts_text, frames_members, frames_text, named_count, has_unread, is_unread_for, passed_in, reason_key, reason_members, reason_row, reason_rows, reason_words, refused_in, tally_members, tally_text, unread_members, unread_text};

use crate::json;
use crate::options::Form;
use crate::spelling::push_left;
use sacn_capture::{FrameCounts, Passed};
use sacn_monitor::Tally;
use std::alloc::AllocError;
use std::fmt::Write;

const UNREAD_HEAD: &str = "\nframes that couldn't be read";

/// Why a frame couldn't be read, so that a datagram may stand in it. All others without one carry something else.
const UNREAD: [Passed; 6] = [
    Passed::Cut,
    Passed::Fragment,
    Passed::Ipv6,
    Passed::NotIpv4,
    Passed::OtherLink,
    Passed::TooLong,
];

/// What a recording had.
#[derive(Clone, Copy)]
pub struct Report {
    /// Its frames, by what they were.
    pub frames: FrameCounts,
    /// Its datagrams to the port that was asked for, by what they were.
    pub tally: Tally,
    /// Pages of sources for whose lists there was no room.
    pub pages_passed: u64,
    /// Datagrams to other ports.
    pub other_ports: u64,
    /// Frames with an earlier moment than one before. They are taken at the latest moment so far.
    pub went_back: u64,
    /// The sources on universes that were heard.
    pub streams: usize,
    /// The moment of the last frame, in milliseconds from the first.
    pub length: u64,
}

/// All counts of a recording.
pub fn counts_row(text: &mut String, form: Form, report: &Report) -> Result<(), AllocError>
    ensures { OnOk result
        (string_bytes text.new ≡ string_bytes text.old ++ counts_row form report.now) }
{
    match form {
        Form::Text => counts_text(text, report),
        Form::Json => counts_json(text, report),
    }
}

/// The sum of counts, at most what 64 bits hold.
pub fn total(counts: &[u64]) -> u64
    ensures { result ≡ min (sum counts.now) (2 ^ 64 - 1) }
{
    let mut sum = 0_u64;
    for count in counts {
        sum = sum.saturating_add(*count);
    }
    sum
}

// All datagrams that are no packets.
#[tactic(auto, unfolding(crate::specs::Totals::refused_in))]
fn refused_in(report: &Report) -> u64
    ensures { result ≡ refused_in report.now }
{
    total(&report.tally.refused)
}

// All frames with no datagram.
#[tactic(auto, unfolding(crate::specs::Totals::passed_in))]
fn passed_in(report: &Report) -> u64
    ensures { result ≡ passed_in report.now }
{
    let frames = &report.frames;
    total(&[
        frames.not_ip,
        frames.ipv6,
        frames.not_ipv4,
        frames.not_udp,
        frames.fragments,
        frames.cut,
        frames.other_links,
        frames.too_long,
    ])
}

#[tactic(auto, unfolding(crate::specs::Totals::counts_text))]
fn counts_text(text: &mut String, report: &Report) -> Result<(), AllocError>
    ensures { OnOk result
        (string_bytes text.new ≡ string_bytes text.old ++ counts_text report.now) }
{
    push_tally(text, report)?;
    push_frames(text, report)
}

#[tactic(auto, unfolding(crate::specs::Totals::tally_text))]
fn push_tally(text: &mut String, report: &Report) -> Result<(), AllocError>
    ensures { OnOk result (string_bytes text.new ≡ string_bytes text.old ++ tally_text report.now) }
{
    let tally = &report.tally;
    push_named(text, "datagrams to the port", tally.datagrams)?;
    push_named(text, "refused", refused_in(report))?;
    push_named(text, "pages", tally.pages)?;
    push_named(text, "pages not followed", report.pages_passed)?;
    push_named(text, "synchronization", tally.syncs)?;
    push_named(text, "not followed", tally.untracked)
}

#[tactic(auto, unfolding(crate::specs::Totals::frames_text))]
fn push_frames(text: &mut String, report: &Report) -> Result<(), AllocError>
    ensures { OnOk result
        (string_bytes text.new ≡ string_bytes text.old ++ frames_text report.now) }
{
    push_named(text, "datagrams to other ports", report.other_ports)?;
    push_named(text, "frames without a datagram", passed_in(report))?;
    push_named(text, "frames with an earlier moment", report.went_back)
}

#[tactic(auto, unfolding(crate::specs::Totals::named_count))]
fn push_named(text: &mut String, name: &str, count: u64) -> Result<(), AllocError>
    ensures { OnOk result
        (string_bytes text.new ≡ string_bytes text.old ++ named_count name.now count) }
{
    text.push('\n')?;
    push_left(text, name, 30)?;
    write!(text, " {count}")
}

#[tactic(auto, unfolding(crate::specs::Totals::counts_json))]
fn counts_json(text: &mut String, report: &Report) -> Result<(), AllocError>
    ensures { OnOk result
        (string_bytes text.new ≡ string_bytes text.old ++ counts_json report.now) }
{
    json::begin_row(text, "counts")?;
    push_tally_members(text, report)?;
    push_frames_members(text, report)?;
    text.push('}')
}

#[tactic(auto, unfolding(crate::specs::Totals::tally_members))]
fn push_tally_members(text: &mut String, report: &Report) -> Result<(), AllocError>
    ensures { OnOk result
        (string_bytes text.new ≡ string_bytes text.old ++ tally_members report.now) }
{
    let tally = &report.tally;
    json::push_number(text, "datagrams", tally.datagrams)?;
    json::push_number(text, "refused", refused_in(report))?;
    json::push_number(text, "pages", tally.pages)?;
    json::push_number(text, "pages_untracked", report.pages_passed)?;
    json::push_number(text, "synchronization", tally.syncs)?;
    json::push_number(text, "untracked", tally.untracked)
}

#[tactic(auto, unfolding(crate::specs::Totals::frames_members))]
fn push_frames_members(text: &mut String, report: &Report) -> Result<(), AllocError>
    ensures { OnOk result
        (string_bytes text.new ≡ string_bytes text.old ++ frames_members report.now) }
{
    json::push_number(text, "other_ports", report.other_ports)?;
    json::push_number(text, "other_frames", passed_in(report))?;
    json::push_number(text, "went_back", report.went_back)?;
    unread_members(text, &report.frames)?;
    json::push_number(text, "ms", report.length)
}

/// Whether frames couldn't be read.
#[tactic(auto, unfolding(crate::specs::Totals::has_unread))]
pub fn has_unread(frames: &FrameCounts) -> bool
    ensures { result ≡ has_unread frames.now }
{
    is_unread_for(frames, &UNREAD)
}

fn is_unread_for(frames: &FrameCounts, reasons: &[Passed]) -> bool
    ensures { result ≡ is_unread_for frames.now reasons.now }
{
    reasons.iter().any(|reason| frames.passed_for(*reason) > 0)
}

/// How many frames couldn't be read, and why, for people.
#[tactic(auto, unfolding(crate::specs::Totals::unread_text))]
pub fn unread_text(text: &mut String, frames: &FrameCounts) -> Result<(), AllocError>
    ensures { OnOk result
        (string_bytes text.new ≡ string_bytes text.old ++ unread_text frames.now) }
{
    text.push_str(UNREAD_HEAD)?;
    push_reason_rows(text, frames, &UNREAD)
}

fn push_reason_rows(
    text: &mut String,
    frames: &FrameCounts,
    reasons: &[Passed],
) -> Result<(), AllocError>
    ensures { OnOk result (string_bytes text.new
        ≡ string_bytes text.old ++ reason_rows frames.now reasons.now) }
{
    for reason in reasons {
        push_reason_row(text, *reason, frames.passed_for(*reason))?;
    }
    Ok(())
}

// The row of a reason for which frames couldn't be read.
fn push_reason_row(text: &mut String, reason: Passed, count: u64) -> Result<(), AllocError>
    ensures { OnOk result
        (string_bytes text.new ≡ string_bytes text.old ++ reason_row reason count) }
{
    if count == 0 {
        return Ok(());
    }
    push_named(text, reason_words(reason), count)
}

/// How many frames couldn't be read for each reason, as members of an object: also where there are none.
pub fn unread_members(text: &mut String, frames: &FrameCounts) -> Result<(), AllocError>
    ensures { OnOk result
        (string_bytes text.new ≡ string_bytes text.old ++ unread_members frames.now) }
{
    push_reason_members(text, frames, &UNREAD)
}

fn push_reason_members(
    text: &mut String,
    frames: &FrameCounts,
    reasons: &[Passed],
) -> Result<(), AllocError>
    ensures { OnOk result (string_bytes text.new
        ≡ string_bytes text.old ++ reason_members frames.now reasons.now) }
{
    for reason in reasons {
        json::push_number(text, reason_key(*reason), frames.passed_for(*reason))?;
    }
    Ok(())
}

// Why a frame has no datagram, in words.
fn reason_words(reason: Passed) -> &'static str
    ensures { result.now ≡ reason_words reason }
{
    match reason {
        Passed::NotIp => "something other than IP",
        Passed::Ipv6 => "IPv6",
        Passed::NotIpv4 => "a wrong header of IPv4",
        Passed::NotUdp => "something other than UDP",
        Passed::Fragment => "a fragment of IP",
        Passed::Cut => "cut short, as by a snap length",
        Passed::OtherLink => "a link of an unknown type",
        Passed::TooLong => "above 65535 octets",
    }
}

// The same as a member's key.
fn reason_key(reason: Passed) -> &'static str
    ensures { result.now ≡ reason_key reason }
{
    match reason {
        Passed::NotIp => "not_ip",
        Passed::Ipv6 => "ipv6",
        Passed::NotIpv4 => "wrong_ipv4",
        Passed::NotUdp => "not_udp",
        Passed::Fragment => "fragments",
        Passed::Cut => "cut",
        Passed::OtherLink => "other_links",
        Passed::TooLong => "too_long",
    }
}
