//! Rows of sources on universes.

ghost use Rattle.std.specs.Prelude.{◌≡◌, ◌++◌, OnOk, string_bytes};
ghost use Rattle.sacn_tell.specs.StreamRows.{counts_members, gap_column, kinds_members, moments_text, numbers_members, origin_members, packet_columns, place_text, priority_column, rate_member, state_members, state_text, state_word, stream_json, stream_row, stream_text, universe_column};

use crate::options::Form;
use crate::spelling::{push_left, push_moment, push_sender};
use crate::table_rows::push_column;
use crate::{event_words, json};
use sacn_monitor::{Stream, StreamState};
use sacn_packets::up_to_nul;
use std::alloc::AllocError;
use std::fmt::Write;

/// A source on a universe, with its counts, at a moment.
pub fn stream_row(
    text: &mut String,
    form: Form,
    moment: u64,
    stream: &Stream,
) -> Result<(), AllocError>
    ensures { OnOk result
        (string_bytes text.new ≡ string_bytes text.old ++ stream_row form moment stream.now) }
{
    match form {
        Form::Text => stream_text(text, moment, stream),
        Form::Json => stream_json(text, moment, stream),
    }
}

fn state_word(state: StreamState) -> &'static str
    ensures { result.now ≡ state_word state }
{
    match state {
        StreamState::Sending => "sending",
        StreamState::Ended => "ended",
        StreamState::Lost => "lost",
    }
}

#[tactic(auto, unfolding(crate::specs::StreamRows::stream_text))]
fn stream_text(text: &mut String, moment: u64, stream: &Stream) -> Result<(), AllocError>
    ensures { OnOk result
        (string_bytes text.new ≡ string_bytes text.old ++ stream_text moment stream.now) }
{
    push_state(text, moment, stream)?;
    push_moments(text, stream)?;
    push_packets(text, stream)?;
    push_gap(text, stream.account.greatest_gap)?;
    push_place(text, stream)
}

#[tactic(auto, unfolding(crate::specs::StreamRows::state_text))]
fn push_state(text: &mut String, moment: u64, stream: &Stream) -> Result<(), AllocError>
    ensures { OnOk result
        (string_bytes text.new ≡ string_bytes text.old ++ state_text moment stream.now) }
{
    push_universe(text, stream.universe)?;
    push_left(text, state_word(stream.state(moment)), 8)?;
    push_priority(text, stream.account.priority)
}

#[tactic(auto, unfolding(crate::specs::StreamRows::universe_column), using(crate::proofs::Padding::right_is))]
fn push_universe(text: &mut String, universe: u16) -> Result<(), AllocError>
    ensures { OnOk result
        (string_bytes text.new ≡ string_bytes text.old ++ universe_column universe) }
{
    write!(text, "{universe:>8} ")
}

#[tactic(auto, unfolding(crate::specs::StreamRows::priority_column), using(crate::proofs::Padding::right_is))]
fn push_priority(text: &mut String, priority: u8) -> Result<(), AllocError>
    ensures { OnOk result
        (string_bytes text.new ≡ string_bytes text.old ++ priority_column priority) }
{
    write!(text, " {priority:>8} ")
}

#[tactic(auto, unfolding(crate::specs::StreamRows::moments_text))]
fn push_moments(text: &mut String, stream: &Stream) -> Result<(), AllocError>
    ensures { OnOk result
        (string_bytes text.new ≡ string_bytes text.old ++ moments_text stream.now) }
{
    push_moment(text, stream.account.first)?;
    text.push(' ')?;
    push_moment(text, stream.account.latest)
}

#[tactic(auto, unfolding(crate::specs::StreamRows::packet_columns))]
fn push_packets(text: &mut String, stream: &Stream) -> Result<(), AllocError>
    ensures { OnOk result
        (string_bytes text.new ≡ string_bytes text.old ++ packet_columns stream.now) }
{
    let account = &stream.account;
    push_column(text, account.kinds.total())?;
    push_column(text, account.kinds.previews)?;
    push_column(text, account.kinds.others)?;
    push_column(text, account.skipped)?;
    push_column(text, account.late)?;
    push_column(text, account.repeats)
}

#[tactic(auto, unfolding(crate::specs::StreamRows::gap_column), using(crate::proofs::Padding::right_is))]
fn push_gap(text: &mut String, gap: u64) -> Result<(), AllocError>
    ensures { OnOk result (string_bytes text.new ≡ string_bytes text.old ++ gap_column gap) }
{
    write!(text, " {gap:>8}  ")
}

#[tactic(auto, unfolding(crate::specs::StreamRows::place_text))]
fn push_place(text: &mut String, stream: &Stream) -> Result<(), AllocError>
    ensures { OnOk result (string_bytes text.new ≡ string_bytes text.old ++ place_text stream.now) }
{
    event_words::push_source(text, &stream.cid, up_to_nul(&stream.account.name))?;
    text.push_str(" at ")?;
    push_sender(text, &stream.account.sender)
}

#[tactic(auto, unfolding(crate::specs::StreamRows::stream_json))]
fn stream_json(text: &mut String, moment: u64, stream: &Stream) -> Result<(), AllocError>
    ensures { OnOk result
        (string_bytes text.new ≡ string_bytes text.old ++ stream_json moment stream.now) }
{
    json::begin_row(text, "source")?;
    push_origin(text, stream)?;
    push_state_members(text, moment, stream)?;
    push_counts(text, moment, stream)?;
    text.push('}')
}

#[tactic(auto, unfolding(crate::specs::StreamRows::origin_members))]
fn push_origin(text: &mut String, stream: &Stream) -> Result<(), AllocError>
    ensures { OnOk result
        (string_bytes text.new ≡ string_bytes text.old ++ origin_members stream.now) }
{
    json::push_stream(text, stream)?;
    json::push_sender_members(text, &stream.account.sender)
}

/// The state of a source at a moment, its priority, and when it was heard first and last.
#[tactic(auto, unfolding(crate::specs::StreamRows::state_members))]
pub fn push_state_members(text: &mut String, moment: u64, stream: &Stream) -> Result<(), AllocError>
    ensures { OnOk result
        (string_bytes text.new ≡ string_bytes text.old ++ state_members moment stream.now) }
{
    let account = &stream.account;
    json::push_word(text, "state", state_word(stream.state(moment)))?;
    json::push_number(text, "priority", u64::from(account.priority))?;
    json::push_number(text, "first", account.first)?;
    json::push_number(text, "last", account.latest)
}

/// The counts of a source: its packets by kind, what was skipped, late and repeated, and the packets of its latest second.
#[tactic(auto, unfolding(crate::specs::StreamRows::counts_members))]
pub fn push_counts(text: &mut String, moment: u64, stream: &Stream) -> Result<(), AllocError>
    ensures { OnOk result
        (string_bytes text.new ≡ string_bytes text.old ++ counts_members moment stream.now) }
{
    push_kinds(text, stream)?;
    push_numbers(text, stream)?;
    push_rate(text, moment, stream)
}

#[tactic(auto, unfolding(crate::specs::StreamRows::rate_member))]
fn push_rate(text: &mut String, moment: u64, stream: &Stream) -> Result<(), AllocError>
    ensures { OnOk result
        (string_bytes text.new ≡ string_bytes text.old ++ rate_member moment stream.now) }
{
    let rate = stream.account.rate.last_second(moment);
    json::push_number(text, "last_second", rate)
}

#[tactic(auto, unfolding(crate::specs::StreamRows::kinds_members))]
fn push_kinds(text: &mut String, stream: &Stream) -> Result<(), AllocError>
    ensures { OnOk result
        (string_bytes text.new ≡ string_bytes text.old ++ kinds_members stream.now) }
{
    let kinds = &stream.account.kinds;
    json::push_number(text, "live", kinds.live)?;
    json::push_number(text, "preview", kinds.previews)?;
    json::push_number(text, "terminated", kinds.terminations)?;
    json::push_number(text, "other", kinds.others)
}

#[tactic(auto, unfolding(crate::specs::StreamRows::numbers_members))]
fn push_numbers(text: &mut String, stream: &Stream) -> Result<(), AllocError>
    ensures { OnOk result
        (string_bytes text.new ≡ string_bytes text.old ++ numbers_members stream.now) }
{
    let account = &stream.account;
    json::push_number(text, "skipped", account.skipped)?;
    json::push_number(text, "late", account.late)?;
    json::push_number(text, "repeated", account.repeats)?;
    json::push_number(text, "gap", account.greatest_gap)
}
