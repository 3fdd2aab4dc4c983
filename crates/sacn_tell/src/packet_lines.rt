//! Lines of packets and of the streams that they belong to.

ghost use Rattle.std.specs.Prelude.{◌≡◌, ◌++◌, OnOk, string_bytes};
ghost use Rattle.sacn_tell.specs.Sentences.{event_key};
ghost use Rattle.sacn_tell.specs.PacketLines.{event_line, moved_line, renamed_line, priority_line, anew_line, omission_line, skipped_line, last_members, loss_line, refused_line, untracked_line};

use crate::options::Form;
use crate::refusals::fault_name;
use crate::{event_words, json};
use sacn_monitor::{Change, Endpoint, News, Stream, StreamEvent};
use sacn_packets::PacketFault;
use std::alloc::AllocError;

// The key of an event in JSON.
fn event_key(event: StreamEvent) -> &'static str
    ensures { result.now ≡ event_key event }
{
    match event {
        StreamEvent::GoesOn => "goes_on",
        StreamEvent::Appeared => "appeared",
        StreamEvent::CameBack => "came_back",
        StreamEvent::Ended => "ended",
        StreamEvent::OutOfSequence => "out_of_sequence",
        StreamEvent::Repeated => "repeated",
    }
}

/// What a packet says of its source.
pub fn event_line(
    text: &mut String,
    form: Form,
    now: u64,
    stream: &Stream,
    event: StreamEvent,
) -> Result<(), AllocError>
    ensures { OnOk result
        (string_bytes text.new ≡ string_bytes text.old ++ event_line form now stream.now event) }
{
    match form {
        Form::Text => {
            event_words::begin_stream(text, now, stream)?;
            event_words::push_event(text, event, stream)
        }
        Form::Json => {
            json::begin(text, now, event_key(event))?;
            json::push_stream(text, stream)?;
            json::push_sender_members(text, &stream.account.sender)?;
            json::push_number(text, "priority", u64::from(stream.account.priority))?;
            text.push('}')
        }
    }
}

/// A source that sends from elsewhere than before.
pub fn moved_line(
    text: &mut String,
    form: Form,
    now: u64,
    stream: &Stream,
) -> Result<(), AllocError>
    ensures { OnOk result
        (string_bytes text.new ≡ string_bytes text.old ++ moved_line form now stream.now) }
{
    match form {
        Form::Text => {
            event_words::begin_stream(text, now, stream)?;
            event_words::push_moved(text, &stream.account.sender)
        }
        Form::Json => {
            json::begin(text, now, "moved")?;
            json::push_stream(text, stream)?;
            json::push_sender_members(text, &stream.account.sender)?;
            text.push('}')
        }
    }
}

/// A source that has another name than before.
pub fn renamed_line(
    text: &mut String,
    form: Form,
    now: u64,
    stream: &Stream,
) -> Result<(), AllocError>
    ensures { OnOk result
        (string_bytes text.new ≡ string_bytes text.old ++ renamed_line form now stream.now) }
{
    match form {
        Form::Text => {
            event_words::begin_stream(text, now, stream)?;
            text.push_str("has this name now")
        }
        Form::Json => {
            json::begin(text, now, "renamed")?;
            json::push_stream(text, stream)?;
            text.push('}')
        }
    }
}

/// A source that sends at another priority than before.
pub fn priority_line(
    text: &mut String,
    form: Form,
    now: u64,
    stream: &Stream,
    change: Change,
) -> Result<(), AllocError>
    ensures { OnOk result (string_bytes text.new
        ≡ string_bytes text.old ++ priority_line form now stream.now change) }
{
    match form {
        Form::Text => {
            event_words::begin_stream(text, now, stream)?;
            event_words::push_priority(text, change)
        }
        Form::Json => {
            json::begin(text, now, "priority")?;
            json::push_stream(text, stream)?;
            json::push_number(text, "from", u64::from(change.from))?;
            json::push_number(text, "to", u64::from(change.to))?;
            text.push('}')
        }
    }
}

/// A source that begins its sequence numbers anew.
pub fn anew_line(text: &mut String, form: Form, now: u64, stream: &Stream) -> Result<(), AllocError>
    ensures { OnOk result
        (string_bytes text.new ≡ string_bytes text.old ++ anew_line form now stream.now) }
{
    match form {
        Form::Text => {
            event_words::begin_stream(text, now, stream)?;
            text.push_str("begins its numbers anew")
        }
        Form::Json => {
            json::begin(text, now, "began_anew")?;
            json::push_stream(text, stream)?;
            text.push('}')
        }
    }
}

/// A source that leaves out this number at each turn of its numbers.
pub fn omission_line(
    text: &mut String,
    form: Form,
    now: u64,
    stream: &Stream,
    number: u8,
) -> Result<(), AllocError>
    ensures { OnOk result (string_bytes text.new
        ≡ string_bytes text.old ++ omission_line form now stream.now number) }
{
    match form {
        Form::Text => {
            event_words::begin_stream(text, now, stream)?;
            event_words::push_omission(text, number)
        }
        Form::Json => {
            json::begin(text, now, "leaves_out")?;
            json::push_stream(text, stream)?;
            json::push_number(text, "number", u64::from(number))?;
            text.push('}')
        }
    }
}

/// Numbers of a source that were skipped.
pub fn skipped_line(
    text: &mut String,
    form: Form,
    now: u64,
    stream: &Stream,
    news: &News,
) -> Result<(), AllocError>
    ensures { OnOk result (string_bytes text.new
        ≡ string_bytes text.old ++ skipped_line form now stream.now news.now.skipped) }
{
    match form {
        Form::Text => {
            event_words::begin_stream(text, now, stream)?;
            event_words::push_skipped(text, news)
        }
        Form::Json => {
            json::begin(text, now, "skipped")?;
            json::push_stream(text, stream)?;
            json::push_number(text, "count", u64::from(news.skipped))?;
            text.push('}')
        }
    }
}

/// A source that is lost (E1.31, 6.7.1), and what it sent last.
pub fn loss_line(text: &mut String, form: Form, now: u64, stream: &Stream) -> Result<(), AllocError>
    ensures { OnOk result
        (string_bytes text.new ≡ string_bytes text.old ++ loss_line form now stream.now) }
{
    match form {
        Form::Text => {
            event_words::begin_stream(text, now, stream)?;
            event_words::push_loss(text, stream)
        }
        Form::Json => {
            json::begin(text, now, "lost")?;
            json::push_stream(text, stream)?;
            push_last_members(text, stream)?;
            text.push('}')
        }
    }
}

// When a source's last packet came and from where, and its priority.
#[tactic(auto, unfolding(crate::specs::PacketLines::last_members))]
fn push_last_members(text: &mut String, stream: &Stream) -> Result<(), AllocError>
    ensures { OnOk result
        (string_bytes text.new ≡ string_bytes text.old ++ last_members stream.now) }
{
    json::push_number(text, "since", stream.account.latest)?;
    json::push_sender_members(text, &stream.account.sender)?;
    json::push_number(text, "priority", u64::from(stream.account.priority))
}

/// A datagram that is no packet.
pub fn refused_line(
    text: &mut String,
    form: Form,
    now: u64,
    sender: &Endpoint,
    fault: PacketFault,
) -> Result<(), AllocError>
    ensures { OnOk result
        (string_bytes text.new ≡ string_bytes text.old ++ refused_line form now sender.now fault) }
{
    match form {
        Form::Text => {
            event_words::begin(text, now)?;
            event_words::push_refused(text, sender, fault)
        }
        Form::Json => {
            json::begin(text, now, "refused")?;
            json::push_sender_members(text, sender)?;
            json::push_number(text, "fault", u64::from(fault.number()))?;
            json::push_word(text, "name", fault_name(fault))?;
            text.push('}')
        }
    }
}

/// A packet of a source for which there is no room.
pub fn untracked_line(
    text: &mut String,
    form: Form,
    now: u64,
    sender: &Endpoint,
) -> Result<(), AllocError>
    ensures { OnOk result
        (string_bytes text.new ≡ string_bytes text.old ++ untracked_line form now sender.now) }
{
    match form {
        Form::Text => {
            event_words::begin(text, now)?;
            event_words::push_untracked(text, sender)
        }
        Form::Json => {
            json::begin(text, now, "untracked")?;
            json::push_sender_members(text, sender)?;
            text.push('}')
        }
    }
}
