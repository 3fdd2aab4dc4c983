//! Things that happen, in words for people.

ghost use Rattle.std.specs.Prelude.{◌≡◌, ◌++◌, OnOk, string_bytes};
ghost use Rattle.sacn_tell.specs.Sentences.{line_front, source_text, universe_text, stream_front, presence_words, event_words, moved_words, loss_words, silence_words, priority_words, omission_words, skipped_words, refusal_words, refused_words, untracked_words, seconds_text, stop_words, stopped_words, short_cid, named_sender, named_source_words, priorities_words, universes_words};

use crate::numbers::push_ranges;
use crate::places::written_universe;
use crate::refusals::fault_words;
use crate::spelling::{
    push_address, push_ascii, push_cid, push_digits, push_moment, push_name, push_sender,
};
use sacn_monitor::{Change, Endpoint, News, Stream, StreamEvent};
use sacn_packets::{PacketFault, up_to_nul};
use std::alloc::AllocError;
use std::fmt::Write;

/// The front of a line: the moment.
#[tactic(auto, unfolding(crate::specs::Sentences::line_front))]
pub fn begin(text: &mut String, moment: u64) -> Result<(), AllocError>
    ensures { OnOk result (string_bytes text.new ≡ string_bytes text.old ++ line_front moment) }
{
    push_moment(text, moment)?;
    text.push_str(" s  ")
}

/// The front of a stream's line: the moment, the universe and the source.
#[tactic(auto, unfolding(crate::specs::Sentences::stream_front))]
pub fn begin_stream(text: &mut String, moment: u64, stream: &Stream) -> Result<(), AllocError>
    ensures { OnOk result
        (string_bytes text.new ≡ string_bytes text.old ++ stream_front moment stream.now) }
{
    begin(text, moment)?;
    push_universe(text, stream.universe)?;
    push_source(text, &stream.cid, up_to_nul(&stream.account.name))?;
    text.push_str("  ")
}

/// A universe's number, right-aligned in five places.
pub fn push_universe(text: &mut String, universe: u16) -> Result<(), AllocError>
    ensures { OnOk result
        (string_bytes text.new ≡ string_bytes text.old ++ universe_text universe) }
{
    push_ascii(text, &written_universe(universe))
}

/// A source: its CID and name.
#[tactic(auto, unfolding(crate::specs::Sentences::source_text))]
pub fn push_source(text: &mut String, cid: &[u8; 16], name: &[u8]) -> Result<(), AllocError>
    ensures { OnOk result
        (string_bytes text.new ≡ string_bytes text.old ++ source_text cid.now name.now) }
{
    push_cid(text, cid)?;
    text.push_str(" ")?;
    push_name(text, name)
}

/// What an event says; nothing where the source goes on.
pub fn push_event(text: &mut String, event: StreamEvent, stream: &Stream) -> Result<(), AllocError>
    ensures { OnOk result
        (string_bytes text.new ≡ string_bytes text.old ++ event_words event stream.now) }
{
    match event {
        StreamEvent::GoesOn => Ok(()),
        StreamEvent::Appeared => push_presence(text, "appears", stream),
        StreamEvent::CameBack => push_presence(text, "is back", stream),
        StreamEvent::Ended => text.push_str("ends its stream"),
        StreamEvent::OutOfSequence => text.push_str("a packet out of sequence, discarded"),
        StreamEvent::Repeated => text.push_str("a packet comes again, discarded"),
    }
}

#[tactic(auto, unfolding(crate::specs::Sentences::presence_words))]
fn push_presence(text: &mut String, word: &str, stream: &Stream) -> Result<(), AllocError>
    ensures { OnOk result
        (string_bytes text.new ≡ string_bytes text.old ++ presence_words word.now stream.now) }
{
    text.push_str(word)?;
    text.push_str(" at ")?;
    push_sender(text, &stream.account.sender)?;
    let priority = stream.account.priority;
    write!(text, ", priority {priority}")
}

/// Where a source sends from now.
#[tactic(auto, unfolding(crate::specs::Sentences::moved_words))]
pub fn push_moved(text: &mut String, sender: &Endpoint) -> Result<(), AllocError>
    ensures { OnOk result
        (string_bytes text.new ≡ string_bytes text.old ++ moved_words sender.now) }
{
    text.push_str("now sends from ")?;
    push_sender(text, sender)
}

/// The first moment of silence, and what its last packet before that said: where it came from, and its priority.
pub fn push_loss(text: &mut String, stream: &Stream) -> Result<(), AllocError>
    ensures { OnOk result (string_bytes text.new ≡ string_bytes text.old ++ loss_words stream.now) }
{
    push_silence(text, stream)?;
    push_presence(text, ", last", stream)
}

#[tactic(auto, unfolding(crate::specs::Sentences::silence_words), using(crate::proofs::Padding::zeros_is))]
fn push_silence(text: &mut String, stream: &Stream) -> Result<(), AllocError>
    ensures { OnOk result
        (string_bytes text.new ≡ string_bytes text.old ++ silence_words stream.now) }
{
    let latest = stream.account.latest;
    let seconds = latest / 1000;
    let rest = latest % 1000;
    write!(text, "is lost: silent since {seconds}.{rest:03} s")
}

#[tactic(auto, unfolding(crate::specs::Sentences::priority_words))]
pub fn push_priority(text: &mut String, change: Change) -> Result<(), AllocError>
    ensures { OnOk result (string_bytes text.new ≡ string_bytes text.old ++ priority_words change) }
{
    let from = change.from;
    let to = change.to;
    write!(text, "priority {to}, before {from}")
}

/// Which number a source leaves out.
#[tactic(auto, unfolding(crate::specs::Sentences::omission_words))]
pub fn push_omission(text: &mut String, number: u8) -> Result<(), AllocError>
    ensures { OnOk result
        (string_bytes text.new ≡ string_bytes text.old ++ omission_words number) }
{
    write!(
        text,
        "leaves out number {number} at each turn, which isn't counted as skipped"
    )
}

#[tactic(auto, unfolding(crate::specs::Sentences::skipped_words))]
pub fn push_skipped(text: &mut String, news: &News) -> Result<(), AllocError>
    ensures { OnOk result
        (string_bytes text.new ≡ string_bytes text.old ++ skipped_words news.now.skipped) }
{
    match news.skipped {
        1 => text.push_str("skipped 1 number"),
        skipped => write!(text, "skipped {skipped} numbers"),
    }
}

/// Why a datagram is no packet, and from where it came.
#[tactic(auto, unfolding(crate::specs::Sentences::refused_words))]
pub fn push_refused(
    text: &mut String,
    sender: &Endpoint,
    fault: PacketFault,
) -> Result<(), AllocError>
    ensures { OnOk result
        (string_bytes text.new ≡ string_bytes text.old ++ refused_words sender.now fault) }
{
    text.push_str("from ")?;
    push_sender(text, sender)?;
    push_refusal(text, fault)
}

#[tactic(auto, unfolding(crate::specs::Sentences::refusal_words))]
fn push_refusal(text: &mut String, fault: PacketFault) -> Result<(), AllocError>
    ensures { OnOk result (string_bytes text.new ≡ string_bytes text.old ++ refusal_words fault) }
{
    text.push_str("  refused: ")?;
    text.push_str(fault_words(fault))
}

/// A packet of a source for which there is no room, and from where it came.
#[tactic(auto, unfolding(crate::specs::Sentences::untracked_words))]
pub fn push_untracked(text: &mut String, sender: &Endpoint) -> Result<(), AllocError>
    ensures { OnOk result
        (string_bytes text.new ≡ string_bytes text.old ++ untracked_words sender.now) }
{
    text.push_str("from ")?;
    push_sender(text, sender)?;
    text.push_str("  no room for a further source, not followed")
}

/// For how many milliseconds nothing was heard, since this program didn't run.
pub fn push_stop(text: &mut String, millis: u64) -> Result<(), AllocError>
    ensures { OnOk result (string_bytes text.new ≡ string_bytes text.old ++ stop_words millis) }
{
    text.push_str("not heard for ")?;
    push_stopped(text, millis)
}

#[tactic(auto, unfolding(crate::specs::Sentences::stopped_words))]
fn push_stopped(text: &mut String, millis: u64) -> Result<(), AllocError>
    ensures { OnOk result (string_bytes text.new ≡ string_bytes text.old ++ stopped_words millis) }
{
    push_seconds(text, millis)?;
    text.push_str(" s: this program was stopped")
}

/// Milliseconds as seconds, with three places behind the point.
#[tactic(auto, unfolding(crate::specs::Sentences::seconds_text), using(crate::proofs::Padding::zeros_is))]
pub fn push_seconds(text: &mut String, millis: u64) -> Result<(), AllocError>
    ensures { OnOk result (string_bytes text.new ≡ string_bytes text.old ++ seconds_text millis) }
{
    let seconds = millis / 1000;
    let rest = millis % 1000;
    write!(text, "{seconds}.{rest:03}")
}

/// A CID by its first two octets and its last one.
#[tactic(auto, unfolding(crate::specs::Sentences::short_cid))]
pub fn push_short_cid(text: &mut String, cid: &[u8; 16]) -> Result<(), AllocError>
    ensures { OnOk result (string_bytes text.new ≡ string_bytes text.old ++ short_cid cid.now) }
{
    push_digits(text, &[cid[0], cid[1]])?;
    text.push_str("..")?;
    push_digits(text, &[cid[15]])
}

/// A source on some of its universes, as a line names it.
#[derive(Clone, Copy)]
pub struct NamedSource<'a> {
    /// Its CID, a UUID (E1.31, 5.6).
    pub cid: &'a [u8; 16],
    /// Its name, up to the first NUL of the field (E1.31, 6.2.2).
    pub name: &'a [u8],
    /// The IPv4 address that it sends from.
    pub address: [u8; 4],
    /// The lowest priority at which it sends there, 0 to 200 (E1.31, 6.2.3).
    pub lowest: u8,
    /// The highest.
    pub highest: u8,
    /// The universes, ascending, each once.
    pub universes: &'a [u16],
}

/// A source on some of its universes, its name first, and what became of it: `"Desk" 0001..0f at 10.0.0.5, priority 100, universe 1:
/// came`, `"Desk" 0001..0f at 10.0.0.5, priorities 90-100, universes 1-4, 7: lost`.
///
/// Errors: OutOfMemory.
#[tactic(auto, unfolding(crate::specs::Sentences::named_source_words))]
pub fn push_named_source(
    text: &mut String,
    source: &NamedSource<'_>,
    word: &str,
) -> Result<(), AllocError>
    ensures { OnOk result (string_bytes text.new
        ≡ string_bytes text.old ++ named_source_words source.now word.now) }
{
    push_sender_named(text, source)?;
    text.push_str(", ")?;
    push_priorities(text, source.lowest, source.highest)?;
    text.push_str(", ")?;
    push_universes(text, source.universes)?;
    text.push_str(": ")?;
    text.push_str(word)
}

// A source, its name first, and where it sends from.
#[tactic(auto, unfolding(crate::specs::Sentences::named_sender))]
fn push_sender_named(text: &mut String, source: &NamedSource<'_>) -> Result<(), AllocError>
    ensures { OnOk result (string_bytes text.new
        ≡ string_bytes text.old ++ named_sender source.now) }
{
    push_name(text, source.name)?;
    text.push_str(" ")?;
    push_short_cid(text, source.cid)?;
    text.push_str(" at ")?;
    push_address(text, &source.address)
}

// The priorities from a lowest one to a highest.
#[tactic(auto, unfolding(crate::specs::Sentences::priorities_words))]
fn push_priorities(text: &mut String, lowest: u8, highest: u8) -> Result<(), AllocError>
    ensures { OnOk result (string_bytes text.new
        ≡ string_bytes text.old ++ priorities_words lowest highest) }
{
    if lowest == highest {
        return write!(text, "priority {lowest}");
    }
    write!(text, "priorities {lowest}-{highest}")
}

// Universes, as ranges where there are several.
#[tactic(auto, unfolding(crate::specs::Sentences::universes_words))]
fn push_universes(text: &mut String, universes: &[u16]) -> Result<(), AllocError>
    ensures { OnOk result (string_bytes text.new
        ≡ string_bytes text.old ++ universes_words universes.now) }
{
    let is_one = universes.len() == 1;
    text.push_str(if is_one { "universe " } else { "universes " })?;
    push_ranges(text, universes)
}
