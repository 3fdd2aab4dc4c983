//! What C is told of a datagram that a monitor hears, and of a source on a universe.
ghost use Rattle.std.specs.Prelude.{◌≡◌};
ghost use Rattle.sacn_c.specs.Hearing.{sender_of, news_told, nothing_told, heard_told, noted_number, noted_status, state_number, event_number, stream_told};

use crate::status::DONE;
use sacn_monitor::{Endpoint, News, Noted, Stream, StreamEvent, StreamState};

/// Where a datagram came from. `sacn.h` says what each field means.
#[repr(C)]
#[derive(Clone, Copy)]
pub struct SenderFields {
    pub address: [u8; 4],
    pub port: u16,
}

/// What a monitor tells of a datagram. `sacn.h` says what each field means.
#[repr(C)]
#[derive(Clone, Copy)]
pub struct NewsFields {
    pub place: usize,
    pub noted: u8,
    pub event: u8,
    pub skipped: u8,
    pub began_anew: u8,
    pub renamed: u8,
    pub moved: u8,
    pub priority_from: u8,
    pub priority_to: u8,
}

/// The account of a source on a universe. `sacn.h` says what each field means.
#[repr(C)]
#[derive(Clone, Copy)]
pub struct StreamFields {
    pub first: u64,
    pub latest: u64,
    pub live: u64,
    pub previews: u64,
    pub terminations: u64,
    pub others: u64,
    pub skipped: u64,
    pub late: u64,
    pub repeats: u64,
    pub greatest_gap: u64,
    pub last_second: u64,
    pub universe: u16,
    pub port: u16,
    pub address: [u8; 4],
    pub priority: u8,
    pub number: u8,
    pub state: u8,
    pub unused: u8,
    pub unused_too: [u8; 4],
    pub cid: [u8; 16],
    pub name: [u8; 64],
}

/// The sender that C names.
pub(crate) fn sender_of(fields: &SenderFields) -> Endpoint
    ensures { result ≡ sender_of fields.now }
{
    let address = fields.address;
    let port = fields.port;
    Endpoint { address, port }
}

/// Tells C of a datagram. The status is the fault of one that is no packet.
pub(crate) fn tell(noted: &Noted, fields: &mut NewsFields) -> u32
    ensures status { result ≡ noted_status noted.now }
    ensures news { fields.new ≡ news_told noted.now }
{
    // (first, and by reference: so what is heard is taken over without a table of jumps or a copy)
    if let Noted::Heard(place, news) = noted {
        put_heard(*place, news, fields);
        return DONE;
    }
    *fields = nothing_told(noted_number(noted));
    noted_status(noted)
}

fn noted_status(noted: &Noted) -> u32
    ensures { result ≡ noted_status noted.now }
{
    match noted {
        Noted::Refused(fault) => u32::from(fault.number()),
        _ => DONE,
    }
}

fn noted_number(noted: &Noted) -> u8
    ensures { result ≡ noted_number noted.now }
{
    match noted {
        Noted::Refused(_) => 0,
        Noted::Page => 1,
        Noted::Sync => 2,
        Noted::Untracked => 3,
        Noted::Heard(_, _) => 4,
    }
}

fn nothing_told(noted: u8) -> NewsFields
    ensures { result ≡ nothing_told noted }
{
    NewsFields {
        place: 0,
        noted,
        event: 0,
        skipped: 0,
        began_anew: 0,
        renamed: 0,
        moved: 0,
        priority_from: 0,
        priority_to: 0,
    }
}

fn put_heard(place: usize, news: &News, fields: &mut NewsFields)
    ensures { fields.new ≡ heard_told place news.now }
{
    *fields = NewsFields {
        place,
        noted: 4,
        event: event_number(news.event),
        skipped: news.skipped,
        began_anew: u8::from(news.began_anew),
        renamed: u8::from(news.renamed),
        moved: u8::from(news.moved),
        priority_from: 0,
        priority_to: 0,
    };
    // (written over, and not chosen: a change is rare, and a branch that is foreseen costs less than two choices)
    if let Some(change) = &news.priority {
        fields.priority_from = change.from;
        fields.priority_to = change.to;
    }
}

fn event_number(event: StreamEvent) -> u8
    ensures { result ≡ event_number event }
{
    match event {
        StreamEvent::GoesOn => 1,
        StreamEvent::Appeared => 2,
        StreamEvent::CameBack => 3,
        StreamEvent::Ended => 4,
        StreamEvent::OutOfSequence => 5,
        StreamEvent::Repeated => 6,
    }
}

fn state_number(state: StreamState) -> u8
    ensures { result ≡ state_number state }
{
    match state {
        StreamState::Sending => 1,
        StreamState::Ended => 2,
        StreamState::Lost => 3,
    }
}

/// What C is told of a stream, at a moment.
pub(crate) fn stream_told(moment: u64, stream: &Stream) -> StreamFields
    ensures { result ≡ stream_told moment stream.now }
{
    let account = stream.account;
    StreamFields {
        first: account.first,
        latest: account.latest,
        live: account.kinds.live,
        previews: account.kinds.previews,
        terminations: account.kinds.terminations,
        others: account.kinds.others,
        skipped: account.skipped,
        late: account.late,
        repeats: account.repeats,
        greatest_gap: account.greatest_gap,
        last_second: account.rate.last_second(moment),
        universe: stream.universe,
        port: account.sender.port,
        address: account.sender.address,
        priority: account.priority,
        number: account.sequence_number,
        state: state_number(stream.state(moment)),
        unused: 0,
        unused_too: [0; 4],
        cid: stream.cid,
        name: account.name,
    }
}
