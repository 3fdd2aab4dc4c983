//! An audit of what is heard as it comes.
use crate::explain::form_of;
use sacn_audit::{Audit, Delivery};
use sacn_findings::{push_objects, push_text, push_unread_objects};
use sacn_monitor::Endpoint;
use sacn_packets::{Packet, Reading};
use sacn_tell::Form;
use sacn_watch::{WatchFault, Watcher};
use std::alloc::{AllocError, Global};

/// So many pages of universe discovery at most are audited in `SPAN` milliseconds: each is looked at beside all streams, and who floods a
/// port with pages is not to hold up what is heard. A thousand sources send a hundred pages a second (E1.31, 8).
const MOST_PAGES: u32 = 10;

const SPAN: u64 = 50;

/// An audit of what is heard live.
#[derive(Drop)]
pub struct LiveAudit {
    audit: Audit,
    /// When the span began in which pages are counted, and how many came in it.
    span: u64,
    pages: u32,
}

impl LiveAudit {
    /// Nothing was heard yet.
    ///
    /// Errors: a request for memory was refused.
    pub fn new(alloc: Global) -> Result<Self, AllocError> {
        Ok(LiveAudit {
            audit: Audit::new(alloc)?,
            span: 0,
            pages: 0,
        })
    }

    /// Audits what a datagram was read as.
    pub fn hear(&mut self, now: u64, sender: Endpoint, reading: &Reading<'_>) {
        if is_page(reading) && !self.has_room(now) {
            return;
        }
        hear(&mut self.audit, now, sender.address, UNKNOWN, reading);
    }

    // Whether a page is audited that comes now.
    fn has_room(&mut self, now: u64) -> bool {
        if now.saturating_sub(self.span) >= SPAN {
            self.span = now;
            self.pages = 0;
        }
        self.pages = self.pages.saturating_add(1);
        self.pages <= MOST_PAGES
    }

    /// What was found so far.
    pub fn audit(&self) -> &Audit {
        &self.audit
    }
}

fn is_page(reading: &Reading<'_>) -> bool {
    match reading {
        Ok(Packet::PagePacket(_)) => true,
        _ => false,
    }
}

/// An audit of what is heard, and what else takes it.
#[derive(Drop)]
pub struct Auditing<W> {
    audit: LiveAudit,
    viewers: W,
}

impl<W: Watcher + Drop> Auditing<W> {
    /// Nothing was heard yet.
    ///
    /// Errors: a request for memory was refused.
    pub fn new(alloc: Global, viewers: W) -> Result<Self, AllocError> {
        Ok(Auditing {
            audit: LiveAudit::new(alloc)?,
            viewers,
        })
    }

    /// What was found so far: for each source the rules that its packets broke, as text or as objects of JSON.
    ///
    /// Errors: a request for memory was refused.
    pub fn findings(&self, alloc: Global, is_json: bool) -> Result<String, AllocError> {
        findings_of(alloc, self.audit.audit(), form_of(is_json))
    }
}

/// What an audit found, in a form.
///
/// Errors: a request for memory was refused.
pub fn findings_of(alloc: Global, audit: &Audit, form: Form) -> Result<String, AllocError> {
    let mut text = String::new(alloc);
    match form {
        Form::Json => {
            push_objects(alloc, &mut text, audit)?;
            push_unread_objects(&mut text, audit)?;
        }
        Form::Text => {
            push_text(alloc, &mut text, audit)?;
        }
    }
    Ok(text)
}

/// Audits what a datagram was read as: it came at a moment from an IPv4 address, and was sent to another one.
pub fn hear(
    audit: &mut Audit,
    now: u64,
    sender: [u8; 4],
    destination: [u8; 4],
    reading: &Reading<'_>,
) {
    match reading {
        Ok(Packet::DataPacket(packet)) => {
            audit.hear(now, sender, Delivery::of(destination, packet), packet)
        }
        Ok(Packet::PagePacket(page)) => audit.hear_page(now, sender, page),
        Ok(Packet::SyncPacket) => {}
        Err(fault) => audit.hear_refused(now, sender, *fault),
    }
}

/// Where a datagram that is heard live was sent: that isn't known, and this is no group's address.
const UNKNOWN: [u8; 4] = [0; 4];

impl<W: Watcher + Drop> Watcher for Auditing<W> {
    fn take(
        &mut self,
        now: u64,
        sender: Endpoint,
        reading: &Reading<'_>,
    ) -> Result<(), WatchFault> {
        self.audit.hear(now, sender, reading);
        self.viewers.take(now, sender, reading)
    }

    fn note_stop(&mut self, now: u64, millis: u64) -> Result<(), WatchFault> {
        self.viewers.note_stop(now, millis)
    }

    fn show(&mut self, now: u64) -> Result<(), WatchFault> {
        self.viewers.show(now)
    }

    fn wakes(&self) -> u64 {
        self.viewers.wakes()
    }

    fn end(&mut self, now: u64) -> Result<(), WatchFault> {
        self.viewers.end(now)
    }
}

/// Nobody looks.
#[derive(Drop)]
pub struct Unviewed;

impl Watcher for Unviewed {
    fn take(
        &mut self,
        _now: u64,
        _sender: Endpoint,
        _reading: &Reading<'_>,
    ) -> Result<(), WatchFault> {
        Ok(())
    }

    fn note_stop(&mut self, _now: u64, _millis: u64) -> Result<(), WatchFault> {
        Ok(())
    }

    fn show(&mut self, _now: u64) -> Result<(), WatchFault> {
        Ok(())
    }

    fn wakes(&self) -> u64 {
        u64::MAX
    }

    fn end(&mut self, _now: u64) -> Result<(), WatchFault> {
        Ok(())
    }
}
