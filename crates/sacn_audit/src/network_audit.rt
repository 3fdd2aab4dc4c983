//! The audits of all streams of a network.

ghost use Rattle.std.specs.Prelude.{◌≡◌, IfOk};
ghost use Rattle.sacn_audit.specs.Networks.{after_heard, after_page, after_refused, nothing_heard, passed_over};

use crate::delivery::Delivery;
use crate::page_verdict::PageVerdict;
use crate::refused::{RefusedPackets, RefusedRegister};
use crate::source::SourceAudit;
use crate::source_register::SourceRegister;
use crate::stream_register::{AuditedStream, StreamRegister};
use sacn_packets::{DataView, PacketFault, PageView};
use std::alloc::{AllocError, Global};
use std::marker::Model;

/// Which rules the packets of a network break, for up to `MAX_STREAMS` streams, of up to `MAX_STREAMS` sources; and what can't be
/// read, for up to `MAX_REFUSED` pairs of a sender and a fault.
///
/// Its value is the lists of the streams, of the sources and of these pairs, each in the order in which they appeared, and the counts
/// of the packets and pages of further streams and sources, and of further pairs. No call but `new` takes memory.
#[derive(Drop)]
pub struct Audit {
    streams: StreamRegister,
    sources: SourceRegister,
    untracked: u64,
    refused: RefusedRegister,
    refused_untracked: u64,
}

impl Model for Audit {
    ghost use Rattle.sacn_audit.specs.Networks.{Network};

    ghost Value = { Network };

    ghost view = { λ a. record { streams = a.streams; sources = a.sources; untracked = a.untracked; refused = a.refused; refused_untracked = a.refused_untracked } };
}

impl Audit {
    /// An audit that has heard nothing, with all its room taken in five requests: about 1.3 MB.
    ///
    /// Errors: a request for memory was refused.
    pub fn new(alloc: Global) -> Result<Self, AllocError>
        ensures { IfOk result (λ a. a ≡ nothing_heard) }
    {
        Ok(Audit {
            streams: StreamRegister::new(alloc)?,
            sources: SourceRegister::new(alloc)?,
            untracked: 0,
            refused: RefusedRegister::new(alloc)?,
            refused_untracked: 0,
        })
    }

    /// A packet that came at a moment, in milliseconds, from an IPv4 address, and that was sent to another one. Moments are handed in so that of one source none is before
    /// an earlier one; one that is counts as the latest of its stream, and of its source.
    pub fn hear(&mut self, moment: u64, address: [u8; 4], delivery: Delivery, packet: &DataView<'_>)
        ensures { self.new ≡ after_heard moment address delivery packet.now self.old }
    {
        let is_tracked = self.streams.hear(moment, delivery, packet);
        let is_known = self.sources.hear(moment, address, packet);
        self.untracked = passed_over(is_tracked & is_known, self.untracked);
    }

    /// A page of universe discovery (E1.31, 8), likewise: of a source that sends pages alone, too. What it says is looked at beside the streams
    /// that are heard, where none of them is untracked.
    pub fn hear_page(&mut self, moment: u64, address: [u8; 4], page: &PageView<'_>)
        ensures { self.new ≡ after_page moment address page.now self.old }
    {
        let verdict = PageVerdict::of(moment, page, self.untracked, self.streams.as_slice());
        let is_known = self.sources.hear_page(moment, address, page, verdict);
        self.untracked = passed_over(is_known, self.untracked);
    }

    /// A datagram that is no packet, since it fails a check: when it came, in milliseconds, and from which IPv4 address. Moments are
    /// handed in so that none is before an earlier one.
    pub fn hear_refused(&mut self, moment: u64, address: [u8; 4], fault: PacketFault)
        ensures { self.new ≡ after_refused moment address fault self.old }
    {
        if !self.refused.hear(moment, address, fault) {
            self.refused_untracked = self.refused_untracked.saturating_add(1);
        }
    }

    /// The streams, in the order in which they appeared.
    pub fn streams(&self) -> &[AuditedStream]
        ensures { result.now ≡ self.now.streams }
    {
        self.streams.as_slice()
    }

    /// The sources, in the order in which they appeared.
    pub fn sources(&self) -> &[SourceAudit]
        ensures { result.now ≡ self.now.sources }
    {
        self.sources.as_slice()
    }

    /// The packets of streams, and the packets and pages of sources, for which there was no room, at most 2^64 - 1.
    pub fn untracked(&self) -> u64
        ensures { result ≡ self.now.untracked }
    {
        self.untracked
    }

    /// What can't be read, by its sender and its fault, in the order in which these pairs appeared.
    pub fn refused(&self) -> &[RefusedPackets]
        ensures { result.now ≡ self.now.refused }
    {
        self.refused.as_slice()
    }

    /// The datagrams that can't be read of pairs for which there was no room, at most 2^64 - 1.
    pub fn refused_untracked(&self) -> u64
        ensures { result ≡ self.now.refused_untracked }
    {
        self.refused_untracked
    }
}

// How many packets and pages there was no room for, after one more.
fn passed_over(is_taken: bool, untracked: u64) -> u64
    ensures { result ≡ passed_over is_taken untracked }
{
    if is_taken {
        untracked
    } else {
        untracked.saturating_add(1)
    }
}
