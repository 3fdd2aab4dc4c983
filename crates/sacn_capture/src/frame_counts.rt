//! What the frames of a recording were.

ghost use Rattle.std.specs.Prelude.{◌≡◌};
ghost use Rattle.sacn_capture.specs.Counting.{count_frame, none_counted, passed_for, passed_of};

use crate::frame::Datagram;
use crate::links::Passed;

/// How many frames there were of each kind. Each count stops at 2^64 - 1.
#[derive(Clone, Copy, PartialEq, Eq)]
pub struct FrameCounts {
    /// Frames with a datagram.
    pub datagrams: u64,
    pub not_ip: u64,
    pub ipv6: u64,
    pub not_ipv4: u64,
    pub not_udp: u64,
    pub fragments: u64,
    pub cut: u64,
    /// Frames of a link that isn't read here.
    pub other_links: u64,
    /// Frames longer than 65,535 octets.
    pub too_long: u64,
}

impl FrameCounts {
    /// No frame yet.
    pub fn new() -> Self
        ensures { result ≡ none_counted }
    {
        FrameCounts {
            datagrams: 0,
            not_ip: 0,
            ipv6: 0,
            not_ipv4: 0,
            not_udp: 0,
            fragments: 0,
            cut: 0,
            other_links: 0,
            too_long: 0,
        }
    }

    /// One more frame.
    pub fn add(&mut self, content: &Result<Datagram<'_>, Passed>)
        ensures { self.new ≡ count_frame (passed_of content.now) self.old }
    {
        match content {
            Ok(_) => self.count(None),
            Err(passed) => self.count(Some(*passed)),
        }
    }

    /// The frames that were passed over for a reason.
    pub fn passed_for(&self, reason: Passed) -> u64
        ensures { result ≡ passed_for reason self.now }
    {
        match reason {
            Passed::NotIp => self.not_ip,
            Passed::Ipv6 => self.ipv6,
            Passed::NotIpv4 => self.not_ipv4,
            Passed::NotUdp => self.not_udp,
            Passed::Fragment => self.fragments,
            Passed::Cut => self.cut,
            Passed::OtherLink => self.other_links,
            Passed::TooLong => self.too_long,
        }
    }

    /// One more frame, by why it is passed over, where it is.
    pub(crate) fn count(&mut self, passed: Option<Passed>)
        ensures { self.new ≡ count_frame passed self.old }
    {
        match passed {
            None => self.datagrams = self.datagrams.saturating_add(1),
            Some(Passed::NotIp) => self.not_ip = self.not_ip.saturating_add(1),
            Some(Passed::Ipv6) => self.ipv6 = self.ipv6.saturating_add(1),
            Some(Passed::NotIpv4) => self.not_ipv4 = self.not_ipv4.saturating_add(1),
            Some(Passed::NotUdp) => self.not_udp = self.not_udp.saturating_add(1),
            Some(Passed::Fragment) => self.fragments = self.fragments.saturating_add(1),
            Some(Passed::Cut) => self.cut = self.cut.saturating_add(1),
            Some(Passed::OtherLink) => self.other_links = self.other_links.saturating_add(1),
            Some(Passed::TooLong) => self.too_long = self.too_long.saturating_add(1),
        }
    }
}
