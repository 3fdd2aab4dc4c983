//! What an audit looks at of one data packet, beside its slots.

ghost use Rattle.std.specs.Prelude.{◌≡◌, ◌==◌, ◌&&◌, not};
ghost use Rattle.std.specs.List.{list_any};
ghost use Rattle.std.specs.Str.{is_utf8};
ghost use Rattle.sacn_audit.specs.Audits.{carries_on, sight_of, is_after};

use crate::delivery::Delivery;
use crate::groups::is_other_group;
use crate::limits::PRIORITY_START_CODE;
use crate::number_habits::number_after;
use sacn_packets::{DataView, NULL_START_CODE};

/// What an audit looks at of one data packet, beside its slots.
#[derive(Clone, Copy, PartialEq, Eq)]
pub struct Sight {
    /// The sequence number (E1.31, 6.2.5).
    pub number: u8,
    /// Whether it ends the stream: Stream_Terminated (E1.31, 6.2.6).
    pub terminated: bool,
    /// The start code of DMX512-A, 0 for levels (E1.31, 7.7).
    pub start: u8,
    /// Whether the field of the source's name has a NUL (E1.31, 6.2.2).
    pub is_name_ended: bool,
    /// Whether the source's name is UTF-8 (E1.31, 6.2.2).
    pub is_name_text: bool,
    /// Whether it was sent to another multicast group than that of its universe (E1.31, 9.3.1).
    pub is_to_other_group: bool,
    /// Whether a reserved bit of its options is set (E1.31, 6.2.6).
    pub has_reserved_bits: bool,
}

impl Sight {
    /// What is seen of a packet and of what came with it.
    pub fn of(delivery: Delivery, packet: &DataView<'_>) -> Self
        ensures { result ≡ sight_of delivery packet.now }
    {
        Sight {
            number: packet.number(),
            terminated: packet.terminated(),
            start: packet.start(),
            is_name_ended: has_nul(packet.name_field()),
            is_name_text: is_text(packet.name()),
            is_to_other_group: is_other_group(&delivery.destination, packet.universe()),
            has_reserved_bits: delivery.has_reserved_bits(),
        }
    }

    /// Whether it has the number after that of an earlier packet: nothing was lost in between.
    pub(crate) fn is_after(self, earlier: Self) -> bool
        ensures { result ≡ is_after earlier self }
    {
        self.number == number_after(earlier.number)
    }

    /// Whether it comes right after an earlier packet, and both have levels of a stream that goes on.
    pub(crate) fn carries_on(self, earlier: Self) -> bool
        ensures { result ≡ carries_on earlier self }
    {
        self.is_after(earlier) & !earlier.terminated & (earlier.start == 0) & (self.start == 0)
    }

    /// Whether it has neither levels nor priorities for slots.
    pub(crate) fn has_other_start(self) -> bool
        ensures { result ≡ not (self.start == 0) && not (self.start == 221) }
    {
        (self.start != NULL_START_CODE) & (self.start != PRIORITY_START_CODE)
    }
}

// Whether they are UTF-8.
fn is_text(octets: &[u8]) -> bool
    ensures { result ≡ is_utf8 octets.now }
{
    match str::from_utf8(octets) {
        Ok(_) => true,
        Err(_) => false,
    }
}

fn has_nul(field: &[u8]) -> bool
    ensures { result ≡ list_any (λ octet. octet == 0) field.now }
{
    field.contains(&0)
}
