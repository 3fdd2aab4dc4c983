//! A data packet, lent out of the datagram that it was read from.

ghost use Rattle.std.specs.Prelude.{◌≡◌, ◌==◌, ◌≤◌, length};
ghost use Rattle.std.specs.List.{before_first};
ghost use Rattle.sacn_packets.specs.Data.{Data, frame_of, frame_with};
ghost use Rattle.sacn_packets.specs.FramingText.{is_set};

use crate::dmp::layout::VALUES_AT;
use crate::framing::layers::{cid_in, name_field_in, name_in, packet_end};
use crate::framing::layout;
use crate::framing::names::up_to_nul;
use crate::root::layout::BODY_AT;
use crate::root::u16_at;
use std::marker::Model;

/// Where the fields stand among all octets of the packet.
const PRIORITY_AT: usize = BODY_AT + layout::PRIORITY_AT;

const NUMBER_AT: usize = BODY_AT + layout::SEQUENCE_NUMBER_AT;

const OPTIONS_AT: usize = BODY_AT + layout::OPTIONS_AT;

const UNIVERSE_AT: usize = BODY_AT + layout::UNIVERSE_AT;

/// Where the property values begin: with the start code.
const START_AT: usize = BODY_AT + layout::DMP_AT + VALUES_AT;

/// A data packet (E1.31, 6.2 and 7), lent out of the datagram that it was read from. It has the datagram's octets, whose
/// checks have passed, and reads each field where it stands.
///
/// Its value is the record `Data` of its fields; all 64 octets of the source name belong to it.
/// What the profile ignores (synchronization address, Force_Synchronization and the reserved
/// option bits) isn't there.
#[derive(Clone, Drop)]
pub struct DataView<'a> {
    pub(crate) octets: &'a [u8],
}

impl<'a> Model for DataView<'a> {
    ghost use Rattle.sacn_packets.specs.Data.{Data};

    ghost Value = { Data };

    ghost use Rattle.sacn_packets.specs.DataViews.{data_of_view, IsShown};

    ghost view = { data_of_view };

    ghost invariant = { IsShown };
}

impl<'a> DataView<'a> {
    /// The sender's component identifier, a UUID (5.6).
    pub fn cid(&self) -> [u8; 16]
        ensures { result ≡ self.now.cid }
    {
        cid_in(self.octets)
    }

    /// The source's name (6.2.2): the octets up to the first NUL, or all 64.
    pub fn name(&self) -> &'a [u8]
        ensures { result.now ≡ before_first (λ octet. octet == 0) self.now.name }
    {
        up_to_nul(name_in(self.octets))
    }

    /// The whole field of the source's name (6.2.2): the name's octets, and behind its first NUL whatever the sender left there.
    pub fn name_field(&self) -> &'a [u8; 64]
        ensures { result.now ≡ self.now.name }
    {
        name_field_in(self.octets)
    }

    /// The priority (6.2.3), 0 to 200. Nodes follow the sources of the greatest.
    pub fn priority(&self) -> u8
        ensures priority { result ≡ self.now.priority }
        ensures bound { result ≤ 200 }
    {
        self.octets[PRIORITY_AT]
    }

    /// The sequence number (6.2.5), one sequence for each source and universe.
    pub fn number(&self) -> u8
        ensures { result ≡ self.now.number }
    {
        self.octets[NUMBER_AT]
    }

    /// Option bit 7, Preview_Data: the levels aren't for the stage (6.2.6).
    pub fn preview(&self) -> bool
        ensures { result ≡ self.now.preview }
    {
        is_preview(self.octets[OPTIONS_AT])
    }

    /// Option bit 6, Stream_Terminated: the source has stopped sending this universe (6.2.6).
    pub fn terminated(&self) -> bool
        ensures { result ≡ self.now.terminated }
    {
        is_terminated(self.octets[OPTIONS_AT])
    }

    /// The octet of options as it came (6.2.6): bits 7 and 6 as `preview` and `terminated` tell, bit 5 is Force_Synchronization, and the
    /// others are reserved, and sent as 0.
    pub fn options(&self) -> u8
        ensures preview { is_set result 7 ≡ self.now.preview }
        ensures terminated { is_set result 6 ≡ self.now.terminated }
    {
        self.octets[OPTIONS_AT]
    }

    /// The universe (6.2.7), 1 to 63999.
    pub fn universe(&self) -> u16
        ensures universe { result ≡ self.now.universe }
        ensures least { 1 ≤ result }
        ensures most { result ≤ 63999 }
    {
        u16_at(self.octets, UNIVERSE_AT)
    }

    /// The start code of DMX512-A, 0 for levels (7.7).
    pub fn start(&self) -> u8
        ensures { result ≡ self.now.start }
    {
        self.octets[START_AT]
    }

    /// The slots that were given, at most 512, from slot 1 on (7.7).
    pub fn slots(&self) -> &'a [u8]
        ensures slots { result.now ≡ self.now.slots }
        ensures bound { length result.now ≤ 512 }
    {
        &self.octets[START_AT + 1..packet_end(self.octets)]
    }

    /// Copies the packet's frame: the start code, the slots, and 0 in each slot that was not given.
    pub fn frame_into(&self, frame: &mut [u8; 513])
        ensures { frame.new ≡ frame_of self.now }
    {
        fill_frame(self.start(), self.slots(), frame);
    }
}

fn fill_frame(start: u8, slots: &[u8], frame: &mut [u8; 513])
    requires { length slots.now ≤ 512 }
    ensures { frame.new ≡ frame_with start slots.now }
{
    *frame = [0; 513];
    frame[0] = start;
    frame[1..1 + slots.len()].copy_from_slice(slots);
}

// The options octet of a data packet (E1.31, 6.2.6).

/// Bit 7: the levels are for a preview and not for the stage.
pub const PREVIEW_DATA: u8 = 0x80;

/// Bit 6: the source has stopped sending this universe.
pub const STREAM_TERMINATED: u8 = 0x40;

#[tactic(auto, using(crate::proofs::OptionBits::is_bit_7))]
pub fn is_preview(options: u8) -> bool
    ensures { result ≡ is_set options 7 }
{
    options & PREVIEW_DATA != 0
}

#[tactic(auto, using(crate::proofs::OptionBits::is_bit_6))]
pub fn is_terminated(options: u8) -> bool
    ensures { result ≡ is_set options 6 }
{
    options & STREAM_TERMINATED != 0
}
