//! Data packets written over octets (E1.31, 5, 6.2 and 7).

ghost use Rattle.std.specs.Prelude.{◌≡◌, ℕ, ◌+◌, ◌*◌, ◌≤◌, List, ◌++◌, length, take, drop, Ok};
ghost use Rattle.sacn_packets.specs.Fields.{data_from};
ghost use Rattle.sacn_packets.specs.FramingText.{bit, framing_head, nothing};
ghost use Rattle.sacn_packets.specs.PacketReading.{reading_packet};
ghost use Rattle.sacn_packets.specs.PacketText.{framing, data_text};
ghost use Rattle.sacn_packets.specs.declared.framing.packet.Packet.TheVariants.{DataPacket};

use crate::dmp::layout::VALUES_AT;
use crate::dmp::write_dmp;
use crate::framing::data::{PREVIEW_DATA, STREAM_TERMINATED};
use crate::framing::data_layer::DATA_PACKET_VECTOR;
use crate::framing::layout::{
    self, NAME_AT, OPTIONS_AT, PRIORITY_AT, SEQUENCE_NUMBER_AT, SYNCHRONIZATION_AT, UNIVERSE_AT,
    VECTOR_AT,
};
use crate::root::{DATA_VECTOR, pdu_field, put, write_root};

/// What a data packet is to say. `write_data` gives the ranges.
#[derive(Clone, Copy)]
pub struct DataFields<'a> {
    /// The component identifier, a UUID.
    pub cid: [u8; 16],
    /// The source name as `source_name` makes it, ended by NUL.
    pub name: [u8; 64],
    /// 0 to 200.
    pub priority: u8,
    /// The sequence number.
    pub number: u8,
    /// Preview_Data, option bit 7.
    pub preview: bool,
    /// Stream_Terminated, option bit 6.
    pub terminated: bool,
    /// 1 to 63999.
    pub universe: u16,
    /// The start code, 0 for levels.
    pub start: u8,
    /// At most 512 slots.
    pub slots: &'a [u8],
}

/// Synchronization address 0: the packet waits for no synchronization packet (6.2.4).
const NO_SYNCHRONIZATION: [u8; 2] = [0; 2];

/// Where the framing layer begins, and where the DMP layer does.
const FRAMING_AT: usize = crate::root::layout::BODY_AT;

const DMP_AT: usize = FRAMING_AT + layout::DMP_AT;

/// Writes the text of a data packet at the front, and returns its length in octets: 126, and one for
/// each slot. No other octets are written. The synchronization address and all other option bits are 0.
#[inline(always)]
pub fn write_data(fields: &DataFields<'_>, out: &mut [u8; 638]) -> usize
    requires priority { fields.now.priority ≤ 200 }
    requires least_universe { 1 ≤ fields.now.universe }
    requires most_universe { fields.now.universe ≤ 63999 }
    requires slots { length fields.now.slots.now ≤ 512 }
    ensures text { out.new ≡ data_text (data_from fields.now) nothing ++ drop result out.old }
    ensures len { result ≡ 126 + length fields.now.slots.now }
    // What was written, followed by anything, is read as these fields.
    ensures reading { (rest : List ℕ)
        → reading_packet (take result out.new ++ rest) ≡ Ok (DataPacket (data_from fields.now)) }
{
    let count = 1 + fields.slots.len();
    write_root(
        &mut out[..],
        DATA_VECTOR,
        &fields.cid,
        layout::DMP_AT + VALUES_AT + count,
    );
    write_framing(&mut out[FRAMING_AT..], fields, VALUES_AT + count);
    DMP_AT + write_dmp(&mut out[DMP_AT..], fields.start, fields.slots)
}

// All that stands before the DMP layer of `body_len` octets.
fn write_framing(out: &mut [u8], fields: &DataFields<'_>, body_len: usize)
    requires room { 77 ≤ length out.old }
    requires body { body_len ≤ 4018 }
    ensures { out.new
        ≡ framing_head (framing (data_from fields.now)) nothing body_len ++ drop 77 out.old }
{
    // A copy of its own lies apart from the octets that are written, so it is put by a few stores.
    let name = fields.name;
    put(out, 0, &pdu_field(layout::DMP_AT + body_len));
    put(out, VECTOR_AT, &DATA_PACKET_VECTOR.to_be_bytes());
    put(out, NAME_AT, &name);
    put(out, PRIORITY_AT, &[fields.priority]);
    put(out, SYNCHRONIZATION_AT, &NO_SYNCHRONIZATION);
    put(out, SEQUENCE_NUMBER_AT, &[fields.number]);
    put(
        out,
        OPTIONS_AT,
        &[options_of(fields.preview, fields.terminated)],
    );
    put(out, UNIVERSE_AT, &fields.universe.to_be_bytes());
}

fn options_of(preview: bool, terminated: bool) -> u8
    ensures { result ≡ 128 * bit preview + 64 * bit terminated }
{
    let preview = if preview { PREVIEW_DATA } else { 0 };
    let terminated = if terminated { STREAM_TERMINATED } else { 0 };
    preview | terminated
}
