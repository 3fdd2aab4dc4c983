//! Packets, for C.
ghost use Rattle.std.specs.Prelude.{◌≡◌, ◌↔◌, ◌≤◌, ◌==◌, ◌+◌, ◌-◌, ◌%◌, ◌++◌, ◌∷◌, [], List, ℕ, length, take, drop, not, IfOk, IfErr, Ok, if◌then◌else◌};
ghost use Rattle.sacn_packets.specs.Naming.{group_of};
ghost use Rattle.sacn_sources.specs.Sequence.{is_late, IsOutOfSequence};
ghost use Rattle.sacn_packets.specs.FramingText.{nothing};
ghost use Rattle.sacn_packets.specs.PacketReading.{reading_packet};
ghost use Rattle.sacn_packets.specs.PacketText.{Reads, data_text};
ghost use Rattle.sacn_packets.specs.declared.framing.packet.Packet.{Packet};
ghost use Rattle.sacn_packets.specs.declared.framing.packet.Packet.TheVariants.{DataPacket};
ghost use Rattle.sacn_monitor.specs.Accounts.{fitted};
ghost use Rattle.sacn_c.specs.Packets.{packet_status, write_status, Tells, AskFor, fields_with, fields_after, ShowsFrame, bit_of, text_of, written};
ghost use Rattle.sacn_c.specs.declared.status.TheConstants.{DONE};

use crate::reading::packet_at;
use crate::status::DONE;
use sacn_packets::{
    DataFields, DataView, MAX_PRIORITY, MAX_UNIVERSE, Packet, PacketFault, PageView,
    multicast_group, put, up_to_nul, write_data,
};
use sacn_sources::in_sequence;

/// What a packet says, but its slots and universe numbers. `sacn.h` says what each field means.
#[repr(C)]
#[derive(Clone, Copy)]
pub struct PacketFields {
    pub kind: u8,
    pub priority: u8,
    pub number: u8,
    pub preview: u8,
    pub terminated: u8,
    pub start: u8,
    pub page: u8,
    pub last: u8,
    pub universe: u16,
    pub count: u16,
    pub cid: [u8; 16],
    pub name: [u8; 64],
}

fn put_data(view: &DataView<'_>, packet: &mut PacketFields)
    ensures told { Tells packet.new (DataPacket view.now) }
    ensures others { packet.new ≡ fields_with packet.old (DataPacket view.now) }
{
    // The whole field, whose length is known, costs less than a look for the name's end would.
    packet.name = *view.name_field();
    packet.kind = 1;
    packet.cid = view.cid();
    packet.priority = view.priority();
    packet.number = view.number();
    packet.preview = u8::from(view.preview());
    packet.terminated = u8::from(view.terminated());
    packet.universe = view.universe();
    packet.start = view.start();
    packet.count = view.slots().len() as u16;
}

fn put_page(page: &PageView<'_>, packet: &mut PacketFields)
    ensures told { Tells packet.new (Packet.PagePacket page.now) }
    ensures others { packet.new ≡ fields_with packet.old (Packet.PagePacket page.now) }
{
    packet.name = *page.name_field();
    packet.kind = 2;
    packet.cid = page.cid();
    packet.page = page.page();
    packet.last = page.last();
    packet.count = page.count() as u16;
}

/// Reads a packet, as `read_packet`. The status is the fault's number.
#[unsafe(no_mangle)]
#[tactic(auto, using(crate::proofs::StatusFields::only_told, crate::proofs::StatusFields::asked_again))]
pub extern "C" fn sacn_proved_read_packet(octets: &[u8], packet: &mut PacketFields) -> u32
    // What is told stands there.
    ensures found { IfOk (reading_packet octets.now) (Reads octets.now) }
    // What stands there is told.
    ensures only { (p : Packet) → Reads octets.now p
        → (result ≡ DONE) × (packet.new ≡ fields_with packet.old p) }
    ensures status { result ≡ packet_status (reading_packet octets.now) }
    ensures fields { IfOk (reading_packet octets.now) (Tells packet.new) }
    ensures others { packet.new ≡ fields_after packet.old (reading_packet octets.now) }
    // What was read can be written again.
    ensures again { IfOk (reading_packet octets.now) (λ p. AskFor p packet.new) }
{
    match packet_at(octets) {
        Ok(Packet::DataPacket(data)) => {
            put_data(&data, packet);
            DONE
        }
        Ok(Packet::PagePacket(page)) => {
            put_page(&page, packet);
            DONE
        }
        Ok(Packet::SyncPacket) => {
            packet.kind = 3;
            DONE
        }
        Err(status) => status,
    }
}

/// The same, and the frame of a data packet: its start code, and then its slots, 0 where none is given.
#[unsafe(no_mangle)]
#[tactic(auto, using(crate::proofs::StatusFields::only_told, crate::proofs::StatusFields::asked_again))]
pub extern "C" fn sacn_proved_read_data(
    octets: &[u8],
    packet: &mut PacketFields,
    frame: &mut [u8; 513],
) -> u32
    // What is told stands there.
    ensures found { IfOk (reading_packet octets.now) (Reads octets.now) }
    // What stands there is told.
    ensures only { (p : Packet) → Reads octets.now p
        → (result ≡ DONE) × (packet.new ≡ fields_with packet.old p) }
    ensures status { result ≡ packet_status (reading_packet octets.now) }
    ensures fields { IfOk (reading_packet octets.now) (Tells packet.new) }
    ensures others { packet.new ≡ fields_after packet.old (reading_packet octets.now) }
    // What was read can be written again.
    ensures again { IfOk (reading_packet octets.now) (λ p. AskFor p packet.new) }
    ensures frame { IfOk (reading_packet octets.now) (ShowsFrame frame.old frame.new) }
    ensures unwritten { IfErr (reading_packet octets.now) (λ fault. frame.new ≡ frame.old) }
{
    match packet_at(octets) {
        Ok(Packet::DataPacket(data)) => {
            put_data(&data, packet);
            data.frame_into(frame);
            DONE
        }
        Ok(Packet::PagePacket(page)) => {
            put_page(&page, packet);
            DONE
        }
        Ok(Packet::SyncPacket) => {
            packet.kind = 3;
            DONE
        }
        Err(status) => status,
    }
}

/// Writes a data packet, as `write_data`. The status is the fault of the first field that is out of range: priority, universe, slots.
#[unsafe(no_mangle)]
pub extern "C" fn sacn_proved_write_data(
    packet: &PacketFields,
    slots: &[u8],
    out: &mut [u8; 638],
    count: &mut usize,
) -> u32
    ensures octets { result ≡ DONE
        → out.new ≡ data_text (written packet.now slots.now) nothing ++ drop count.new out.old }
    ensures reading { result ≡ DONE → (rest : List ℕ) → reading_packet
        (take count.new out.new ++ rest) ≡ Ok (DataPacket (written packet.now slots.now)) }
    ensures refused { (result ≡ DONE → ⊥) → out.new ≡ out.old }
    ensures status { result ≡ write_status packet.now slots.now }
    ensures count { count.new ≡ (if result == DONE then 126 + length slots.now else count.old) }
{
    if packet.priority > MAX_PRIORITY {
        return u32::from(PacketFault::Priority.number());
    }
    if packet.universe == 0 || packet.universe > MAX_UNIVERSE {
        return u32::from(PacketFault::Universe.number());
    }
    if slots.len() > 512 {
        return u32::from(PacketFault::ValueCount.number());
    }
    let cid = packet.cid;
    let name = packet.name;
    let fields = DataFields {
        cid,
        name,
        priority: packet.priority,
        number: packet.number,
        preview: packet.preview != 0,
        terminated: packet.terminated != 0,
        universe: packet.universe,
        start: packet.start,
        slots,
    };
    *count = write_data(&fields, out);
    DONE
}

/// Whether a packet is in sequence, as `in_sequence`: 1 or 0.
#[unsafe(no_mangle)]
#[tactic(auto, using(crate::proofs::StatusFields::zero_where, crate::proofs::StatusFields::one_where))]
pub extern "C" fn sacn_proved_in_sequence(held: u8, arrived: u8) -> u8
    ensures value { result ≡ bit_of (not (is_late held arrived)) }
    ensures discarded { (result ≡ 0) ↔ IsOutOfSequence held arrived }
    ensures ahead { (result ≡ 1)
        ↔ (1 ≤ (arrived + 256 - held) % 256) × ((arrived + 256 - held) % 256 ≤ 236) }
{
    bit_of(in_sequence(held, arrived))
}

fn bit_of(holds: bool) -> u8
    ensures { result ≡ bit_of holds }
{
    u8::from(holds)
}

/// The multicast group of a universe, as `multicast_group`.
#[unsafe(no_mangle)]
pub extern "C" fn sacn_proved_multicast_group(universe: u16, group: &mut [u8; 4])
    ensures { group.new ≡ group_of universe }
{
    *group = multicast_group(universe);
}

/// The source's name of a packet as text of C: what stands before the first NUL of its field, or all 64 octets, and NUL to the end.
#[unsafe(no_mangle)]
pub extern "C" fn sacn_proved_packet_name(packet: &PacketFields, text: &mut [u8; 65])
    ensures { text.new ≡ text_of packet.now.name }
{
    put_name(up_to_nul(&packet.name), text);
}

/// Writes a name's octets, and NUL to the end.
#[inline(always)]
fn put_name(name: &[u8], text: &mut [u8; 65])
    ensures { text.new ≡ fitted name.now ++ 0 ∷ [] }
{
    text.fill(0);
    if name.len() <= 64 {
        put(text, 0, name);
    }
}
