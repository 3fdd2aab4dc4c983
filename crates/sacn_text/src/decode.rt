//! Datagrams decoded in turn.

ghost use Rattle.std.specs.Prelude.{◌≡◌, ◌+◌, ◌<◌, false, IfOk, IfErr, OnOk, Ok, Err, Some, None, List, ℕ, length, take, map};
ghost use Rattle.std.specs.Option.{option_map};
ghost use Rattle.sacn_packets.specs.PacketReading.{reading_packet};
ghost use Rattle.sacn_discovery.specs.Collection.{nothing_known};
ghost use Rattle.sacn_packets.specs.declared.framing.packet.Packet.TheVariants.{PagePacket};
ghost use Rattle.sacn_edge.specs.Additions.{Adds};
ghost use Rattle.sacn_text.specs.Decoding.{block, state_after, decoded, octets_of, Stops};

use crate::block::{data_block, page_block};
use crate::fault::DecodeFault;
use sacn_discovery::Collector;
use sacn_edge::{Out, write_text};
use sacn_packets::{Packet, PageView, read_packet};
use std::alloc::{AllocError, Global};

// The text of a page, after the collector took it.
fn page_text(
    alloc: Global,
    collector: &mut Collector,
    page: &PageView<'_>,
) -> Result<Vec<u8>, AllocError>
    ensures { IfOk result (λ text. (text.items ≡ block (PagePacket page.now) collector.old)
        × (collector.new ≡ state_after (PagePacket page.now) collector.old)) }
{
    let Ok(_) = collector.take(0, page) else {
        return Err(AllocError);
    };
    let Ok(known) = collector.list_of(0, &page.cid()) else {
        return Err(AllocError);
    };
    page_block(alloc, page, known)
}

// The text of a packet, and the collector after it.
fn block_of(
    alloc: Global,
    collector: &mut Collector,
    packet: &Packet<'_>,
) -> Result<Vec<u8>, AllocError>
    ensures { IfOk result (λ text. (text.items ≡ block packet.now collector.old)
        × (collector.new ≡ state_after packet.now collector.old)) }
{
    match packet {
        Packet::DataPacket(data) => data_block(alloc, data),
        Packet::PagePacket(page) => page_text(alloc, collector, page),
        Packet::SyncPacket => Vec::from_slice(alloc, b"sync\n"),
    }
}

/// Writes the texts of the datagrams, up to the first that is no packet.
pub fn decode_text<O: Out>(
    alloc: Global,
    datagrams: &[Vec<u8>],
    out: &mut O,
) -> Result<(), DecodeFault>
    requires { O.failed out.old ≡ false }
    ensures ok { OnOk result ((O.failed out.new ≡ false)
        × ((decoded nothing_known 0 (octets_of datagrams.now)).refused ≡ None) × Adds (O.Tells
        out.old) (O.Tells out.new) (decoded nothing_known 0 (octets_of datagrams.now)).text) }
    ensures err { IfErr result (λ fault. Stops fault (O.failed out.new) (Adds (O.Tells out.old)
        (O.Tells out.new)) (decoded nothing_known 0 (octets_of datagrams.now))) }
{
    let mut collector = Collector::new(alloc);
    for i in 0..datagrams.len() {
        match read_packet(datagrams[i].as_slice()) {
            Ok(packet) => {
                let Ok(text) = block_of(alloc, &mut collector, &packet) else {
                    return Err(DecodeFault::OutOfMemory);
                };
                let Ok(_) = write_text(out, text.as_slice()) else {
                    return Err(DecodeFault::WriteFailed);
                };
            }
            Err(fault) => return Err(DecodeFault::Refused(i, fault)),
        }
    }
    Ok(())
}
