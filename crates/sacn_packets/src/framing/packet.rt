//! Packets read from datagrams.

ghost use Rattle.std.specs.Prelude.{◌≡◌, IfOk, Ok};
ghost use Rattle.sacn_packets.specs.RootText.{root_of, ReadsRoot};
ghost use Rattle.sacn_packets.specs.PacketText.{Reads};
ghost use Rattle.sacn_packets.specs.declared.framing.packet.Packet.{Packet};
ghost use Rattle.sacn_packets.specs.PacketReading.{reading_packet, reading_data, reading_extended};

use crate::dmp::check_dmp;
use crate::framing::data::DataView;
use crate::framing::data_layer::framing_body;
use crate::framing::extended_layer::{SYNC_VECTOR, check_page, read_extended_vector};
use crate::framing::page::PageView;
use crate::root::{DATA_VECTOR, PacketFault, RootView, read_root};

/// What a datagram carries.
#[derive(Drop)]
pub enum Packet<'a> {
    /// Levels of one universe (6.2).
    DataPacket(DataView<'a>),
    /// A page of a source's list of universes (6.4).
    PagePacket(PageView<'a>),
    /// A synchronization packet (6.3), whose content isn't looked at: this profile never synchronizes.
    SyncPacket,
}

/// What a datagram was read as: its packet, or the first check that fails.
pub type Reading<'a> = Result<Packet<'a>, PacketFault>;

/// The packet at the front of the octets. What follows its root layer is free. Nothing is copied, and no
/// memory is taken.
///
/// Errors: the first check that fails, of the root layer (E1.31, 5), then of the framing layer
/// (6), then of the DMP layer (7) or the page (8).
#[inline(always)]
pub fn read_packet(octets: &[u8]) -> Reading<'_>
    // What is read stands there.
    ensures found { IfOk result (λ packet. Reads octets.now packet) }
    // What stands there is read.
    ensures only { (packet : Packet) → Reads octets.now packet → result ≡ Ok packet }
    // Which fault it is.
    ensures exact { result ≡ reading_packet octets.now }
{
    checked_packet(octets)
}

// Inlined with what calls it, down to the checks, so that no part of a packet goes through memory.
#[inline(always)]
#[tactic(auto, unfolding(crate::specs::PacketReading::reading_packet))]
fn checked_packet(octets: &[u8]) -> Reading<'_>
    ensures { result ≡ reading_packet octets.now }
{
    let root = read_root(octets)?;
    if root.vector == DATA_VECTOR {
        data_packet(octets, root)
    } else {
        extended_packet(octets, root)
    }
}

#[inline(always)]
#[tactic(auto, unfolding(crate::specs::PacketReading::reading_data))]
fn data_packet<'a>(octets: &'a [u8], root: RootView<'a>) -> Reading<'a>
    requires begins { ReadsRoot octets.now (root_of root) }
    requires vector { root.vector ≡ 4 }
    ensures { result ≡ reading_data (root_of root.entry) }
{
    let body = framing_body(root.body)?;
    check_dmp(body)?;
    Ok(Packet::DataPacket(DataView { octets }))
}

#[inline(always)]
#[tactic(auto, unfolding(crate::specs::PacketReading::reading_extended))]
fn extended_packet<'a>(octets: &'a [u8], root: RootView<'a>) -> Reading<'a>
    requires begins { ReadsRoot octets.now (root_of root) }
    ensures { result ≡ reading_extended (root_of root.entry) }
{
    let vector = read_extended_vector(root.body)?;
    if vector == SYNC_VECTOR {
        return Ok(Packet::SyncPacket);
    }
    check_page(root.body)?;
    Ok(Packet::PagePacket(PageView { octets }))
}
