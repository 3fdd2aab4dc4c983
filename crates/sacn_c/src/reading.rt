//! What a datagram is read as, and the status of one that is no packet.
ghost use Rattle.std.specs.Prelude.{◌≡◌, IfOk, Ok};
ghost use Rattle.sacn_packets.specs.PacketReading.{reading_packet};
ghost use Rattle.sacn_packets.specs.PacketText.{Reads};
ghost use Rattle.sacn_packets.specs.declared.framing.packet.Packet.{Packet};
ghost use Rattle.sacn_c.specs.Packets.{packet_or_status};

use sacn_packets::{Packet, Reading, read_packet};

/// What the octets are read as. Every call of this crate that takes a datagram reads it by this one, but a node's and a monitor's, which read it themselves.
#[inline(always)]
pub(crate) fn reading_of(octets: &[u8]) -> Reading<'_>
    // What is read stands there.
    ensures found { IfOk (reading_packet octets.now) (Reads octets.now) }
    // What stands there is read.
    ensures only { (packet : Packet) → Reads octets.now packet
        → reading_packet octets.now ≡ Ok packet }
    ensures exact { result ≡ reading_packet octets.now }
{
    read_packet(octets)
}

/// The packet at the front of the octets.
///
/// Errors: the fault's number, which C is told as the status.
#[inline(always)]
pub(crate) fn packet_at(octets: &[u8]) -> Result<Packet<'_>, u32>
    // What is read stands there.
    ensures found { IfOk (reading_packet octets.now) (Reads octets.now) }
    // What stands there is read.
    ensures only { (packet : Packet) → Reads octets.now packet
        → reading_packet octets.now ≡ Ok packet }
    ensures exact { result ≡ packet_or_status (reading_packet octets.now) }
{
    match reading_of(octets) {
        Ok(packet) => Ok(packet),
        Err(fault) => Err(u32::from(fault.number())),
    }
}
