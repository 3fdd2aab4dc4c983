//! Which datagrams are recorded, and where they were sent to.

ghost use Rattle.std.specs.Prelude.{◌≡◌, ◌==◌};
ghost use Rattle.std.specs.List.{list_any};
ghost use Rattle.sacn_record.specs.Hearing.{destination_of, is_asked, is_named};

use crate::plan::{DISCOVERY, RecordPlan};
use sacn_packets::{Packet, Reading, multicast_group};

/// Whether a datagram is asked for that was read as this.
pub fn is_asked(plan: &RecordPlan<'_>, reading: &Reading<'_>) -> bool
    ensures { result ≡ is_asked plan.now.universes.now reading.now }
{
    match reading {
        Ok(Packet::DataPacket(packet)) => is_named(plan.universes, packet.universe()),
        Ok(Packet::PagePacket(_)) => true,
        Ok(Packet::SyncPacket) => true,
        Err(_) => true,
    }
}

/// The address that it was sent to.
pub fn destination(plan: &RecordPlan<'_>, reading: &Reading<'_>) -> [u8; 4]
    ensures { result ≡ destination_of plan.now.host reading.now }
{
    match reading {
        Ok(Packet::DataPacket(packet)) => multicast_group(packet.universe()),
        Ok(Packet::PagePacket(_)) => multicast_group(DISCOVERY),
        Ok(Packet::SyncPacket) => plan.host,
        Err(_) => plan.host,
    }
}

// Whether a universe is among these, or none is named.
fn is_named(universes: &[u16], universe: u16) -> bool
    ensures { result ≡ is_named universes.now universe }
{
    universes.is_empty() | is_among(universes, universe)
}

// Whether a universe is among these.
fn is_among(universes: &[u16], universe: u16) -> bool
    ensures { result ≡ list_any (λ named. named == universe) universes.now }
{
    universes.iter().any(|named| *named == universe)
}
