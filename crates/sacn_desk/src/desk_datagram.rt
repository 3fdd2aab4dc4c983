//! A datagram of a desk.
ghost use Rattle.std.specs.Prelude.{◌≡◌, Some};
ghost use Rattle.sacn_packets.specs.PacketReading.{reading_packet};
ghost use Rattle.sacn_desk.specs.Groups.{universe_read};

use std::marker::Model;

/// A datagram that a desk sends: a data packet or a discovery page, with the universe that it is read as.
///
/// Its value is its octets.
#[derive(Drop)]
pub struct DeskDatagram<'a> {
    octets: &'a [u8],
    universe: Option<u16>,
}

impl<'a> Model for DeskDatagram<'a> {
    ghost use Rattle.std.specs.Prelude.{◌≡◌, ℕ, List, Some};
    ghost use Rattle.sacn_packets.specs.PacketReading.{reading_packet};
    ghost use Rattle.sacn_desk.specs.Groups.{universe_read};

    ghost Value = { List ℕ };

    ghost view = { λ d. d.octets.now };

    ghost invariant = { λ d. universe_read (reading_packet d.octets.now) ≡ Some d.universe };
}

impl<'a> DeskDatagram<'a> {
    /// These octets, of this universe: None for a discovery page.
    pub fn new(octets: &'a [u8], universe: Option<u16>) -> Self
        requires { universe_read (reading_packet octets.now) ≡ Some universe }
        ensures { result ≡ octets.now }
    {
        DeskDatagram { octets, universe }
    }

    /// The octets, as they are sent.
    pub fn octets(&self) -> &'a [u8]
        ensures { result.now ≡ self.now }
    {
        self.octets
    }

    /// The universe of a data packet, 1 to 63999; None for a discovery page.
    pub fn universe(&self) -> Option<u16>
        ensures { universe_read (reading_packet self.now) ≡ Some result }
    {
        self.universe
    }
}
