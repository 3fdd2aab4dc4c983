//! What comes with a data packet, beside what it says.

ghost use Rattle.std.specs.Prelude.{◌≡◌};
ghost use Rattle.sacn_audit.specs.Options.{has_reserved_bits};

use sacn_packets::DataView;

/// The bits of the options that are reserved, and sent as 0 (E1.31, 6.2.6): those below Force_Synchronization (bit 5).
const RESERVED: u8 = 0x20;

/// What comes with a data packet, beside what it says.
#[derive(Clone, Copy, PartialEq, Eq)]
pub struct Delivery {
    /// The IPv4 address that it was sent to.
    pub destination: [u8; 4],
    /// Its octet of options, as it came (E1.31, 6.2.6).
    pub options: u8,
}

impl Delivery {
    /// That of a packet that was sent to an IPv4 address; 0.0.0.0 where that isn't known.
    pub fn of(destination: [u8; 4], packet: &DataView<'_>) -> Self
        ensures { result.destination ≡ destination }
    {
        Delivery {
            destination,
            options: packet.options(),
        }
    }

    /// Whether a reserved bit of the options is set.
    pub(crate) fn has_reserved_bits(self) -> bool
        ensures { result ≡ has_reserved_bits self.options }
    {
        self.options % RESERVED != 0
    }
}
