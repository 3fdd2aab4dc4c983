//! What a data packet says to a table.

ghost use Rattle.std.specs.Prelude.{◌≡◌};
ghost use Rattle.sacn_sources.specs.Packets.{kind_of};

use sacn_packets::DataView;

/// What a data packet says to the receiver that holds its source (profile). The first that fits counts, from the top.
#[derive(Clone, Copy)]
pub enum Kind {
    /// Stream_Terminated is set (E1.31, 6.2.6): the source ends its stream on the universe.
    Termination,
    /// Preview_Data is set (E1.31, 6.2.6): the levels are not for live output.
    Preview,
    /// The start code is 0 (E1.11, null start code): the levels are to be shown.
    Live,
    /// Another start code.
    Other,
}

/// The kind of a packet.
#[inline(always)]
pub fn kind_of(packet: &DataView<'_>) -> Kind
    ensures { result ≡ kind_of packet.now }
{
    if packet.terminated() {
        Kind::Termination
    } else if packet.preview() {
        Kind::Preview
    } else if packet.start() == 0 {
        Kind::Live
    } else {
        Kind::Other
    }
}
