//! What became of a datagram.

ghost use Rattle.std.specs.Prelude.{◌≡◌};
ghost use Rattle.sacn_node.specs.Changes.{universe_by};

use sacn_packets::PacketFault;
use sacn_sources::Taken;

/// What became of a datagram. Only `FromTable` may have changed more than the clock and what is lost.
#[derive(Clone, Copy, PartialEq, Eq)]
pub enum NodeTaken {
    /// A data packet of a universe of the node, with the answer of that universe's table.
    FromTable(Taken),
    /// A data packet of a universe that no port shows.
    OtherUniverse,
    /// A universe discovery packet (E1.31, 8). A node has no use for it.
    Discovery,
    /// A synchronization packet (E1.31, 6.3). It is not obeyed (profile).
    Sync,
    /// No packet: the first check of the octets that fails.
    Refused(PacketFault),
}

/// What a datagram did to a node. Where no source was lost, only slots of `universe` may have changed.
#[derive(Clone, Copy)]
pub struct NodeChange {
    /// What became of the datagram.
    pub taken: NodeTaken,
    /// How many sources were lost at its moment, in all tables, ended ones too.
    pub lost: usize,
    /// The universe whose table took it (`Held`, `EndedNow` or `Observed`), and `None` where none did.
    pub universe: Option<u16>,
}

/// What a data packet of a universe did, that became this.
pub(crate) fn change_by(taken: NodeTaken, lost: usize, universe: u16) -> NodeChange
    ensures { result
        ≡ record { taken = taken; lost = lost; universe = universe_by universe taken } }
{
    NodeChange {
        taken,
        lost,
        universe: universe_by(taken, universe),
    }
}

/// The universe of a packet that became this, where its table took it.
fn universe_by(taken: NodeTaken, universe: u16) -> Option<u16>
    ensures { result ≡ universe_by universe taken }
{
    match taken {
        NodeTaken::FromTable(Taken::Held) => Some(universe),
        NodeTaken::FromTable(Taken::EndedNow) => Some(universe),
        NodeTaken::FromTable(Taken::Observed) => Some(universe),
        NodeTaken::FromTable(Taken::OutOfSequence) => None,
        NodeTaken::FromTable(Taken::SourcesExceeded) => None,
        NodeTaken::FromTable(Taken::UnknownIgnored) => None,
        NodeTaken::OtherUniverse => None,
        NodeTaken::Discovery => None,
        NodeTaken::Sync => None,
        NodeTaken::Refused(_) => None,
    }
}

/// The node has no port of this number.
#[derive(Clone, Copy, PartialEq, Eq)]
pub struct NoPort;
