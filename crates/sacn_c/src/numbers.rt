//! The numbers by which C is told what became of a datagram.
ghost use Rattle.std.specs.Prelude.{◌≡◌};
ghost use Rattle.sacn_c.specs.Numbers.{taken_number, node_taken_number, node_taken_status};

use crate::status::DONE;
use sacn_node::NodeTaken;
use sacn_sources::Taken;

/// The number of what became of a data packet, 1 to 6.
pub(crate) fn taken_number(taken: Taken) -> u8
    ensures { result ≡ taken_number taken }
{
    match taken {
        Taken::Held => 1,
        Taken::Observed => 2,
        Taken::EndedNow => 3,
        Taken::OutOfSequence => 4,
        Taken::SourcesExceeded => 5,
        Taken::UnknownIgnored => 6,
    }
}

/// The number of what became of a node's datagram, 1 to 9, and 0 where it is no packet.
pub(crate) fn node_taken_number(taken: NodeTaken) -> u8
    ensures { result ≡ node_taken_number taken }
{
    match taken {
        NodeTaken::FromTable(taken) => taken_number(taken),
        NodeTaken::OtherUniverse => 7,
        NodeTaken::Discovery => 8,
        NodeTaken::Sync => 9,
        NodeTaken::Refused(_) => 0,
    }
}

/// The status of a node's datagram: the fault's number where it is no packet.
pub(crate) fn node_taken_status(taken: NodeTaken) -> u32
    ensures { result ≡ node_taken_status taken }
{
    match taken {
        NodeTaken::Refused(fault) => u32::from(fault.number()),
        _ => DONE,
    }
}
