//! Laws of a gateway's turns over their definitions alone. They cost nothing when they run.
//!
//! The contract of [`run_gateway`](crate::run_gateway) says what is written by the steps of the node's core. Folded over
//! any list of turns, that is what the plain rule of a node says of what the gateway took, and at which moments.
ghost use Rattle.sacn_gateway.specs.GatewaysText.{NodesWriteAsAlone, OneStopsAsItself, OneWritesItsText};
ghost use Rattle.sacn_gateway.specs.PlainGateway.{GatewayLinesAreByThePlainRule, GatewayStopsByThePlainRule, GatewayTextIsByThePlainRule};
ghost use Rattle.sacn_gateway.specs.InterfaceLaws.{FailedDevicesAreTriedAgain, FailedDevicesRest, OffersAreOfTheirPort, WorkingDevicesShowTheirPorts};

use sacn_node::laws as node;

/// After any calls on a node, the lines that a gateway writes over any turns are those of the plain rule, one by one: what
/// goes to the node of each hearing is taken by it at the hearing's reading, and each frame is its answer at the turn's
/// last reading. So is the text; and so are the lines where a write fails: what is written then is the plain rule's lines up
/// to one of the last turn, of which a proper part is.
pub fn lines_are_by_the_plain_rule()
    ensures lines { GatewayLinesAreByThePlainRule }
    ensures text { GatewayTextIsByThePlainRule }
    ensures stops { GatewayStopsByThePlainRule }
{
    node::answers_by_the_plain_rule();
    node::keeps_its_ports();
    node::moment_is_the_greatest();
}

/// Whatever devices answer: after each turn a device that took all of its latest packet has that of its own port's frame as it is
/// then, and took it less than half a second ago; one that failed did so less than a second ago, and between a failure and
/// the next offer is a second or more. Each packet offered is that of its own port's frame after a turn, at that turn's reading.
pub fn interfaces_show_their_ports()
    ensures shows { WorkingDevicesShowTheirPorts }
    ensures tried { FailedDevicesAreTriedAgain }
    ensures rests { FailedDevicesRest }
    ensures frames { OffersAreOfTheirPort }
{}

/// What a gateway of several nodes writes is, turn by turn and node by node, what a gateway of that node alone writes in that turn: put
/// one behind the other, a node's parts are the whole text of a gateway of that node alone over the same turns. The text of a gateway of one node
/// is that text; and where a write fails, it stops as that one does.
pub fn nodes_write_as_alone()
    ensures own { NodesWriteAsAlone }
    ensures one { OneWritesItsText }
    ensures stops { OneStopsAsItself }
{}
