//! The laws.

ghost use Rattle.sacn_runs.specs.NodeRuns.{NodesRunAsInAWorld};
ghost use Rattle.sacn_runs.specs.ConsoleRuns.{ConsolesRunAsInAWorld};
ghost use Rattle.sacn_runs.specs.UsedConsoles.{SendsGoOnByTheList};
ghost use Rattle.sacn_runs.specs.DeskRuns.{DesksRunAsInAWorld};
ghost use Rattle.sacn_runs.specs.GatewayRuns.{GatewaysRunAsInAWorld};
ghost use Rattle.sacn_runs.specs.Stage.{Stage};

use sacn_console::laws::steps_are_the_list;
use sacn_gateway::laws::interfaces_show_their_ports;
use sacn_world::laws::headline;

/// A node in its loop is a node of a world. From any world on, over any events that it accepts: where the packets that come to
/// one of its nodes, what comes that is none, and the looks at its ports are, moment by moment, those of a loop's turns, the
/// looks are answered with exactly the lines that the loop writes, and the world's node is then as the loop leaves its core.
/// What else happens in the world makes no difference.
pub fn nodes_run_as_in_a_world()
    ensures { NodesRunAsInAWorld }
{}

/// A console in its loop is a console of a world. From any world on, over any events that it accepts: where one of its consoles
/// is given the commands and polls of a loop's turns, and isn't started anew, it sends octet by octet what the loop hands over,
/// refuses as many commands, and its core is then as the loop leaves it. The core may have been used before.
pub fn consoles_run_as_in_a_world()
    ensures { ConsolesRunAsInAWorld }
{}

/// A console core that was used before goes on by its list: what it hands over and refuses in its loop is what the list of all
/// that was done in its life says beyond the earlier calls.
pub fn sends_go_on_by_the_list()
    ensures { SendsGoOnByTheList }
{
    steps_are_the_list();
}

/// A desk is a console of a world. From any world on, over any events that it accepts: where one of its consoles is given, round
/// by round, the orders of a desk and then its polls, all at the round's reading, and isn't started anew, it sends octet by octet
/// what [`sacn_desk::run_desk`] hands over, refuses as many orders, and its core is then as the desk leaves it. The core may have
/// been used before.
pub fn desks_run_as_in_a_world()
    ensures { DesksRunAsInAWorld }
{}

/// A gateway is a node of a world. From any world on, over any events that it accepts: where what comes to one of its nodes is,
/// moment by moment, what went to the core of a gateway in its turns (nothing, in place of what came late or from another
/// sender), and after each turn each port is looked at, at the turn's latest reading, the looks ask for exactly the lines that
/// [`sacn_gateway::run_gateway`] writes, each is answered with the frame of its port as the turn leaves it, and the world's node is
/// then as the gateway leaves its core. Each packet that an interface is offered is that of a frame with which a look at its own
/// port was answered, at that look's moment. What else happens in the world makes no difference.
pub fn gateways_run_as_in_a_world()
    ensures { GatewaysRunAsInAWorld }
{
    interfaces_show_their_ports();
}

/// The stage: from a console's order to the octets of an interface. Of every world of consoles with CIDs of their own, and every
/// list of events that it accepts (each names a console, node and datagram that there is, no data packet comes twenty or more sends
/// behind the newest of its stream and life that was delivered to the node, or after one of a later life, and no noise is a packet),
/// with the answers of its run, the [`headline`](sacn_world::laws::headline) holds, and over any parts of the run:
///
/// - where a console is asked exactly what a desk's rounds ask, and isn't started anew, the octets that it sends in the world are
///   those that [`sacn_desk::run_desk`] hands over;
/// - where what comes to a node is exactly what comes in the turns of [`sacn_gateway::run_gateway`], each packet that an interface is
///   offered, whatever its device takes, is that of the frame with which a look of the run at its own port was answered at the
///   packet's moment, and this frame is the merge of exactly the live packets that the node held then, each really sent by the
///   console with that CID;
/// - each of these, where a desk's console sent it in the desk's part, is octet by octet a datagram that the desk handed over;
/// - at two such looks at which the same places of the same sources are shown, any two slots that ranges fill from the same slot of
///   that universe stand with equal levels in the packets of the two interfaces.
pub fn stage()
    ensures { Stage }
{
    headline();
    interfaces_show_their_ports();
}
