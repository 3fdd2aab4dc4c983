//! Laws of the loops over their definitions alone. They cost nothing when they run.
//!
//! The contracts of [`run_node`](crate::run_node) and [`run_console`](crate::run_console) say what is written and handed
//! over by the steps of the cores. Folded over any list of turns, that is what the plain rule of a node, and the list of
//! what a console did, say.
ghost use Rattle.std.specs.Prelude.{◌≡◌};
ghost use Rattle.sacn_edge.specs.PlainText.{LinesAreByThePlainRule, StopsByThePlainRule, TextIsByThePlainRule};
ghost use Rattle.sacn_edge.specs.SendsByList.{SendsAreByTheList};
ghost use Rattle.sacn_edge.specs.declared.line.TheConstants.{LINE_OCTETS};
ghost use Rattle.sacn_edge.specs.declared.link.TheConstants.{BUFFER_OCTETS};

use sacn_console::laws as console;
use sacn_node::laws as node;

/// After any calls on a node, its text over any turns is that of the plain rule: what each turn brought is taken by
/// it, and each frame is its answer.
pub fn text_is_by_the_plain_rule()
    ensures { TextIsByThePlainRule }
{
    node::answers_by_the_plain_rule();
    node::keeps_its_ports();
    node::moment_is_the_greatest();
}

/// After any calls on a node, the lines that it writes over any turns are those of the plain rule, one by one. So they
/// are where a write fails: what is written then is the plain rule's lines up to one of the last turn, of which a
/// proper part is.
pub fn lines_are_by_the_plain_rule()
    ensures lines { LinesAreByThePlainRule }
    ensures stops { StopsByThePlainRule }
{
    node::answers_by_the_plain_rule();
    node::keeps_its_ports();
    node::moment_is_the_greatest();
}

/// From the start of a life, a console hands over in any turns what is due by the list of the earlier accepted
/// commands and datagrams alone, and refuses the commands that this list says.
pub fn sends_are_by_the_list()
    ensures { SendsAreByTheList }
{
    console::steps_are_the_list();
}

/// What the numbers of the loops are, in octets: a frame with its start code, the longest line, and the buffer that a
/// receive is given.
pub fn numbers()
    ensures line { LINE_OCTETS ≡ 1052 }
    ensures buffer { BUFFER_OCTETS ≡ 2048 }
{}
