//! What happens in a world.

use sacn_console::Command;

/// One event of a world: a call of one console or of one node (profile).
///
/// Consoles, nodes and datagrams are numbered from 0; a datagram's number is its place among all that were sent.
/// Moments are milliseconds of the clock of the console or node that the event is for; clocks need not agree, and may
/// go back.
#[derive(PartialEq, Eq, Drop)]
pub enum Event {
    /// A console, the moment, and the order that it is given then.
    Order(usize, u64, Command),
    /// A console, and the moment at which it is asked for what is due.
    Poll(usize, u64),
    /// A datagram, the node that it comes to, and the moment.
    Deliver(usize, usize, u64),
    /// A node, one of its ports, 0 to 255, and the moment at which the port's frame is looked at.
    Look(usize, u8, u64),
    /// A console that starts anew, and the first number of its packets, 0 to 255.
    RestartConsole(usize, u8),
    /// A node that starts anew.
    RestartNode(usize),
    /// A node, a moment, and octets that come to it then and that no console sent.
    Noise(usize, u64, Vec<u8>),
}
