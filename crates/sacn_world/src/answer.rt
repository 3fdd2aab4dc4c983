//! What a world answers to an event.

use sacn_console::ConsoleFault;
use sacn_node::NodeTaken;

/// What a world answers to an event that it accepts.
#[derive(Clone, Copy)]
pub enum Answer {
    /// To `Order`: what the console answered.
    Ordered(Result<(), ConsoleFault>),
    /// To `Poll`: the number of the datagram that was sent.
    Sent(usize),
    /// To `Poll`: nothing was due.
    Idle,
    /// To `Deliver` and `Noise`: what the node answered.
    Taken(NodeTaken),
    /// To `Look`: the frame of the port, start code 0 and 512 slots.
    Shown([u8; 513]),
    /// To `Look`: the node has no port of this number.
    NoSuchPort,
    /// To `RestartConsole` and `RestartNode`.
    Restarted,
}
