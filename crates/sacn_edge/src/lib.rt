//! The edges of the programs: where datagrams and moments come from, where text and datagrams go, and the
//! loops of a node and of a console over them.
//!
//! What the loops do is stated over devices that tell what was asked of them: a link its receives and sends,
//! a clock its readings, a sink the octets that it took. Those over memory tell. A device that tells nothing,
//! as a socket or a terminal of the machine, makes no clause false and none useful.
#![tactic(auto)]

mod clock;
mod console_loop;
mod digits;
pub mod laws;
mod line;
mod link;
pub mod memory;
mod node_loop;
mod out;
mod port_lines;
mod report;
mod system;
mod text;
mod udp;
mod writer;

pub use clock::Clock;
pub use console_loop::{count as count_send, run_console};
pub use digits::write_digits;
pub use line::{LINE_OCTETS, line_of};
pub use link::{BUFFER_OCTETS, Link, Received};
pub use node_loop::run_node;
pub use out::Out;
pub use port_lines::write_ports;
pub use report::{ConsoleReport, NodeReport, print_report};
pub use system::SystemClock;
pub use text::{WriteFailed, write_text};
pub use udp::{SocketFailed, UdpLink};
pub use writer::WriterOut;
