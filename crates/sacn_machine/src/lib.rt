//! The machine of a rig: clocks, sockets, devices of interfaces, inputs, and outputs that never hold up, with doubles of them in memory.
//!
//! Devices tell what was asked of them, as in `sacn_edge`, and loops are stated over them. The machine's sockets, clock and standard
//! input tell nothing: what they bring is tested.
#![tactic(auto)]

mod address;
mod clock;
mod device;
mod drops;
mod hold;
mod input;
mod input_end;
mod keys;
pub mod laws;
pub mod limits;
mod line_buffer;
pub mod memory;
pub mod memory_device;
pub mod memory_sockets;
mod neighbours;
mod output;
mod outputs;
mod receiver;
mod room;
mod sockets;
pub mod sys;
mod udp_receiver;
mod udp_sockets;
mod widget;

pub use address::{AddressFault, destination_of, host_of};
pub use clock::RigClock;
pub use device::{Device, DeviceFault, Offer, Took, WIDGET_OCTETS};
pub use drops::Drops;
pub use input::{InputState, TypedInput};
pub use input_end::InputEnd;
pub use keys::{MAX_KEYS, Typed, TypedKeys};
pub use line_buffer::{Gathered, LONGEST_LINE, LineBuffer};
pub use output::{CLOCK_OCTETS, ClockFront, Lines, Note, Output, Sink};
pub use outputs::{Outlet, Outputs};
pub use receiver::{Arrival, Octets4, Receipt, Receiver};
pub use sockets::Sockets;
pub use sys::{guard_standard_descriptors, output_is_terminal};
pub use udp_receiver::{UdpReceiver, say_silence};
pub use udp_sockets::UdpSockets;
pub use widget::{Widget, is_packet_of, widget_packet};
