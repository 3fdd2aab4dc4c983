//! What the program `sacn` prints: packets as lines, and the looks of a simulation.
//!
//! Each text is a function of what it is made from, and ends where the sink fails or something is refused: what is written then
//! is a prefix. Reading of input up to a limit, and of octets as digits, stands here too.
#![tactic(auto)]

mod block;
mod decode;
mod digits;
mod fault;
mod input;
mod look;
mod marked_writer;
mod print;
mod printed_names;
mod simulate;

pub use decode::decode_text;
pub use digits::octets_of_digits;
pub use fault::{DecodeFault, SimFault};
pub use input::{MAX_FILE_OCTETS, ReadFault, read_limited};
pub use marked_writer::MarkedWriter;
pub use print::{Printed, print_looks, print_packets};
pub use simulate::sim_text;
