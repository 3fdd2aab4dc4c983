//! Datagrams out of a recording of a network: `pcap` and `pcapng` read as a stream.
//!
//! Below is the pure layer: what stands in a frame, in a file's header and in a block, octets to values, each exact. Above it
//! `Capture` reads a whole file, and gives what `specs/Recordings.antt` says that its octets give.
#![tactic(auto)]

mod blocks;
mod bookmark;
mod buffer;
mod clock;
mod faults;
mod frame;
mod frame_counts;
mod headers;
mod input;
mod interface;
pub mod laws;
mod links;
mod octets;
mod pcap;
mod pcapng;
mod pieces;
mod stream;

pub use bookmark::Bookmark;
pub use clock::{Shift, milliseconds_of, shift_of, shifted, units_in};
pub use faults::{CaptureFault, FaultKind};
pub use frame::{Datagram, datagram_in};
pub use frame_counts::FrameCounts;
pub use interface::Described;
pub use links::{LinkType, Passed, link_type, packet_place};
pub use octets::ByteOrder;
pub use pcap::{Fraction, PcapHeader, RecordHead, Stamp, pcap_header, pcap_record_head};
pub use pcapng::{
    BlockHead, BlockKind, EnhancedHead, Section, enhanced_in, interface_in, is_section,
    pcapng_block_head, section_in, simple_in,
};
pub use stream::{Capture, Record};
