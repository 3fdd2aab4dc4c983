//! Which rules of streaming ACN (ANSI E1.31-2018) the packets of a network break.
//!
//! A [`StreamAudit`] is handed each packet of one stream, those of one source on one universe, with its moment, and keeps of each
//! [`Rule`] how often it was broken, when first and when last. It has a fixed size. An [`Audit`] keeps those of up to
//! [`MAX_STREAMS`] streams; of their sources which had two addresses at once, which had one counter for several universes, which sent
//! no list of universes, and which sent one that lacks a universe or has one that wasn't heard ([`PageHabits`]); and of up to
//! [`MAX_REFUSED`] pairs of a sender and a fault how often something couldn't be read. Hearing takes no memory. What is kept over
//! any packets stands in [`laws`].
#![tactic(auto)]

mod audit;
mod breach;
mod content;
mod delivery;
mod groups;
mod hints;
pub mod laws;
mod limits;
mod network_audit;
mod number_habits;
mod pace;
mod page_habits;
mod page_verdict;
mod refused;
mod rule;
mod sight;
mod source;
mod source_numbers;
mod source_register;
mod stream_register;

pub use audit::StreamAudit;
pub use breach::{Breach, Breaches};
pub use content::Content;
pub use delivery::Delivery;
pub use limits::{MAX_REFUSED, MAX_STREAMS};
pub use network_audit::Audit;
pub use number_habits::NumberHabits;
pub use pace::Pace;
pub use page_habits::PageHabits;
pub use page_verdict::PageVerdict;
pub use refused::RefusedPackets;
pub use rule::Rule;
pub use sight::Sight;
pub use source::SourceAudit;
pub use source_numbers::SourceNumbers;
pub use stream_register::AuditedStream;
