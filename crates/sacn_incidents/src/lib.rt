//! What one source does on many universes at one moment, as one incident (ANSI E1.31-2018).
//!
//! A network tells what happens universe by universe. [`deed_of`] says which of that is a deed of a source: it appears, ends, is
//! lost, is back, or meets a rival. [`Incidents`] gathers deeds of one source and one kind that come within a second into one
//! [`Incident`]. That none is left out, and none told twice, stands in [`laws`].
#![tactic(auto)]

mod deed;
mod incident;
mod incidents;
pub mod laws;
mod limits;
mod rivals;

pub use deed::{Act, Deed, Rival, deed_of};
pub use incident::Incident;
pub use incidents::Incidents;
pub use limits::{MAX_OPEN, SPAN};
