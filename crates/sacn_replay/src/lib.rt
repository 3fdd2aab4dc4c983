//! When the datagrams of a recording are due where it is played back: the pure core of a player.
//!
//! A [`Playhead`] says which moment of the recording is played at which moment of the machine's clock. [`ReplayCore`] asks it of record
//! after record, in the order of the file, and answers whether the record is due, too late, or to be waited for. That what is handed
//! over is exactly what is due stands in [`laws`].
#![tactic(auto)]

mod counts;
mod fault;
mod head;
pub mod laws;
pub mod memory;
mod orders;
mod plan;
mod record_reader;
mod replay;
mod run;
mod speed;
mod step;
mod universes;
mod word;

pub use counts::ReplayCounts;
pub use fault::ReplayFault;
pub use head::Playhead;
pub use orders::{PlayOrder, PlayOrders};
pub use plan::ReplayPlan;
pub use record_reader::RecordReader;
pub use replay::{ReplayCore, SHORTEST_TURN};
pub use run::{MAX_STEPS, Next, close, has_to_wait, next_of, run_replay, take_order, wind};
pub use speed::{MAX_SPEED, Speed, UNIT_SPEED};
pub use step::Step;
pub use universes::{MAX_MAPPED, Mapping, UniverseMap, universe_in};
pub use word::{decimals_in, speed_of};
