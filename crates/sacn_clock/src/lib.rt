//! Times of day: in front of lines, and as members of objects of JSON.
//!
//! What tells a network knows milliseconds since its start alone. A [`Stamped`] output stands between it and what it writes to, and
//! puts a time into each line, of a recording's own clock or of the machine's.
#![tactic(auto)]

mod ahead;
mod line_moment;
mod moments;
mod stamped;
mod times;
mod zone;

pub use ahead::{Ahead, MOST_AHEAD};
pub use moments::{Afterwards, Moments, Present, Recorded, WallClock};
pub use stamped::{Stamped, Timing};
pub use times::{CLOCK_LETTERS, ClockText, TimeText, clock_text, time_text};
pub use zone::LocalZone;
