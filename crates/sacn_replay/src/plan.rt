//! What of a recording is played.

use crate::speed::Speed;

/// What of a recording is played, and how. Moments are the recording's, in milliseconds.
#[derive(Clone, Copy, Debug, PartialEq, Eq)]
pub struct ReplayPlan {
    /// Records before this moment are passed over.
    pub from: u64,
    /// The first record after this moment ends the playback; `None` where none does.
    pub until: Option<u64>,
    /// How fast it is played at first.
    pub speed: Speed,
    /// Whether it begins again at its end.
    pub is_loop: bool,
}
