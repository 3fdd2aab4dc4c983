//! What a player does next.

/// What a player does next. Moments are in milliseconds of the machine's clock.
#[derive(Clone, Copy, Debug, PartialEq, Eq)]
pub enum Step {
    /// Nothing is due before this moment.
    Wait(u64),
    /// The next record is due: it goes out.
    Send,
    /// The next record was due more than 2500 ms ago (E1.31, 6.7.1): it doesn't go out, and the one behind it is next.
    Skip,
    /// The next record lies before what is played: it doesn't go out, and the one behind it is next.
    Pass,
    /// The first record of the file is next.
    Again,
    /// The recording is at its end.
    End,
    /// The playback is paused.
    Rest,
}
