//! What a console can be told, and how it refuses.
ghost use Rattle.std.specs.Prelude.{◌≡◌};

use sacn_cues::PlayFault;
use thiserror::Error;

/// A command to a console (profile).
#[derive(Clone, Copy, PartialEq, Eq)]
pub enum Command {
    /// Goes to the next cue.
    Go,
    /// Goes to the cue of this number, as if all cues up to it had been played.
    GoTo(u16),
    /// Sets a channel, 1 to 2048, to a level, 0 to 65535, at once.
    SetLevel(u16, u16),
    /// Sets the grand master, 0 to 65535, at once.
    Master(u16),
    /// Ends a universe: three terminated packets, then silence.
    EndUniverse(u16),
    /// Starts a stopped universe anew. Its numbers go on.
    StartUniverse(u16),
}

/// Why a command was refused. Only the console's clock has then moved.
///
/// Each fault has a number of its own, which `number` gives.
#[derive(Clone, Copy, Debug, PartialEq, Eq, Error)]
pub enum ConsoleFault {
    /// There is no such cue: none above the current one, or none of the number.
    #[error("there is no such cue")]
    NoCue = 1,
    /// The channel isn't 1 to 2048.
    #[error("the channel is out of range")]
    ChannelRange = 2,
    /// The universe isn't one of the show.
    #[error("the show has no such universe")]
    NoUniverse = 3,
    /// The universe is ending: it can be neither ended nor started.
    #[error("the universe is ending")]
    Ending = 4,
    /// The universe is running and can't be started.
    #[error("the universe is running")]
    Running = 5,
    /// The universe is stopped and can't be ended.
    #[error("the universe is stopped")]
    Stopped = 6,
}

impl ConsoleFault {
    ghost use Rattle.sacn_console.specs.ConsoleFaults.{console_fault_number};

    /// The fault's number, from 1 to 6.
    pub fn number(self) -> u8
        ensures { result ≡ console_fault_number self }
    {
        self as u8
    }
}

impl From<PlayFault> for ConsoleFault {
    ghost use Rattle.std.specs.Prelude.{◌≡◌};
    ghost use Rattle.sacn_console.specs.Lights.{console_fault};

    ghost from_gives = { λ fault console. console ≡ console_fault fault };

    fn from(fault: PlayFault) -> ConsoleFault {
        match fault {
            PlayFault::NoCue => ConsoleFault::NoCue,
            PlayFault::ChannelRange => ConsoleFault::ChannelRange,
        }
    }
}
