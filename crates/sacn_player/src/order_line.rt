//! What a line of standard input says to a player.
use crate::moments::{day_millis, millis_in};
use sacn_files::words::words;
use sacn_replay::{ReplayFault, Speed, speed_of};
use std::alloc::Global;
use thiserror::Error;

/// Why a line is no order.
#[derive(Clone, Copy, Debug, PartialEq, Eq, Error)]
pub enum LineFault {
    #[error("a line has at most 65536 octets")]
    Long,
    #[error("this isn't text in UTF-8")]
    NotText,
    #[error("out of memory")]
    OutOfMemory,
    #[error("the orders are: pause, go, at SECONDS or HH:MM:SS, speed X, status, help, quit")]
    Word,
    #[error("a moment is seconds behind the first datagram, as 90 or 12.5, or a time of day, as 20:13:05")]
    Moment,
    #[error("a speed is 0.001 to 1000, as 2 or 0.5")]
    Speed,
}

/// A moment of a recording.
#[derive(Clone, Copy)]
pub enum PlayMoment {
    /// So many milliseconds behind its first datagram.
    Behind(u64),
    /// So many milliseconds behind midnight, by the time of day.
    Day(u64),
}

/// What a line says.
#[derive(Clone, Copy)]
pub enum PlayLine {
    Nothing,
    Pause,
    Go,
    At(PlayMoment),
    Speed(Speed),
    Status,
    Help,
    Quit,
}

fn place_of(word: &str) -> Result<PlayMoment, LineFault> {
    if let Some(millis) = day_millis(word) {
        return Ok(PlayMoment::Day(millis));
    }
    match millis_in(word) {
        Some(millis) => Ok(PlayMoment::Behind(millis)),
        None => Err(LineFault::Moment),
    }
}

fn speed_in(word: &str) -> Result<Speed, LineFault> {
    speed_of(word).map_err(|_fault: ReplayFault| LineFault::Speed)
}

fn said_by(words: &[&str]) -> Result<PlayLine, LineFault> {
    match words {
        [] => Ok(PlayLine::Nothing),
        [word] => match *word {
            "pause" => Ok(PlayLine::Pause),
            "go" => Ok(PlayLine::Go),
            "status" => Ok(PlayLine::Status),
            "help" => Ok(PlayLine::Help),
            "quit" => Ok(PlayLine::Quit),
            _ => Err(LineFault::Word),
        },
        [word, value] => match *word {
            "at" => Ok(PlayLine::At(place_of(value)?)),
            "speed" => Ok(PlayLine::Speed(speed_in(value)?)),
            _ => Err(LineFault::Word),
        },
        _ => Err(LineFault::Word),
    }
}

/// The meaning of a line, None where it is too long. One without words, or whose first begins with `#`, says nothing.
pub fn line_said(alloc: Global, line: Option<&[u8]>) -> Result<PlayLine, LineFault> {
    let Some(octets) = line else {
        return Err(LineFault::Long);
    };
    let Ok(text) = std::str::from_utf8(octets) else {
        return Err(LineFault::NotText);
    };
    let Ok(words) = words(alloc, text) else {
        return Err(LineFault::OutOfMemory);
    };
    match words.as_slice().first() {
        Some(word) if word.starts_with('#') => Ok(PlayLine::Nothing),
        _ => said_by(words.as_slice()),
    }
}
