//! What going to a cue gives.
ghost use Rattle.std.specs.Prelude.{◌≡◌, ◌==◌, max, IfOk};
ghost use Rattle.std.specs.Option.{option_map};
ghost use Rattle.sacn_cues.specs.Tracks.{tracked, track_at};

use crate::cue::Cue;
use crate::fade::Times;
use std::alloc::{AllocError, Global};
use std::marker::Model;

/// What going to a cue gives: its times, and a level to each channel that a cue of the list names.
#[derive(Drop)]
pub(crate) struct Track {
    number: u16,
    up: u32,
    down: u32,
    targets: Vec<Option<u16>>,
}

impl Model for Track {
    ghost use Rattle.sacn_cues.specs.Tracks.{Tracked, tracked_code};

    ghost Value = { Tracked };

    ghost coded = { tracked_code };

    ghost view = { λ t. record { number = t.number; up = t.up; down = t.down; targets = t.targets.items } };
}

impl Track {
    /// The track of a cue that gives these levels.
    pub(crate) fn new(
        alloc: Global,
        number: u16,
        cue: &Cue,
        targets: &[Option<u16>],
    ) -> Result<Track, AllocError>
        ensures { IfOk result (λ track. track ≡ tracked (number, cue.now) targets.now) }
    {
        Ok(Track {
            number,
            up: cue.up,
            down: cue.down,
            targets: Vec::from_slice(alloc, targets)?,
        })
    }

    pub(crate) fn times(&self) -> Times
        ensures up { result.up ≡ self.now.up }
        ensures down { result.down ≡ self.now.down }
    {
        Times {
            up: self.up,
            down: self.down,
        }
    }

    /// The longer of its times.
    pub(crate) fn longer(&self) -> u32
        ensures { result ≡ max self.now.up self.now.down }
    {
        self.up.max(self.down)
    }

    pub(crate) fn targets(&self) -> &[Option<u16>]
        ensures { result.now ≡ self.now.targets }
    {
        self.targets.as_slice()
    }

    fn is_of(&self, number: u16) -> bool
        ensures { result ≡ (self.now.number == number) }
    {
        self.number == number
    }
}

/// The track of this number.
pub(crate) fn track_at(tracks: &[Track], number: u16) -> Option<&Track>
    ensures { option_map (λ t. t.now) result ≡ track_at number tracks.now }
{
    for track in tracks {
        if track.is_of(number) {
            return Some(track);
        }
    }
    None
}
