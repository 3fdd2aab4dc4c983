//! What a show's file says, before its cues and its patch are added up.

use super::identity::Identity;
use super::patches::PatchRow;
use super::ports::Destinations;
use super::universes::Universes;
use sacn_cues::Cue;
use std::marker::Model;

/// The values of a show, each of its kind and in its range.
#[derive(Drop)]
pub(super) struct Draft {
    pub(super) identity: Identity,
    pub(super) universes: Universes,
    pub(super) send_to: Destinations,
    pub(super) cues: Vec<Cue>,
    pub(super) patch: Vec<PatchRow>,
}

impl Model for Draft {
    ghost use Rattle.sacn_console.specs.ShowReading.{Draft as Value_of};

    ghost Value = { Value_of };

    ghost view = { λ d. record { identity = d.identity; universes = d.universes; send_to = d.send_to; cues = d.cues.items; patch = d.patch.items } };
}
