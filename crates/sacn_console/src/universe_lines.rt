//! The universes of a console, by rising number.
ghost use Rattle.std.specs.Prelude.{◌≡◌, ◌<◌, ◌≤◌, true, length, find, Some, None, MatchOption, slice_index_or, map, [], IfOk, min, ◌+◌};
ghost use Rattle.sacn_cues.specs.Playing.{StaysAsItIs};
ghost use Rattle.sacn_cues.specs.Playing as play;
ghost use Rattle.sacn_console.specs.Lights.{frame};
ghost use Rattle.sacn_console.specs.Lines.{line_due};
ghost use Rattle.sacn_console.specs.Core.{standing, is_of};
ghost use Rattle.sacn_console.specs.Wakes.{WakesOk, IsLeast, last_moment, QuietBefore};
ghost use Rattle.sacn_console.specs.Runs.{line_by};
ghost use Rattle.sacn_console.specs.declared.line.UniverseLine.{UniverseLine as KeptLine};

use crate::limits::CONSOLE_UNIVERSES;
use crate::line::{Look, State, UniverseLine};
use crate::waking::Wakes;
use arrayvec::ArrayVec;
use sacn_cues::PlayerAt;
use sacn_packets::SLOTS;
use sacn_patch::FlatPatch;
use std::alloc::{AllocError, Global};

/// Where the first due universe stands; its frame is then in `slots`. A universe is looked at only
/// from its wake on, and one that isn't due gets a new wake.
pub(crate) fn first_due(
    lines: &[UniverseLine],
    wakes: &mut Wakes,
    patch: &FlatPatch,
    player: &PlayerAt<'_>,
    is_still: bool,
    moment: u64,
    slots: &mut [u8; SLOTS],
) -> Option<usize>
    requires clock { player.now.player.now.moment ≡ moment }
    requires tells { is_still ≡ play.is_still player.now.player.now }
    requires still { is_still ≡ true → StaysAsItIs player.now.player.now }
    requires wakes { WakesOk wakes.old
        (record { patch = patch.now; player = player.now.player.now }) moment lines.now }
    ensures wakes { WakesOk wakes.new
        (record { patch = patch.now; player = player.now.player.now }) moment lines.now }
    ensures found { MatchOption result (find
        (line_due (record { patch = patch.now; player = player.now.player.now }) moment) lines.now
        ≡ None) (λ i. (i < length lines.now) × ((d : KeptLine) → (find
        (line_due (record { patch = patch.now; player = player.now.player.now }) moment) lines.now
        ≡ Some (slice_index_or lines.now i d)) × (slots.new ≡ frame (record {
          patch = patch.now;
          player = player.now.player.now;
        }) (slice_index_or lines.now i d).universe moment))) }
    ensures ahead { MatchOption result (IsLeast wakes.new.each (min (moment + 1) last_moment))
        (λ i. wakes.new.from ≡ i) }
{
    for place in wakes.from()..lines.len() {
        if moment < wakes.at(place) {
            continue;
        }
        let line = &lines[place];
        match line.look(patch, player, is_still, moment, slots) {
            Look::Due => {
                wakes.start_at(place);
                return Some(place);
            }
            Look::Asleep(wake) => wakes.put(place, wake),
        }
    }
    wakes.note_least();
    None
}

/// Where a universe stands.
pub fn place_of(lines: &[UniverseLine], universe: u16) -> Option<usize>
    ensures { MatchOption result (find (is_of universe) lines.now ≡ None)
        (λ i. (i < length lines.now) × ((d : KeptLine) → (find (is_of universe) lines.now ≡ Some
        (slice_index_or lines.now i d)) × ((slice_index_or lines.now i d).universe ≡ universe))) }
{
    for place in 0..lines.len() {
        let line = &lines[place];
        if line.universe == universe {
            return Some(place);
        }
    }
    None
}

#[tactic(auto, using(crate::proofs::Searches::standing_past, crate::proofs::Searches::standing_more, crate::proofs::Searches::standing_all))]
/// Notes the universes that are not stopped.
pub fn list_standing(lines: &[UniverseLine], listed: &mut ArrayVec<u16, CONSOLE_UNIVERSES>)
    requires { length lines.now ≤ CONSOLE_UNIVERSES }
    ensures { listed.new.items ≡ standing lines.now }
{
    listed.clear();
    for place in 0..lines.len() {
        let line = &lines[place];
        if line.is_stopped() {
            continue;
        }
        listed.push(line.universe);
    }
}

/// The universes as a life begins.
pub fn first_lines(
    alloc: Global,
    universes: &[u16],
    first: u8,
) -> Result<Vec<UniverseLine>, AllocError>
    ensures { IfOk result (λ v. v.items ≡ map (line_by first []) universes.now) }
{
    let mut lines = Vec::new(alloc);
    for place in 0..universes.len() {
        let universe = universes[place];
        lines.push(UniverseLine {
            universe,
            state: State::Running(None),
            sequence_number: first,
            last: None,
        })?;
    }
    Ok(lines)
}
