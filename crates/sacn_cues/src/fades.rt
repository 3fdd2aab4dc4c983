//! The fades of all channels.
ghost use Rattle.std.specs.Prelude.{◌≡◌, ℕ, max, true, IfOk, length, replicate, Option, None};
ghost use Rattle.sacn_patch.specs.declared.limits.TheConstants.{MAX_CHANNELS};
ghost use Rattle.sacn_cues.specs.Cues.{level_of_channel};
ghost use Rattle.sacn_cues.specs.Levels.{all_begun, given_to, set_to, end_of, all_still, level_at};
ghost use Rattle.sacn_cues.specs.Channels.{is_channel};
ghost use Rattle.sacn_cues.specs.Playing.{longer};
ghost use Rattle.sacn_cues.specs.Tracks.{AreTargets};

use crate::channel::is_channel;
use crate::cue::Cue;
use crate::fade::{Fade, begin_all, fill_octets, fill_plain, set_one};
use crate::track::Track;
use sacn_patch::MAX_CHANNELS;
use std::alloc::{AllocError, Global};
use std::marker::Model;

/// One fade for each channel, and the moment from which all are over.
#[derive(Drop)]
pub(crate) struct Fades {
    fades: Vec<Fade>,
    // Room for the levels that a command gives. It is empty between calls, so that a command costs
    // the channels that it names and not all of them.
    targets: Vec<Option<u16>>,
    // Every fade that was ever begun is over from this moment on.
    rest: u64,
}

impl Model for Fades {
    ghost use Rattle.std.specs.Prelude.{◌≡◌, length, replicate, None, true};
    ghost use Rattle.std.specs.List.{list_all};
    ghost use Rattle.sacn_patch.specs.declared.limits.TheConstants.{MAX_CHANNELS};
    ghost use Rattle.sacn_cues.specs.Levels.{Running, running_code, is_over_by};

    ghost Value = { Running };

    ghost coded = { running_code };

    ghost view = { λ f. record { rest = f.rest; fades = f.fades.items } };

    ghost invariant = { λ f. (length f.fades.items ≡ MAX_CHANNELS) × (f.targets.items ≡ replicate MAX_CHANNELS None) × (list_all (is_over_by f.rest) f.fades.items ≡ true) };
}

impl Fades {
    ghost use Rattle.std.specs.Option.{ForSome};
    ghost use Rattle.std.specs.Prelude.{◌≡◌, ◌≤◌, ◌<◌, true};
    ghost use Rattle.std.specs.Prelude.{◌*◌, ◌/◌};
    ghost use Rattle.sacn_patch.specs.Parts.{AreOctets};
    ghost use Rattle.sacn_cues.specs.declared.level_octets.TheConstants.{OCTETS};
    ghost use Rattle.sacn_cues.specs.declared.limits.TheConstants.{FULL};
    ghost use Rattle.sacn_cues.specs.Levels.{last_moment, StaysLit, StaysAt};
    ghost use Rattle.sacn_cues.specs.LevelOctets.{IsBlankBefore, IsKept};

    /// The fades of channels that all rest at level 0.
    pub(crate) fn new(alloc: Global) -> Result<Fades, AllocError>
        ensures { IfOk result (λ fades. fades ≡ all_still) }
    {
        let still = Fade::new(0, 0, 0, 0);
        let fades = vec![in alloc; still; MAX_CHANNELS as usize]?;
        let targets = vec![in alloc; None; MAX_CHANNELS as usize]?;
        Ok(Fades {
            fades,
            targets,
            rest: 0,
        })
    }

    /// Begins the fades of the channels that a cue names.
    pub(crate) fn play(&mut self, cue: &Cue, now: u64)
        ensures { self.new ≡ record {
          rest = max self.old.rest (end_of now (longer cue.now));
          fades = all_begun (λ channel. given_to cue.now.up cue.now.down
              (level_of_channel cue.now.levels channel)) now 1 self.old.fades;
        } }
    {
        play_cue(cue, &mut self.targets, &mut self.fades, now);
        self.rest = rest_after(self.rest, now, cue.longer());
    }

    /// Begins the fades of the channels to which going to a cue gives a level.
    pub(crate) fn play_to(&mut self, track: &Track, now: u64)
        requires { length track.now.targets ≡ MAX_CHANNELS }
        ensures { (level : ℕ → Option ℕ)
            → AreTargets level track.now.targets → self.new ≡ record {
              rest = max self.old.rest (end_of now (max track.now.up track.now.down));
              fades = all_begun (λ channel.
                  given_to track.now.up track.now.down (level channel)) now 1 self.old.fades;
            } }
    {
        begin_all(track.targets(), &mut self.fades, track.times(), now);
        self.rest = rest_after(self.rest, now, track.longer());
    }

    /// Sets a channel at once.
    pub(crate) fn set(&mut self, channel: u16, level: u16, now: u64)
        requires { is_channel channel ≡ true }
        ensures { self.new ≡ record {
          rest = max self.old.rest now;
          fades = all_begun (set_to channel level) now 1 self.old.fades;
        } }
    {
        set_one(&mut self.fades, channel, level, now);
        self.rest = self.rest.max(now);
    }

    /// Writes the octets of the levels of all channels at a moment, after the master. The channels whose
    /// fades aren't over then stand in the list afterwards, and so many are they.
    pub(crate) fn fill_octets(
        &self,
        now: u64,
        master: u16,
        octets: &mut [u8],
        moving: &mut [u16],
        listed: Option<usize>,
    ) -> usize
        requires length { length octets.old ≡ OCTETS }
        requires before { IsBlankBefore octets.old }
        requires room { length moving.old ≡ MAX_CHANNELS }
        requires listed { ForSome listed
            (λ count. IsKept octets.old moving.old count self.now.fades master now) }
        ensures length { length octets.new ≡ OCTETS }
        ensures before { IsBlankBefore octets.new }
        ensures room { length moving.new ≡ MAX_CHANNELS }
        ensures levels { AreOctets
            (λ channel. level_at self.now.fades channel now * master / FULL) octets.new }
        ensures listed { IsKept octets.new moving.new result self.now.fades master now }
    {
        fill_octets(&self.fades, now, master, octets, moving, listed)
    }

    /// Writes the octets of the levels of all channels at a moment, after the master, and lists none.
    pub(crate) fn fill_plain(&self, now: u64, master: u16, octets: &mut [u8])
        requires length { length octets.old ≡ OCTETS }
        requires before { IsBlankBefore octets.old }
        ensures length { length octets.new ≡ OCTETS }
        ensures before { IsBlankBefore octets.new }
        ensures levels { AreOctets
            (λ channel. level_at self.now.fades channel now * master / FULL) octets.new }
    {
        fill_plain(&self.fades, now, master, octets)
    }

    /// The level of a channel at a moment, 0 outside the channels.
    pub(crate) fn level(&self, channel: u16, now: u64) -> u16
        ensures { result ≡ level_at self.now.fades channel now }
    {
        if is_channel(channel) {
            self.fades[channel as usize - 1].level(now)
        } else {
            0
        }
    }

    /// Whether the level of a channel stays as it is at a moment. Outside the channels it does.
    pub(crate) fn rests(&self, channel: u16, now: u64) -> bool
        ensures { result ≡ true → StaysAt self.now.fades channel now }
    {
        if is_channel(channel) {
            self.fades[channel as usize - 1].rests(now)
        } else {
            true
        }
    }

    /// The moment from which every fade that was ever begun is over.
    pub(crate) fn rest(&self) -> u64
        ensures rest { result ≡ self.now.rest }
        ensures stays { result < last_moment → StaysLit result self.now.fades }
    {
        self.rest
    }
}

// Begins the fades of the channels that a cue names. The targets are room, and left empty.
fn play_cue(cue: &Cue, targets: &mut [Option<u16>], fades: &mut [Fade], now: u64)
    requires { targets.old ≡ replicate (length fades.old) None }
    ensures targets { targets.new ≡ targets.old }
    ensures fades { fades.new ≡ all_begun (λ channel. given_to cue.now.up cue.now.down
        (level_of_channel cue.now.levels channel)) now 1 fades.old }
{
    let times = cue.times();
    cue.aim(targets);
    cue.begin(targets, fades, times, now);
}

// The moment from which the fades rest, once one of this time begins.
fn rest_after(rest: u64, moment: u64, time: u32) -> u64
    ensures { result ≡ max rest (end_of moment time) }
{
    rest.max(moment.saturating_add(time as u64))
}
