//! The patch.
ghost use Rattle.std.specs.Prelude.{◌≡◌, ◌+◌, ◌<◌, ◌≤◌, OnOk, OnErr, IfErr, IfOk, is_some, unwrap_or, Some, None};
ghost use Rattle.std.specs.Option.{ForSome, option_map};
ghost use Rattle.std.specs.FinMap as map;
ghost use Rattle.sacn_patch.specs.Patch.{has_bad_place};

use crate::fault::PatchFault;
use crate::flat::FlatPatch;
use crate::level::LevelOf;
use crate::limits::MAX_CHANNELS;
use crate::part::{Part, byte_of, high_part, low_part};
use sacn_packets::{MAX_UNIVERSE, SLOTS};
use std::alloc::{AllocError, Global};
use std::collections::BTreeMap;
use std::marker::Model;

/// What the slots of all universes show.
///
/// Its value is the finite map from (universe, slot) to the high or the low octet of a channel's
/// level. A channel may stand on several slots (profile).
#[derive(Drop)]
pub struct Patch {
    // In the order of universe and slot, so that a universe's slots stand together.
    parts: BTreeMap<(u16, u16), Part>,
}

impl Model for Patch {
    ghost use Rattle.sacn_patch.specs.Patch.{Patched, patch_code};

    ghost Value = { Patched };

    ghost coded = { patch_code };

    ghost use Rattle.std.specs.FinMap.{from_entries};

    ghost view = { λ p. from_entries p.parts.entries };
}

impl Patch {
    ghost use Rattle.sacn_patch.specs.Parts.{high_part, low_part};
    ghost use Rattle.sacn_patch.specs.Patch.{refusal, with_slot, universe_frame};
    ghost use Rattle.sacn_patch.specs.declared.fault.PatchFault.TheVariants.{OutOfMemory};

    /// A patch of no slots. It takes no memory.
    pub fn new(alloc: Global) -> Self
        ensures { result ≡ map.empty }
    {
        Patch {
            parts: BTreeMap::new(alloc),
        }
    }

    /// Shows a channel on a slot of a universe: the high octet of its level there and, where it is
    /// `wide`, the low octet on the next slot.
    ///
    /// The checks come in the order `ChannelRange` (1 to `MAX_CHANNELS`), `SlotRange` (universe 1 to
    /// `MAX_UNIVERSE`, slot 1 to `SLOTS`, a wide channel not on the last slot), `SlotTaken`, then
    /// `OutOfMemory`. After each the patch is as it was.
    pub fn add(
        &mut self,
        channel: u16,
        universe: u16,
        slot: u16,
        wide: bool,
    ) -> Result<(), PatchFault>
        ensures added { OnOk result (self.new ≡ with_slot self.old channel universe slot wide) }
        ensures accepted { OnOk result (refusal self.old channel universe slot wide ≡ None) }
        ensures refused { IfErr result
            (λ fault. fault ≡ unwrap_or (refusal self.old channel universe slot wide) OutOfMemory) }
        ensures unchanged { OnErr result (self.new ≡ self.old) }
    {
        if let Some(fault) = self.refusal(channel, universe, slot, wide) {
            return Err(fault);
        }
        if wide {
            self.put_wide(channel, universe, slot)?;
        } else {
            self.put(universe, slot, high_part(channel))?;
        }
        Ok(())
    }

    /// A patch that shows the same. The only fault is `OutOfMemory`.
    pub fn try_copy(&self) -> Result<Self, PatchFault>
        ensures copied { IfOk result (λ copy. copy ≡ self.now) }
        ensures refused { IfErr result (λ fault. fault ≡ OutOfMemory) }
    {
        let parts = self.parts.clone()?;
        Ok(Patch { parts })
    }

    /// The same patch in one row, from which frames are made faster. The only fault is `OutOfMemory`.
    pub fn flat(&self, alloc: Global) -> Result<FlatPatch, PatchFault>
        ensures flat { IfOk result (λ flat. flat ≡ self.now) }
        ensures refused { IfErr result (λ fault. fault ≡ OutOfMemory) }
    {
        let mut row = Vec::new(alloc);
        for (place, part) in self.parts.iter() {
            row.push((*place, *part))?;
        }
        Ok(FlatPatch::of(alloc, row)?)
    }

    /// Writes the slots of a universe, each in its place: slot `s` at index `s - 1`. A slot that
    /// isn't patched is 0, and so are all slots of a universe that has none.
    ///
    /// It costs the slots that are patched in the universe, and asks for a level once for each of
    /// them, or once for both slots of a wide channel.
    pub fn fill<L: LevelOf>(&self, universe: u16, levels: &L, slots: &mut [u8; SLOTS])
        ensures { slots.new ≡ universe_frame (L.level levels.now) self.now universe }
    {
        slots.fill(0);
        let mut asked = None;
        for (place, part) in self.parts.range((universe, 1)..=(universe, SLOTS as u16)) {
            let level = level_once(asked, part.channel, levels);
            asked = Some((part.channel, level));
            slots[place.1 as usize - 1] = byte_of(*part, level);
        }
    }

    /// The channel of whose level a slot of a universe shows an octet.
    pub fn channel_at(&self, universe: u16, slot: u16) -> Option<u16>
        ensures { result ≡ option_map (λ part. part.channel) (map.get self.now (universe, slot)) }
    {
        match self.part_at(universe, slot) {
            Some(part) => Some(part.channel),
            None => None,
        }
    }

    fn part_at(&self, universe: u16, slot: u16) -> Option<&Part>
        ensures { option_map (λ part. part.now) result ≡ map.get self.now (universe, slot) }
    {
        self.parts.get(&(universe, slot))
    }

    // The first check that fails.
    fn refusal(&self, channel: u16, universe: u16, slot: u16, wide: bool) -> Option<PatchFault>
        ensures { result ≡ refusal self.now channel universe slot wide }
    {
        if channel < 1 || MAX_CHANNELS < channel {
            return Some(PatchFault::ChannelRange);
        }
        if has_bad_place(universe, slot, wide) {
            return Some(PatchFault::SlotRange);
        }
        if self.is_patched(universe, slot) || wide && self.is_patched(universe, slot + 1) {
            return Some(PatchFault::SlotTaken);
        }
        None
    }

    fn is_patched(&self, universe: u16, slot: u16) -> bool
        ensures { result ≡ is_some (map.get self.now (universe, slot)) }
    {
        self.parts.contains_key(&(universe, slot))
    }

    // Both slots of a wide channel, or neither.
    fn put_wide(&mut self, channel: u16, universe: u16, slot: u16) -> Result<(), AllocError>
        requires free { map.get self.old (universe, slot) ≡ None }
        requires next { slot < SLOTS }
        ensures put { OnOk result (self.new ≡ map.insert (map.insert self.old (universe, slot)
            (high_part channel)) (universe, slot + 1) (low_part channel)) }
        ensures unchanged { OnErr result (self.new ≡ self.old) }
    {
        self.put(universe, slot, high_part(channel))?;
        match self.put(universe, slot + 1, low_part(channel)) {
            Ok(()) => Ok(()),
            Err(error) => {
                self.take_out(universe, slot);
                Err(error)
            }
        }
    }

    fn put(&mut self, universe: u16, slot: u16, part: Part) -> Result<(), AllocError>
        ensures put { OnOk result (self.new ≡ map.insert self.old (universe, slot) part) }
        ensures unchanged { OnErr result (self.new ≡ self.old) }
    {
        let _ = self.parts.insert((universe, slot), part)?;
        Ok(())
    }

    fn take_out(&mut self, universe: u16, slot: u16)
        ensures { self.new ≡ map.remove self.old (universe, slot) }
    {
        let _ = self.parts.remove(&(universe, slot));
    }
}

// The level of a channel. It is asked for only where another channel was asked for just before.
fn level_once<L: LevelOf>(asked: Option<(u16, u16)>, channel: u16, levels: &L) -> u16
    requires { ForSome asked (λ p. p.1 ≡ L.level levels.now p.0) }
    ensures { result ≡ L.level levels.now channel }
{
    match asked {
        Some((before, level)) => {
            if before == channel {
                level
            } else {
                levels.level_of(channel)
            }
        }
        None => levels.level_of(channel),
    }
}

// Whether the place is outside its ranges. A wide channel needs the next slot too.
fn has_bad_place(universe: u16, slot: u16, wide: bool) -> bool
    ensures { result ≡ has_bad_place universe slot wide }
{
    universe < 1
        || MAX_UNIVERSE < universe
        || slot < 1
        || SLOTS < slot as usize
        || wide && SLOTS < slot as usize + 1
}
