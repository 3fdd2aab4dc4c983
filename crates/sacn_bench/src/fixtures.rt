//! Consoles of rigs: patches of fixtures in any order, cues that follow one another, and a master that moves.
use crate::chance::Chance;
use crate::digest::Digest;
use crate::fault::WorkFault;
use crate::text::{ShowPlan, push_cue, push_pair, push_show};
use crate::work::Work;
use sacn_console::limits::MAX_DATAGRAM;
use sacn_console::{Command, ConsoleCore, read_show};
use std::alloc::AllocError;

/// A level or a master at full.
const FULL: u16 = 65_535;

/// The cues of a rig.
const CUES: u32 = 8;

/// From one cue to the next so many moments of 25 ms pass, about as long as a cue fades.
const CUE_MOMENTS: u32 = 120;

/// The moments in which all cues are gone to once.
const ROUND_MOMENTS: u32 = CUES * CUE_MOMENTS;

/// What a rig has.
#[derive(Clone, Copy)]
struct Rig {
    universes: u32,
    /// The slots of each universe on which fixtures stand.
    slots: u32,
    channels: u16,
}

/// A desk with one universe, of which a small show lights a few slots.
const LOOK: Rig = Rig {
    universes: 1,
    slots: 64,
    channels: 48,
};

/// Rigs that fill one universe and four, and one with gaps over sixteen.
const SMALL: Rig = Rig {
    universes: 1,
    slots: 512,
    channels: 384,
};

const MIDDLE: Rig = Rig {
    universes: 4,
    slots: 512,
    channels: 1536,
};

const LARGE: Rig = Rig {
    universes: 16,
    slots: 192,
    channels: 2048,
};

/// Evenings of consoles of 1, 4 and 16 universes whose channels are those of fixtures, mostly all fading: with the master at full, below
/// full, and moving.
pub fn fixtures(work: &Work, digest: &mut Digest) -> Result<(), WorkFault> {
    for round in 0..work.rounds {
        let mut chance = Chance::new(work.seed_of(round), 7);
        for rig in [LOOK, SMALL, MIDDLE, LARGE] {
            evening(work, &mut chance, &rig, digest)?;
        }
    }
    Ok(())
}

// All cues are gone to three times, and the console is asked 40 times a second for all that is due.
fn evening(
    work: &Work,
    chance: &mut Chance,
    rig: &Rig,
    digest: &mut Digest,
) -> Result<(), WorkFault> {
    let mut text = String::new(work.alloc);
    push_rig(work, &mut text, chance, rig)?;
    let show = read_show(work.alloc, text.as_str())?;
    let mut core = ConsoleCore::new(work.alloc, &show, 0)?;
    let mut octets = [0; MAX_DATAGRAM];
    for turn in 0..3 * ROUND_MOMENTS {
        let now = u64::from(turn) * 25;
        for order in [cue_order(turn), master_order(turn)] {
            if let Some(command) = order {
                digest.count(u64::from(core.command(now, command).is_ok()))?;
            }
        }
        for _ in 0..rig.universes.saturating_add(8) {
            let Some(count) = core.poll(now, &mut octets) else {
                break;
            };
            if let Some(datagram) = octets.get(..count) {
                digest.take(datagram)?;
            }
        }
    }
    Ok(())
}

// The first cue, then one after another.
fn cue_order(turn: u32) -> Option<Command> {
    if turn % CUE_MOMENTS != 0 {
        return None;
    }
    if turn % ROUND_MOMENTS == 0 {
        return Some(Command::GoTo(1));
    }
    Some(Command::Go)
}

// The master rests at full, then below, and then moves up and down, by a step at each moment.
fn master_order(turn: u32) -> Option<Command> {
    if turn == ROUND_MOMENTS {
        return Some(Command::Master(40_000));
    }
    if turn < 2 * ROUND_MOMENTS {
        return None;
    }
    let step = (turn % 200) as u16 * 327;
    Some(Command::Master(if turn % 400 < 200 { step } else { FULL - step }))
}

// A show whose channels are those of fixtures.
fn push_rig(
    work: &Work,
    text: &mut String,
    chance: &mut Chance,
    rig: &Rig,
) -> Result<(), AllocError> {
    let plan = ShowPlan {
        prefix: "",
        desk: 3,
        universes: rig.universes,
        first: 1,
        entries: 0,
        is_wide: false,
        cues: 0,
        levels: u32::from(rig.channels),
        fade: 2500,
        faults: 0,
    };
    push_show(text, chance, &plan)?;
    for number in 0..CUES {
        let levels = match number % 4 {
            2 => plan.levels / 2,
            3 => plan.levels.min(64),
            _ => plan.levels,
        };
        push_cue(text, chance, &ShowPlan { levels, ..plan }, number)?;
    }
    push_fixtures(work, text, chance, rig)
}

/// A fixture: its channels are so many from the one after this.
#[derive(Clone, Copy)]
struct Fixture {
    before: u32,
    width: u32,
}

// The patch: fixtures of 4 to 30 channels in any order, one behind another on the slots, with gaps between some.
fn push_fixtures(
    work: &Work,
    text: &mut String,
    chance: &mut Chance,
    rig: &Rig,
) -> Result<(), AllocError> {
    let mut fixtures = cut(work, chance, u32::from(rig.channels))?;
    shuffle(&mut fixtures, chance);
    let mut universe = 1u32;
    let mut slot = 1u32;
    for fixture in &fixtures {
        // A fixture stands on one universe, and takes two slots a channel at most.
        if slot.saturating_add(fixture.width.saturating_mul(2)) > rig.slots.saturating_add(1) {
            universe = universe.saturating_add(1);
            slot = 1;
        }
        if universe > rig.universes {
            return Ok(());
        }
        slot = push_fixture(text, chance, fixture, universe, slot)?;
        if chance.any() % 4 == 0 {
            slot = slot.saturating_add(chance.below(6));
        }
    }
    Ok(())
}

// The channels as fixtures.
fn cut(work: &Work, chance: &mut Chance, channels: u32) -> Result<Vec<Fixture>, AllocError> {
    let mut fixtures = Vec::new(work.alloc);
    let mut before = 0u32;
    for _ in 0..channels {
        let width = chance
            .below(27)
            .saturating_add(4)
            .min(channels.saturating_sub(before));
        if width == 0 {
            break;
        }
        fixtures.push(Fixture { before, width })?;
        before = before.saturating_add(width);
    }
    Ok(fixtures)
}

fn shuffle(fixtures: &mut [Fixture], chance: &mut Chance) {
    for at in 1..fixtures.len() {
        let other = chance.any() as usize % (at + 1);
        let moved = fixtures[at];
        fixtures[at] = fixtures[other];
        fixtures[other] = moved;
    }
}

// The entries of a fixture, and the slot behind it: its channels in turn, from the last one back, or first every second one. One of
// eight channels is wide.
fn push_fixture(
    text: &mut String,
    chance: &mut Chance,
    fixture: &Fixture,
    universe: u32,
    slot: u32,
) -> Result<u32, AllocError> {
    let order = chance.below(3);
    let half = fixture.width.saturating_add(1) / 2;
    let mut slot = slot;
    for place in 0..fixture.width {
        let channel = match order {
            0 => place,
            1 => fixture.width - 1 - place,
            _ if place < half => place.saturating_mul(2),
            _ => place
                .saturating_sub(half)
                .saturating_mul(2)
                .saturating_add(1),
        };
        let is_wide = chance.any() % 8 == 0;
        push_pair(
            text,
            "\n[[patch]]\nchannel = ",
            fixture.before.saturating_add(channel).saturating_add(1),
        )?;
        push_pair(text, "\nuniverse = ", universe)?;
        push_pair(text, "\nslot = ", slot)?;
        text.push_str(if is_wide { "\nwide = true\n" } else { "\n" })?;
        slot = slot.saturating_add(if is_wide { 2 } else { 1 });
    }
    Ok(slot)
}
