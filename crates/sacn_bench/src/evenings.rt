//! Evenings of consoles and of nodes: their cores, moment by moment and datagram by datagram.
use crate::chance::Chance;
use crate::digest::Digest;
use crate::fault::WorkFault;
use crate::tape::PERIOD;
use crate::text::{ShowPlan, push_setup, push_show};
use crate::voice::{Rates, Voice};
use crate::work::Work;
use sacn_console::limits::MAX_DATAGRAM;
use sacn_console::{Command, ConsoleCore, read_show};
use sacn_node::{NodeCore, read_node};
use sacn_packets::FRAME_OCTETS;
use std::alloc::{AllocError, Global};

/// Evenings of consoles of 4, 64 and 1024 universes and of nodes that show 16 universes of 16 sources, or of 2, in a flood of others.
pub fn evenings(work: &Work, digest: &mut Digest) -> Result<(), WorkFault> {
    for round in 0..work.rounds {
        let seed = work.seed_of(round);
        console(work, seed, &show(4, 256), 8000, digest)?;
        console(work, seed, &show(64, 64), 1000, digest)?;
        console(work, seed, &show(1024, 4), 150, digest)?;
        node(work, seed, 16, 60_000, digest)?;
        node(work, seed, 2, 120_000, digest)?;
    }
    Ok(())
}

fn show(universes: u32, entries: u32) -> ShowPlan {
    ShowPlan {
        prefix: "",
        desk: 1,
        universes,
        first: 1,
        entries,
        is_wide: true,
        cues: 8,
        levels: universes.saturating_mul(entries).min(2048) / 2,
        fade: 4000,
        faults: 0,
    }
}

// A console is ordered by chance, and asked 40 times a second for all that is due.
fn console(
    work: &Work,
    seed: u32,
    plan: &ShowPlan,
    moments: u32,
    digest: &mut Digest,
) -> Result<(), WorkFault> {
    let mut chance = Chance::new(seed, 4);
    let mut text = String::new(work.alloc);
    push_show(&mut text, &mut chance, plan)?;
    let show = read_show(work.alloc, text.as_str())?;
    let mut core = ConsoleCore::new(work.alloc, &show, 0)?;
    let mut octets = [0; MAX_DATAGRAM];
    for turn in 0..moments {
        let now = u64::from(turn) * 25;
        if let Some(command) = order(&mut chance, turn) {
            digest.count(u64::from(core.command(now, command).is_ok()))?;
        }
        for _ in 0..plan.universes.saturating_add(8) {
            let Some(count) = core.poll(now, &mut octets) else {
                break;
            };
            if let Some(datagram) = octets.get(..count) {
                digest.take(datagram)?;
            }
        }
    }
    Ok(())
}

// The order of a moment, where there is one.
fn order(chance: &mut Chance, turn: u32) -> Option<Command> {
    let dice = chance.any();
    let number = (dice >> 16) as u16;
    if turn % 200 == 0 {
        return Some(Command::Go);
    }
    match dice % 256 {
        0 => Some(Command::GoTo(number % 8 + 1)),
        1 => Some(Command::Master(number)),
        2 => Some(Command::EndUniverse(1)),
        3 => Some(Command::StartUniverse(1)),
        4..=19 => Some(Command::SetLevel(number % 2048 + 1, number)),
        _ => None,
    }
}

// A node of sixteen ports is given datagrams of its sixteen universes, and as many of others; each of its frames that may have
// changed is made.
fn node(
    work: &Work,
    seed: u32,
    sources: u16,
    packets: u32,
    digest: &mut Digest,
) -> Result<(), WorkFault> {
    let mut text = String::new(work.alloc);
    let mut chance = Chance::new(seed, 5 + u64::from(sources));
    let first = chance.below(60_000) as u16 + 1;
    push_setup(&mut text, "", u32::from(first), 1)?;
    let setup = read_node(work.alloc, text.as_str())?;
    let mut core = NodeCore::new(work.alloc, &setup)?;
    let mut voices = voices(work.alloc, first, sources, &mut chance)?;
    let rates = Rates {
        trouble: 12,
        turns: 4,
    };
    let step = PERIOD / (voices.len() as u64).max(1);
    let mut micros = 0u64;
    for turn in 0..packets as usize {
        micros = micros.saturating_add(step);
        let at = turn % voices.len().max(1);
        let event = rates.event(&mut chance);
        if let Some(voice) = voices.get_mut(at) {
            voice.speak(micros, event, &mut chance);
            hear(&mut core, first, micros / 1000, voice, digest)?;
        }
    }
    Ok(())
}

// The voices of so many sources on each of 32 universes.
fn voices(
    alloc: Global,
    first: u16,
    sources: u16,
    chance: &mut Chance,
) -> Result<Vec<Voice>, AllocError> {
    let mut voices = Vec::new(alloc);
    for source in 0..sources {
        for number in 0..32 {
            let universe = first.saturating_add(number);
            voices.push(Voice::new(u32::from(source), universe, chance))?;
        }
    }
    Ok(voices)
}

fn hear(
    core: &mut NodeCore,
    first: u16,
    now: u64,
    voice: &Voice,
    digest: &mut Digest,
) -> Result<(), WorkFault> {
    let change = core.take_and_tell(now, voice.datagram());
    if let Some(universe) = change.universe {
        let mut frame = [0; FRAME_OCTETS];
        let port = (universe.saturating_sub(first) & 15) as u8 + 1;
        digest.count(u64::from(core.frame(now, port, &mut frame).is_ok()))?;
        digest.take(&frame)?;
    }
    digest.count(change.lost as u64)?;
    Ok(())
}
