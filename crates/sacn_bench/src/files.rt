//! Files read and checked.
use crate::chance::Chance;
use crate::digest::Digest;
use crate::fault::WorkFault;
use crate::text::{ShowPlan, push_number, push_pair, push_setup, push_show};
use crate::work::Work;
use crate::worlds::{WorldPlan, push_schedule, push_world};
use sacn_check::{faults_of, kind_of, write_report};
use std::alloc::AllocError;

/// The world whose file and schedule are checked.
const WORLD: WorldPlan = WorldPlan {
    consoles: 3,
    universes: 8,
    entries: 128,
    nodes: 2,
    moments: 200,
};

/// A show of much patch.
const WIDE: ShowPlan = ShowPlan {
    prefix: "",
    desk: 1,
    universes: 64,
    first: 1,
    entries: 128,
    is_wide: true,
    cues: 6,
    levels: 2048,
    fade: 1000,
    faults: 0,
};

/// A show of many cues.
const LONG: ShowPlan = ShowPlan {
    prefix: "",
    desk: 2,
    universes: 4,
    first: 101,
    entries: 512,
    is_wide: false,
    cues: 1000,
    levels: 24,
    fade: 0,
    faults: 0,
};

/// Shows, setups, a world, a script and a schedule of up to a mebioctet, right and faulty ones: the kind of each told, its faults found
/// and reported.
pub fn files(work: &Work, digest: &mut Digest) -> Result<(), WorkFault> {
    for round in 0..work.rounds {
        let mut chance = Chance::new(work.seed_of(round), 3);
        show(work, &mut chance, &WIDE, digest)?;
        show(work, &mut chance, &LONG, digest)?;
        let faulty = ShowPlan {
            cues: 200,
            faults: 16,
            ..LONG
        };
        show(work, &mut chance, &faulty, digest)?;
        world(work, &mut chance, 0, digest)?;
        world(work, &mut chance, 4, digest)?;
        setups(work, &mut chance, digest)?;
        lines(work, &mut chance, digest)?;
    }
    Ok(())
}

// Checks a file as the command does.
fn check(work: &Work, name: &str, text: &str, digest: &mut Digest) -> Result<(), WorkFault> {
    let Some(kind) = kind_of(work.alloc, text)? else {
        return Err(WorkFault::NoKind);
    };
    let findings = faults_of(work.alloc, kind, text)?;
    write_report(work.alloc, name, kind, &findings, digest)?;
    Ok(())
}

fn show(
    work: &Work,
    chance: &mut Chance,
    plan: &ShowPlan,
    digest: &mut Digest,
) -> Result<(), WorkFault> {
    let mut text = String::new(work.alloc);
    push_show(&mut text, chance, plan)?;
    check(work, "show.toml", text.as_str(), digest)
}

fn world(
    work: &Work,
    chance: &mut Chance,
    faults: u32,
    digest: &mut Digest,
) -> Result<(), WorkFault> {
    let mut text = String::new(work.alloc);
    push_world(&mut text, chance, &WORLD, faults)?;
    check(work, "world.toml", text.as_str(), digest)
}

fn setups(work: &Work, chance: &mut Chance, digest: &mut Digest) -> Result<(), WorkFault> {
    for _ in 0..10 {
        let mut text = String::new(work.alloc);
        push_setup(&mut text, "", chance.below(64_100), 1)?;
        check(work, "node.toml", text.as_str(), digest)?;
    }
    Ok(())
}

// A schedule and a script.
fn lines(work: &Work, chance: &mut Chance, digest: &mut Digest) -> Result<(), WorkFault> {
    let mut text = String::new(work.alloc);
    push_schedule(&mut text, chance, &WORLD)?;
    check(work, "schedule.txt", text.as_str(), digest)?;
    let mut text = String::new(work.alloc);
    push_script(&mut text, chance)?;
    check(work, "script.txt", text.as_str(), digest)
}

fn push_script(text: &mut String, chance: &mut Chance) -> Result<(), AllocError> {
    for line in 0..12_000u32 {
        push_number(text, line * 40)?;
        let dice = chance.any();
        match dice % 4 {
            0 => text.push_str(" go")?,
            1 => push_pair(text, " goto ", dice >> 20)?,
            2 => push_pair(text, " master ", dice >> 16)?,
            _ => {
                push_pair(text, " set ", dice >> 21)?;
                push_pair(text, " ", (dice >> 4) & 0xffff)?;
            }
        }
        text.push_str("\n")?;
    }
    Ok(())
}
