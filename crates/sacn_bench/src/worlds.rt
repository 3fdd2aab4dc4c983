//! Worlds simulated.
use crate::chance::Chance;
use crate::digest::Digest;
use crate::fault::WorkFault;
use crate::text::{ShowPlan, push_pair, push_setup, push_show};
use crate::work::Work;
use sacn_text::{MarkedWriter, sim_text};
use std::alloc::AllocError;

/// From one moment of a world to the next, in milliseconds: the least time between two packets of a universe that fades.
const STEP: u32 = 25;

/// What a world has: consoles of so many universes each, all of which fade, and nodes of sixteen ports.
#[derive(Clone, Copy)]
pub struct WorldPlan {
    pub consoles: u32,
    pub universes: u32,
    /// The wide channels of each universe.
    pub entries: u32,
    pub nodes: u32,
    /// How many moments pass.
    pub moments: u32,
}

impl WorldPlan {
    /// How many packets are sent at each moment.
    fn packets(&self) -> u32 {
        self.consoles.saturating_mul(self.universes)
    }
}

/// Worlds of one console, of four and of sixteen, by schedules of some 20,000 to 60,000 events.
pub fn worlds(work: &Work, digest: &mut Digest) -> Result<(), WorkFault> {
    for round in 0..work.rounds {
        let seed = work.seed_of(round);
        let plan = match round % 3 {
            0 => plan(4, 16, 32, 2, 280),
            1 => plan(1, 4, 128, 1, 2400),
            _ => plan(16, 4, 16, 4, 100),
        };
        let mut chance = Chance::new(seed, 2);
        let mut world = String::new(work.alloc);
        push_world(&mut world, &mut chance, &plan, 0)?;
        let mut schedule = String::new(work.alloc);
        push_schedule(&mut schedule, &mut chance, &plan)?;
        simulated(work, world.as_str(), schedule.as_str(), digest)?;
    }
    Ok(())
}

fn plan(consoles: u32, universes: u32, entries: u32, nodes: u32, moments: u32) -> WorldPlan {
    WorldPlan {
        consoles,
        universes,
        entries,
        nodes,
        moments,
    }
}

fn simulated(
    work: &Work,
    world: &str,
    schedule: &str,
    digest: &mut Digest,
) -> Result<(), WorkFault> {
    let mut out = MarkedWriter::new(Digest::new(work.alloc)?);
    sim_text(work.alloc, world, schedule, &mut out)?;
    let value = out.writer.value()?;
    digest.count(value)?;
    Ok(())
}

/// The file of a world, of whose consoles some of 256 entries and levels are faulty.
pub fn push_world(
    text: &mut String,
    chance: &mut Chance,
    plan: &WorldPlan,
    faults: u32,
) -> Result<(), AllocError> {
    text.push_str("version = 1\n")?;
    for console in 0..plan.consoles {
        text.push_str("\n[[console]]\n[console.show]\n")?;
        let show = ShowPlan {
            prefix: "console.show.",
            desk: console,
            universes: plan.universes,
            first: console.saturating_mul(plan.universes).saturating_add(1),
            entries: plan.entries,
            is_wide: true,
            cues: 3,
            levels: plan.universes.saturating_mul(plan.entries).min(2048),
            fade: 120_000,
            faults,
        };
        push_show(text, chance, &show)?;
    }
    for _ in 0..plan.nodes {
        text.push_str("\n[[node]]\n[node.setup]\n")?;
        push_setup(text, "node.setup.", 1, (plan.packets() / 16).max(1))?;
    }
    Ok(())
}

/// A schedule: at each moment each console is asked for the packets of all its universes, which come to the nodes, but for some that
/// are lost, repeated or late, and some ports are looked at. Now and then a cue is gone to, or a channel is set.
pub fn push_schedule(
    text: &mut String,
    chance: &mut Chance,
    plan: &WorldPlan,
) -> Result<(), AllocError> {
    for turn in 0..plan.moments {
        let now = turn.saturating_mul(STEP);
        for console in 0..plan.consoles {
            push_orders(text, chance, console, turn, now)?;
            for _ in 0..plan.universes {
                push_line(text, "poll", &[console, now])?;
            }
        }
        for packet in 0..plan.packets() {
            push_way(text, chance, plan, turn, packet)?;
        }
        push_trouble(text, chance, plan, now)?;
        for _ in 0..plan.packets() / 4 {
            let node = chance.any() % plan.nodes.max(1);
            let port = chance.any() % 17 + 1;
            push_line(text, "look", &[node, port, now])?;
        }
    }
    Ok(())
}

fn push_words(text: &mut String, word: &str, numbers: &[u32]) -> Result<(), AllocError> {
    text.push_str(word)?;
    for number in numbers {
        push_pair(text, " ", *number)?;
    }
    Ok(())
}

fn push_line(text: &mut String, word: &str, numbers: &[u32]) -> Result<(), AllocError> {
    push_words(text, word, numbers)?;
    text.push_str("\n")
}

fn push_orders(
    text: &mut String,
    chance: &mut Chance,
    console: u32,
    turn: u32,
    now: u32,
) -> Result<(), AllocError> {
    if turn == 0 {
        push_pair(text, "order ", console)?;
        return text.push_str(" 0 go\n");
    }
    let dice = chance.any();
    if dice % 64 == 0 {
        push_pair(text, "order ", console)?;
        push_pair(text, " ", now)?;
        push_pair(text, " goto ", dice / 64 % 4 + 1)?;
        return text.push_str("\n");
    }
    if dice % 8 == 1 {
        push_pair(text, "order ", console)?;
        push_pair(text, " ", now)?;
        push_pair(text, " set ", dice / 8 % 2048 + 1)?;
        push_pair(text, " ", dice >> 16)?;
        return text.push_str("\n");
    }
    Ok(())
}

// Octets that no console sent, or a node that starts anew.
fn push_trouble(
    text: &mut String,
    chance: &mut Chance,
    plan: &WorldPlan,
    now: u32,
) -> Result<(), AllocError> {
    let dice = chance.any();
    let node = dice / 64 % plan.nodes.max(1);
    match dice % 64 {
        0 => push_line(text, "restart-node", &[node]),
        1..=8 => {
            push_words(text, "noise", &[node, now])?;
            text.push_str(" 001000004153432d45312e3137000000726e000000040001\n")
        }
        _ => Ok(()),
    }
}

// The way of a packet to each node.
fn push_way(
    text: &mut String,
    chance: &mut Chance,
    plan: &WorldPlan,
    turn: u32,
    packet: u32,
) -> Result<(), AllocError> {
    let now = turn.saturating_mul(STEP);
    let number = turn.saturating_mul(plan.packets()).saturating_add(packet);
    for node in 0..plan.nodes {
        let dice = chance.any();
        if dice % 50 != 0 {
            push_line(text, "deliver", &[number, node, now])?;
        }
        if dice % 50 == 1 {
            push_line(text, "deliver", &[number, node, now])?;
        }
        if dice % 50 == 2 {
            let back = plan.packets().saturating_mul(dice / 50 % 3 + 1);
            push_line(text, "deliver", &[number.saturating_sub(back), node, now])?;
        }
    }
    Ok(())
}
