//! Shows, setups and their parts as texts of TOML, with numbers by chance.
use crate::chance::Chance;
use itoa::Buffer;
use std::alloc::AllocError;

/// A number in decimal.
pub fn push_number(text: &mut String, number: u32) -> Result<(), AllocError> {
    text.push_str(Buffer::new().format(number))
}

/// A word and a number.
pub fn push_pair(text: &mut String, word: &str, number: u32) -> Result<(), AllocError> {
    text.push_str(word)?;
    push_number(text, number)
}

/// What a show has.
#[derive(Clone, Copy)]
pub struct ShowPlan {
    /// What stands before the names of its tables: nothing, or `console.show.` in a world.
    pub prefix: &'static str,
    /// Tells it from other shows.
    pub desk: u32,
    /// Its universes, and the first of them.
    pub universes: u32,
    pub first: u32,
    /// The entries of the patch on each universe, two slots for each where they are wide, else one.
    pub entries: u32,
    pub is_wide: bool,
    /// Its cues, the channels of each, and how long each fades at least, in milliseconds.
    pub cues: u32,
    pub levels: u32,
    pub fade: u32,
    /// Of 256 entries and levels so many are faulty.
    pub faults: u32,
}

// A number by chance, or now and then a faulty one.
fn push_value(
    text: &mut String,
    chance: &mut Chance,
    number: u32,
    faulty: u32,
    faults: u32,
) -> Result<(), AllocError> {
    let is_faulty = chance.any() % 256 < faults;
    push_number(text, if is_faulty { faulty } else { number })
}

/// A show: its identity, its universes, its cues and its patch.
pub fn push_show(
    text: &mut String,
    chance: &mut Chance,
    plan: &ShowPlan,
) -> Result<(), AllocError> {
    text.push_str("version = 2\ncid = \"5a7b2c00-0000-4000-8000-00000000")?;
    push_number(text, 1000 + plan.desk % 9000)?;
    push_pair(text, "\"\nname = \"Desk ", plan.desk)?;
    text.push_str("\"\nuniverses = [")?;
    for number in 0..plan.universes {
        push_number(text, plan.first.saturating_add(number))?;
        text.push_str(", ")?;
    }
    text.push_str("]\n")?;
    for number in 0..plan.cues {
        push_cue(text, chance, plan, number)?;
    }
    for universe in 0..plan.universes {
        for place in 0..plan.entries {
            push_entry(text, chance, plan, universe, place)?;
        }
    }
    Ok(())
}

/// A cue of a show.
pub fn push_cue(
    text: &mut String,
    chance: &mut Chance,
    plan: &ShowPlan,
    number: u32,
) -> Result<(), AllocError> {
    text.push_str("\n[[")?;
    text.push_str(plan.prefix)?;
    push_pair(text, "cue]]\nnumber = ", number.saturating_add(1))?;
    push_pair(
        text,
        "\nup = ",
        plan.fade.saturating_add(chance.below(1000)),
    )?;
    push_pair(
        text,
        "\ndown = ",
        plan.fade.saturating_add(chance.below(1000)),
    )?;
    text.push_str("\nlevels = [")?;
    for channel in 0..plan.levels {
        text.push_str("[")?;
        push_value(text, chance, channel % 2048 + 1, 2049, plan.faults)?;
        text.push_str(", ")?;
        let level = chance.below(65_536);
        push_value(text, chance, level, 70_000, plan.faults)?;
        text.push_str("], ")?;
    }
    text.push_str("]\n")
}

fn push_entry(
    text: &mut String,
    chance: &mut Chance,
    plan: &ShowPlan,
    universe: u32,
    place: u32,
) -> Result<(), AllocError> {
    let channel = universe.wrapping_mul(plan.entries).wrapping_add(place) % 2048 + 1;
    let width = if plan.is_wide { 2 } else { 1 };
    let slot = place.wrapping_mul(width).wrapping_add(1);
    text.push_str("\n[[")?;
    text.push_str(plan.prefix)?;
    push_pair(text, "patch]]\nchannel = ", channel)?;
    text.push_str("\nuniverse = ")?;
    push_value(
        text,
        chance,
        plan.first.saturating_add(universe),
        64_000,
        plan.faults,
    )?;
    text.push_str("\nslot = ")?;
    push_value(text, chance, slot, 513, plan.faults)?;
    text.push_str(if plan.is_wide {
        "\nwide = true\n"
    } else {
        "\n"
    })
}

/// A setup of sixteen ports, each of which shows the half of one universe and of the next one. Universes rise by a step from a first
/// one on.
pub fn push_setup(
    text: &mut String,
    prefix: &str,
    first: u32,
    step: u32,
) -> Result<(), AllocError> {
    text.push_str("version = 2\n")?;
    for port in 0..16u32 {
        text.push_str("\n[[")?;
        text.push_str(prefix)?;
        push_pair(text, "port]]\nnumber = ", port + 1)?;
        push_range(
            text,
            prefix,
            first.saturating_add(port.saturating_mul(step)),
            1,
        )?;
        push_range(
            text,
            prefix,
            first.saturating_add(((port + 1) % 16).saturating_mul(step)),
            257,
        )?;
    }
    Ok(())
}

fn push_range(text: &mut String, prefix: &str, universe: u32, slot: u32) -> Result<(), AllocError> {
    text.push_str("\n[[")?;
    text.push_str(prefix)?;
    push_pair(text, "port.range]]\nuniverse = ", universe)?;
    push_pair(text, "\nslot = ", slot)?;
    push_pair(text, "\ncount = 256\nport_slot = ", slot)?;
    text.push_str("\n")
}
