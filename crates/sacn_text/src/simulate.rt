//! A world, run by a schedule.
ghost use Rattle.std.specs.Prelude.{◌≡◌, false, None, IfOk, IfErr, OnOk, List, [], ℕ};
ghost use Rattle.sacn_edge.specs.Additions.{Adds};
ghost use Rattle.sacn_text.specs.Simulating.{line_of, shown_line, simulated, world_at_start, Breaks, Ends, Stops};

use crate::fault::SimFault;
use crate::look::{frame_words, look_line};
use sacn_edge::{Out, write_text};
use sacn_world::{
    Answer, Event, NewFault, TextFault, World, WorldFault, WorldTextFault, read_schedule,
    read_world,
};
use std::alloc::{AllocError, Global};

// A look's line, by its answer.
fn shown_line(
    alloc: Global,
    node: usize,
    port: u8,
    moment: u64,
    answer: &Answer,
) -> Result<Vec<u8>, AllocError>
    ensures { IfOk result (λ text. text.items ≡ shown_line node port moment answer.now) }
{
    match answer {
        Answer::Shown(frame) => {
            let words = frame_words(alloc, frame)?;
            look_line(alloc, node, port, moment, words.as_slice())
        }
        Answer::NoSuchPort => look_line(alloc, node, port, moment, b" noport"),
        _ => Ok(Vec::new(alloc)),
    }
}

// The line of an event, which only a look has.
fn line_of(alloc: Global, event: &Event, answer: &Answer) -> Result<Vec<u8>, AllocError>
    ensures { IfOk result (λ text. text.items ≡ line_of event.now answer.now) }
{
    match event {
        Event::Look(node, port, moment) => shown_line(alloc, *node, *port, *moment, answer),
        _ => Ok(Vec::new(alloc)),
    }
}

// Gives the world the events in turn, and writes the lines of the looks.
fn simulate<O: Out>(
    alloc: Global,
    world: &mut World,
    events: &[Event],
    out: &mut O,
) -> Result<(), SimFault>
    requires { O.failed out.old ≡ false }
    ensures ok { OnOk result ((O.failed out.new ≡ false)
        × ((simulated world.old 0 events.now).refused ≡ None)
        × Adds (O.Tells out.old) (O.Tells out.new) (simulated world.old 0 events.now).text) }
    ensures err { IfErr result (λ fault. Breaks fault (O.failed out.new)
        (Adds (O.Tells out.old) (O.Tells out.new)) (simulated world.old 0 events.now)) }
{
    for i in 0..events.len() {
        let event = &events[i];
        match world.step(event) {
            Ok(answer) => {
                let Ok(line) = line_of(alloc, event, &answer) else {
                    return Err(SimFault::OutOfMemory);
                };
                let Ok(_) = write_text(out, line.as_slice()) else {
                    return Err(SimFault::WriteFailed);
                };
            }
            Err(WorldFault::OutOfMemory) => return Err(SimFault::OutOfMemory),
            Err(fault) => return Err(SimFault::Event(i, fault)),
        }
    }
    Ok(())
}

/// Runs the world of a text by the events of a schedule, and writes a line for each look: up to the first
/// event that the world refuses, and nothing where one of the texts is refused.
pub fn sim_text<O: Out>(
    alloc: Global,
    world: &str,
    schedule: &str,
    out: &mut O,
) -> Result<(), SimFault>
    requires { O.failed out.old ≡ false }
    ensures ok { OnOk result (Ends (O.failed out.new)
        (Adds (O.Tells out.old) (O.Tells out.new)) world.now schedule.now) }
    ensures err { IfErr result (λ fault. Stops fault (O.failed out.new)
        (Adds (O.Tells out.old) (O.Tells out.new)) world.now schedule.now) }
{
    let (shows, setups) = match read_world(alloc, world) {
        Ok(content) => content,
        Err(WorldTextFault::OutOfMemory) => return Err(SimFault::OutOfMemory),
        Err(fault) => return Err(SimFault::World(fault)),
    };
    let events = match read_schedule(alloc, schedule) {
        Ok(events) => events,
        Err(TextFault::OutOfMemory) => return Err(SimFault::OutOfMemory),
        Err(fault) => return Err(SimFault::Schedule(fault)),
    };
    match World::new(alloc, shows, setups) {
        Ok(mut world) => simulate(alloc, &mut world, events.as_slice(), out),
        Err(NewFault::OutOfMemory) => Err(SimFault::OutOfMemory),
        Err(NewFault::SameCid) => Err(SimFault::World(WorldTextFault::SameCid)),
    }
}
