//! World files and schedules.
use crate::Outcome;
use fixtures::packets::CID;
use sacn_console::{Command, Show};
use sacn_node::NodeSetup;
use sacn_schedule::{Event, TextFault, WorldTextFault, read_schedule, read_world};
use std::alloc::Global;

const WORLD: &str = "version = 1
[[console]]
first = 254
[console.show]
version = 1
cid = \"00010203-0405-0607-0809-0a0b0c0d0e0f\"
name = \"Desk\"
universes = [1]
[[console.show.cue]]
number = 1
fade = 0
levels = [[1, 65535]]
[[node]]
[node.setup]
version = 1
[[node.setup.port]]
number = 1
universe = 1
[[node]]
[node.setup]
version = 1
";

const SCHEDULE: &str = "order 0 0 set 1 65535
# comments say nothing
noise 0 5 aB01
noise 0 5 -
look 0 1 0
";

fn is_desk(desk: &(Show, u8)) -> bool {
    let show = &desk.0;
    let named = show.cid() == CID && show.name() == "Desk";
    named && show.universes() == [1].as_slice() && desk.1 == 254
}

fn is_node(setup: &NodeSetup) -> bool {
    match setup.ports() {
        [port] => port.number() == 1 && port.ranges().len() == 1 && setup.udp_port() == 5568,
        _ => false,
    }
}

/// Whether the members are those of the text: a console, a node of one port, and one of none.
fn is_read(desks: &[(Show, u8)], setups: &[NodeSetup]) -> bool {
    match (desks, setups) {
        ([desk], [node, bare]) => is_desk(desk) && is_node(node) && bare.ports().is_empty(),
        _ => false,
    }
}

fn world_read(alloc: Global) -> Outcome {
    match read_world(alloc, WORLD) {
        Ok((desks, setups)) => Outcome::Done.provided(
            is_read(desks.as_slice(), setups.as_slice()),
            "a world",
        ),
        Err(WorldTextFault::OutOfMemory) => match read_world(alloc, WORLD) {
            Ok((desks, setups)) => Outcome::Refused.provided(
                is_read(desks.as_slice(), setups.as_slice()),
                "a world that is read again",
            ),
            Err(_) => Outcome::Wrong("a world that can't be read again"),
        },
        Err(_) => Outcome::Wrong("a world that is refused"),
    }
}

fn is_noise(event: &Event, wanted: &[u8]) -> bool {
    match event {
        Event::Noise(0, 5, octets) => octets.as_slice() == wanted,
        _ => false,
    }
}

/// Whether the events are those of the text.
fn are_read(events: &[Event]) -> bool {
    match events {
        [first, noise, silence, last] => {
            *first == Event::Order(0, 0, Command::SetLevel(1, 65535))
                && is_noise(noise, &[171, 1])
                && is_noise(silence, &[])
                && *last == Event::Look(0, 1, 0)
        }
        _ => false,
    }
}

fn schedule_read(alloc: Global) -> Outcome {
    match read_schedule(alloc, SCHEDULE) {
        Ok(events) if are_read(events.as_slice()) => Outcome::Done,
        Err(TextFault::OutOfMemory) => match read_schedule(alloc, SCHEDULE) {
            Ok(events) if are_read(events.as_slice()) => Outcome::Refused,
            _ => Outcome::Wrong("a schedule that can't be read again"),
        },
        _ => Outcome::Wrong("a schedule"),
    }
}

/// `read_world` and `read_schedule`.
pub fn calls_made(alloc: Global) -> Outcome {
    let world = world_read(alloc);
    world.then(schedule_read(alloc))
}
