//! Worlds, and runs of events.
use crate::Outcome;
use fixtures::packets::CID;
use fixtures::texts::{SCHEDULE, WORLD};
use sacn_node::NodeTaken;
use sacn_schedule::{Event, read_schedule, read_world};
use sacn_sources::Taken;
use sacn_world::{Answer, RunFault, World, WorldFault};
use std::alloc::Global;

/// A packet of each of two lives comes to the node, which starts anew between them.
const LIVES: &str = "poll 0 0
deliver 0 0 1000
look 0 1 3499
restart-console 0 7
poll 0 0
restart-node 0
deliver 1 0 0
look 0 1 0
";

/// What is wanted of an answer.
#[derive(Clone, Copy, PartialEq, Eq)]
enum Said {
    Ordered,
    Sent(usize),
    Held,
    /// A frame whose slot 1 is so and whose other slots are dark.
    Lit(u8),
    NoPort,
    Restarted,
    Other,
}

/// What the example's events are answered, one by one.
const EXAMPLE: [Said; 8] = [
    Said::Lit(0),
    Said::Ordered,
    Said::Sent(0),
    Said::Held,
    Said::Lit(255),
    Said::Lit(255),
    Said::Lit(0),
    Said::NoPort,
];

/// And where the node is after so many of them: it has lost the packet at the look of 3500.
const PLACES: [Option<usize>; 9] = [
    None,
    None,
    None,
    None,
    Some(0),
    Some(0),
    Some(0),
    None,
    None,
];

const OF_LIVES: [Said; 8] = [
    Said::Sent(0),
    Said::Held,
    Said::Lit(0),
    Said::Restarted,
    Said::Sent(1),
    Said::Restarted,
    Said::Held,
    Said::Lit(0),
];

const PLACES_OF_LIVES: [Option<usize>; 9] = [
    None,
    None,
    Some(0),
    Some(0),
    Some(0),
    Some(0),
    None,
    Some(1),
    Some(1),
];

fn first_lit(frame: &[u8; 513]) -> Said {
    if frame[0] == 0 && frame[2..].iter().all(|level| *level == 0) {
        Said::Lit(frame[1])
    } else {
        Said::Other
    }
}

fn word_of(answer: &Answer) -> Said {
    match answer {
        Answer::Ordered(Ok(())) => Said::Ordered,
        Answer::Sent(number) => Said::Sent(*number),
        Answer::Taken(NodeTaken::FromTable(Taken::Held)) => Said::Held,
        Answer::Shown(frame) => first_lit(frame),
        Answer::NoSuchPort => Said::NoPort,
        Answer::Restarted => Said::Restarted,
        _ => Said::Other,
    }
}

/// Whether these are the answers from one event on.
fn are_answers(answers: &[Answer], wanted: &[Said], from: usize) -> bool {
    if answers.len() != wanted.len().saturating_sub(from) {
        return false;
    }
    for place in 0..answers.len() {
        let Some(want) = wanted.get(place.saturating_add(from)) else {
            return false;
        };
        if word_of(&answers[place]) != *want {
            return false;
        }
    }
    true
}

/// A list of events with the answers that are wanted, and the place that the node holds after so many events.
#[derive(Clone, Copy)]
struct Row<'a> {
    events: &'a [Event],
    wanted: &'a [Said],
    places: &'a [Option<usize>],
}

impl Row<'_> {
    fn holds(&self, world: &World, taken: usize) -> bool {
        self.places.get(taken).copied() == Some(world.place(0, &CID, 1))
    }

    // The run from a refused event on: it is answered as the whole run is from there on.
    fn continued(&self, world: &mut World, step: usize) -> Outcome {
        if step > self.events.len() || !self.holds(world, step) {
            return Outcome::Wrong("what a refused run left");
        }
        match world.run(&self.events[step..]) {
            Ok(answers) if are_answers(answers.as_slice(), self.wanted, step) => Outcome::Refused,
            _ => Outcome::Wrong("a run that goes on after a refused event"),
        }
    }

    fn ran(&self, world: &mut World) -> Outcome {
        let outcome = match world.run(self.events) {
            Ok(answers) if are_answers(answers.as_slice(), self.wanted, 0) => Outcome::Done,
            Err(
                RunFault {
                    step,
                    fault: WorldFault::OutOfMemory,
                },
            ) => self.continued(world, step),
            _ => Outcome::Wrong("a run"),
        };
        if self.holds(world, self.events.len()) {
            outcome
        } else {
            Outcome::Wrong("what a run left")
        }
    }
}

/// A new world holds nothing.
fn new_world(alloc: Global) -> Option<World> {
    match read_world(alloc, WORLD) {
        Ok((desks, setups)) => World::new(alloc, desks, setups).ok(),
        Err(_) => None,
    }
}

fn events_run(alloc: Global, row: Row<'_>) -> Outcome {
    match new_world(alloc) {
        Some(mut world) => row.ran(&mut world),
        None => match new_world(alloc) {
            Some(mut world) => Outcome::Refused.then(row.ran(&mut world)),
            None => Outcome::Wrong("a world that can't be made again"),
        },
    }
}

fn schedule_run(alloc: Global, text: &str, wanted: &[Said], places: &[Option<usize>]) -> Outcome {
    let (read, events) = match read_schedule(alloc, text) {
        Ok(events) => (Outcome::Done, events),
        Err(_) => match read_schedule(alloc, text) {
            Ok(events) => (Outcome::Refused, events),
            Err(_) => return Outcome::Wrong("a schedule that can't be read again"),
        },
    };
    let row = Row {
        events: events.as_slice(),
        wanted,
        places,
    };
    read.then(events_run(alloc, row))
}

/// `World::new`, and `run`, which takes its events by `step`.
pub fn calls_made(alloc: Global) -> Outcome {
    let example = schedule_run(alloc, SCHEDULE, &EXAMPLE, &PLACES);
    example.then(schedule_run(alloc, LIVES, &OF_LIVES, &PLACES_OF_LIVES))
}
