//! What a caller of a world can rely on.
ghost use Rattle.std.specs.Prelude.{IfOk, map};
ghost use Rattle.sacn_world.specs.Headline.{EveryFrameIsTheMergeOfWhatWasSent};

use crate::Outcome;
use fixtures::texts::{SCHEDULE, WORLD};
use sacn_console::Show;
use sacn_node::NodeSetup;
use sacn_schedule::{Event, TextFault, WorldTextFault, read_schedule, read_world};
use sacn_world::laws::headline;
use sacn_world::{Answer, World, WorldFault};
use std::alloc::Global;

/// The answers of a world of these shows and setups to these events. Whoever calls it can rely on each frame among them.
fn outputs(
    alloc: Global,
    shows: Vec<(Show, u8)>,
    setups: Vec<NodeSetup>,
    events: &[Event],
) -> Result<Vec<Answer>, WorldFault>
    ensures { IfOk result (λ answers. EveryFrameIsTheMergeOfWhatWasSent shows.items
        (map (λ n. n.ports) setups.items) events.now answers.items) }
{
    headline();
    match World::new(alloc, shows, setups) {
        Ok(mut world) => match world.run(events) {
            Ok(answers) => Ok(answers),
            Err(stopped) => Err(stopped.fault),
        },
        Err(_) => Err(WorldFault::OutOfMemory),
    }
}

/// Whether the fifth of eight events was a look at a frame whose slot 1 is at full.
fn is_lit(answers: &[Answer]) -> bool {
    match answers {
        [_, _, _, _, Answer::Shown(frame), _, _, _] => frame[1] == 255,
        _ => false,
    }
}

/// The example's world, made and run by a caller that has no other contract than the headline.
fn world_run(alloc: Global) -> Outcome {
    let (shows, setups) = match read_world(alloc, WORLD) {
        Ok(found) => found,
        Err(WorldTextFault::OutOfMemory) => return Outcome::Refused,
        Err(_) => return Outcome::Wrong("a world's file that is relied on"),
    };
    let events = match read_schedule(alloc, SCHEDULE) {
        Ok(found) => found,
        Err(TextFault::OutOfMemory) => return Outcome::Refused,
        Err(_) => return Outcome::Wrong("a schedule that is relied on"),
    };
    match outputs(alloc, shows, setups, events.as_slice()) {
        Ok(answers) if is_lit(answers.as_slice()) => Outcome::Done,
        Err(WorldFault::OutOfMemory) => Outcome::Refused,
        _ => Outcome::Wrong("a world that is relied on"),
    }
}

/// `World::new` and `run`, relied on by the headline alone.
pub fn calls_made(alloc: Global) -> Outcome {
    match world_run(alloc) {
        Outcome::Refused => match world_run(alloc) {
            Outcome::Done => Outcome::Refused,
            _ => Outcome::Wrong("a world that is relied on, made again"),
        },
        other => other,
    }
}
