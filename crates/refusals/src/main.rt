//! Calls that take memory, each checked where one request of the run is refused, and (module `reliance`) what a caller can rely on.
//!
//! With ample memory it prints `all calls done` and ends with status 0. `rt try --fail-alloc N` makes the Nth
//! request fail. A run in which a call answered for want of memory, left what its contract says and
//! succeeded when it was made again ends with status 3; any other prints what is wrong with status 0.
#![tactic(auto)]

mod consoles;
mod cues;
mod discovery;
mod nodes;
mod patches;
mod reliance;
mod simulations;
mod sources;
mod world_files;
mod worlds;

use std::alloc::AllocError;
use std::process::ExitCode;

/// What came of the calls of one crate.
#[derive(Clone, Copy, PartialEq, Eq)]
pub enum Outcome {
    /// Every call succeeded.
    Done,
    /// One request was refused, and the call left what it should.
    Refused,
    /// A refused call left something else, or did not succeed when it was made again.
    Wrong(&'static str),
}

impl Outcome {
    /// The outcome of more calls after these.
    pub fn then(self, next: Outcome) -> Outcome {
        match (self, next) {
            (Outcome::Wrong(what), _) => Outcome::Wrong(what),
            (_, Outcome::Wrong(what)) => Outcome::Wrong(what),
            (Outcome::Done, Outcome::Done) => Outcome::Done,
            _ => Outcome::Refused,
        }
    }

    /// This outcome, where what a call gave is as it should be.
    pub fn provided(self, holds: bool, what: &'static str) -> Outcome {
        if holds { self } else { Outcome::Wrong(what) }
    }
}

fn calls_made(rt: &impl AllocGlobal) -> Result<Outcome, AllocError> {
    let patches = patches::calls_made(rt.alloc());
    let cues = cues::calls_made(rt.alloc())?;
    let discovery = discovery::calls_made(rt.alloc());
    let sources = sources::calls_made(rt.alloc());
    let nodes = nodes::calls_made(rt.alloc());
    let consoles = consoles::calls_made(rt.alloc());
    let world_files = world_files::calls_made(rt.alloc());
    let worlds = worlds::calls_made(rt.alloc());
    let reliance = reliance::calls_made(rt.alloc());
    let simulations = simulations::calls_made(rt.alloc());
    Ok(
        patches
            .then(cues)
            .then(discovery)
            .then(sources)
            .then(nodes)
            .then(consoles)
            .then(world_files)
            .then(worlds)
            .then(reliance)
            .then(simulations),
    )
}

fn main(rt: HostRuntime) -> ExitCode {
    let text = match calls_made(&rt) {
        Ok(Outcome::Done) => "all calls done",
        Ok(Outcome::Refused) | Err(AllocError) => return ExitCode::from(3),
        Ok(Outcome::Wrong(what)) => what,
    };
    match println!(rt; "{text}") {
        Ok(()) => ExitCode::from(0),
        Err(_) => ExitCode::from(4),
    }
}
