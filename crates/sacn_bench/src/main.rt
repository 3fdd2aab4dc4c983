//! The jobs that a user waits for, for measuring: each makes its own input by a seed, hands it to the calls that the programs are made
//! of, and prints a digest of all that they give. Its words are a job's name, a seed and how often the job is done.
#![tactic(auto)]

mod chance;
mod digest;
mod evenings;
mod fault;
mod files;
mod fixtures;
mod listers;
mod lists;
mod page;
mod pages;
mod tape;
mod tellings;
mod text;
mod voice;
mod work;
mod worlds;

use digest::Digest;
use fault::WorkFault;
use std::alloc::Global;
use std::process::ExitCode;
use std::{env, io};
use work::Work;

/// The jobs.
const JOBS: [&str; 9] = [
    "lines", "frames", "crowd", "worlds", "files", "evenings", "fixtures", "lists", "pages",
];

fn main(rt: HostRuntime) -> ExitCode {
    match run(&rt) {
        Ok(true) => ExitCode::from(0),
        _ => ExitCode::from(1),
    }
}

/// Prints the digest of each job that is asked for; whether all were done.
fn run(rt: &HostRuntime) -> Result<bool, io::Error> {
    let words: Vec<String> = env::args(rt)?.collect(rt.alloc())?;
    let asked = match words.get(1) {
        Some(word) => word.as_str(),
        None => "",
    };
    let mut is_done = (asked == "all") | JOBS.contains(&asked);
    for name in JOBS {
        if (asked == "all") | (asked == name) {
            match digest_of(rt.alloc(), name, words.as_slice()) {
                Ok(value) => println!(rt; "{name} {value:016x}")?,
                Err(fault) => {
                    is_done = false;
                    println!(rt; "{name}: {fault}")?;
                }
            }
        }
    }
    Ok(is_done)
}

fn number_in(words: &[String], place: usize) -> Result<u32, WorkFault> {
    let Some(word) = words.get(place) else {
        return Err(WorkFault::Words);
    };
    match word.as_str().parse() {
        Ok(number) => Ok(number),
        Err(_) => Err(WorkFault::Words),
    }
}

fn digest_of(alloc: Global, name: &str, words: &[String]) -> Result<u64, WorkFault> {
    let work = Work {
        alloc,
        seed: number_in(words, 2)?,
        rounds: number_in(words, 3)?,
    };
    let mut digest = Digest::new(alloc)?;
    match name {
        "lines" => tellings::lines(&work, &mut digest)?,
        "frames" => tellings::frames(&work, &mut digest)?,
        "crowd" => tellings::crowd(&work, &mut digest)?,
        "worlds" => worlds::worlds(&work, &mut digest)?,
        "files" => files::files(&work, &mut digest)?,
        "evenings" => evenings::evenings(&work, &mut digest)?,
        "fixtures" => fixtures::fixtures(&work, &mut digest)?,
        "lists" => lists::lists(&work, &mut digest)?,
        "pages" => pages::pages(&work, &mut digest)?,
        _ => return Err(WorkFault::Words),
    }
    Ok(digest.value()?)
}
