//! What a desk's page is told in JSON (docs/FILES.md tells the members).

use sacn_console::{ConsoleCore, Show, State, UniverseLine};
use sacn_cues::MAX_CUES;
use sacn_desk::DeskState;
use std::alloc::{AllocError, Global};
use std::fmt::Write;

/// The most runs of universes that are told at once.
const MAX_RUNS: usize = 64;

/// The cues of a show, in the order of their numbers.
///
/// Errors: a growth was refused.
pub fn cues_of(alloc: Global, show: &Show) -> Result<String, AllocError> {
    let mut text = String::new(alloc);
    text.push('[')?;
    let mut last = None;
    for _ in 0..MAX_CUES {
        let Some((number, cue)) = show.cues().next_above(last) else {
            break;
        };
        if last.is_some() {
            text.push(',')?;
        }
        push_cue(&mut text, number, cue.up, cue.down, cue.levels.len())?;
        last = Some(number);
    }
    text.push(']')?;
    Ok(text)
}

fn push_cue(
    text: &mut String,
    number: u16,
    up: u32,
    down: u32,
    channels: usize,
) -> Result<(), AllocError> {
    text.push_str("{\"number\":")?;
    write!(text, "{number},\"up\":{up},\"down\":{down}")?;
    write!(text, ",\"channels\":{channels}")?;
    text.push('}')
}

/// Writes what runs now.
///
/// Errors: a growth was refused.
pub fn push_state(
    text: &mut String,
    core: &ConsoleCore,
    state: DeskState,
) -> Result<(), AllocError> {
    text.push_str("{\"cue\":")?;
    push_number(text, state.cue)?;
    text.push_str(",\"next\":")?;
    push_number(text, state.next)?;
    let (master, left) = (state.master, state.fade_left);
    write!(text, ",\"master\":{master},\"left\":{left}")?;
    text.push_str(",\"universes\":[")?;
    push_universes(text, core.lines())?;
    text.push_str("]}")
}

fn push_number(text: &mut String, number: Option<u16>) -> Result<(), AllocError> {
    match number {
        Some(number) => {
            write!(text, "{number}")?;
            Ok(())
        }
        None => text.push_str("null"),
    }
}

/// Neighbouring universes of one state.
#[derive(Clone, Copy)]
struct Run {
    first: u16,
    last: u16,
    state: &'static str,
}

fn state_name(state: &State) -> &'static str {
    match state {
        State::Running(_) => "running",
        State::Ending(_) => "ending",
        State::Stopped => "ended",
    }
}

// The universes of a show as runs, of which the first `MAX_RUNS` are told.
fn push_universes(text: &mut String, lines: &[UniverseLine]) -> Result<(), AllocError> {
    let mut run: Option<Run> = None;
    let mut told: usize = 0;
    for line in lines {
        if told >= MAX_RUNS {
            return Ok(());
        }
        let state = state_name(&line.state);
        match longer(run, line.universe, state) {
            Some(longer) => run = Some(longer),
            None => {
                if let Some(run) = run {
                    push_run(text, run, told > 0)?;
                    told = told.saturating_add(1);
                }
                run = Some(Run {
                    first: line.universe,
                    last: line.universe,
                    state,
                });
            }
        }
    }
    match run {
        Some(run) if told < MAX_RUNS => push_run(text, run, told > 0),
        _ => Ok(()),
    }
}

// The run with this universe behind it, where it is its neighbour and has its state.
fn longer(run: Option<Run>, universe: u16, state: &'static str) -> Option<Run> {
    match run {
        Some(run) if run.last.checked_add(1) == Some(universe) && run.state == state => {
            Some(Run {
                last: universe,
                ..run
            })
        }
        _ => None,
    }
}

fn push_run(text: &mut String, run: Run, is_further: bool) -> Result<(), AllocError> {
    if is_further {
        text.push(',')?;
    }
    let Run { first, last, state } = run;
    write!(text, "[{first},{last},\"{state}\"]")?;
    Ok(())
}
