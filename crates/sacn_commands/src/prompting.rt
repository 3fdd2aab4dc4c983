//! Whether a desk has a prompt, and what it writes to.
use sacn_desk::{Prompt, PromptWriter};
use sacn_machine::sys::{STDERR, STDIN, is_terminal};
use sacn_machine::{Outlet, Outputs, output_is_terminal};
use std::env::{self, Env};

/// The columns of a terminal of which nothing says how many it has.
const USUAL_COLUMNS: usize = 80;

// What a variable of the environment says, where it says something.
fn variable<R: AllocGlobal + Env>(rt: &R, name: &str) -> Option<String> {
    match env::var(rt, name) {
        Ok(value) if !value.is_empty() => Some(value),
        _ => None,
    }
}

// Whether orders are typed on a terminal: on standard input itself, or before the launcher, which hands them on and says so.
fn is_typed<R: AllocGlobal + Env>(rt: &R) -> bool {
    is_terminal(STDIN) || variable(rt, "SACN_TYPED").is_some()
}

// Whether the terminal may be sent what clears a line.
fn clears_lines<R: AllocGlobal + Env>(rt: &R) -> bool {
    let is_dumb = match variable(rt, "TERM") {
        Some(name) => name.as_str() == "dumb",
        None => false,
    };
    !is_dumb && variable(rt, "NO_COLOR").is_none()
}

fn columns<R: AllocGlobal + Env>(rt: &R) -> usize {
    match variable(rt, "COLUMNS") {
        Some(word) => word.as_str().parse::<usize>().unwrap_or(USUAL_COLUMNS),
        None => USUAL_COLUMNS,
    }
}

/// The prompt of a desk whose orders are typed on a terminal and answered on one; none where that can't clear a line, or is asked
/// to be left without escapes.
pub(crate) fn prompt_of<R: AllocGlobal + Env>(rt: &R) -> Option<Prompt> {
    if is_typed(rt) && output_is_terminal() && clears_lines(rt) {
        Some(Prompt::new(columns(rt)))
    } else {
        None
    }
}

/// Standard output, with the prompt, where there is one.
pub(crate) fn output_with<'a>(
    outputs: &'a Outputs,
    prompt: Option<&'a Prompt>,
) -> PromptWriter<'a, Outlet<'a>> {
    if prompt.is_some() {
        outputs.begin_prompts();
    }
    PromptWriter::new(outputs.out(), prompt)
}

/// Standard error, whose lines take the place of the prompt where they stand on a terminal too.
pub(crate) fn errors_beside<'a>(
    outputs: &'a Outputs,
    prompt: Option<&'a Prompt>,
) -> PromptWriter<'a, Outlet<'a>> {
    let beside = if is_terminal(STDERR) { prompt } else { None };
    PromptWriter::new(outputs.err(), beside)
}
