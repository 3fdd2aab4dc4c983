//! Lists of numbers, as ranges and as members.

ghost use Rattle.std.specs.Prelude.{◌≡◌, ◌++◌, ◌∷◌, ◌+◌, ◌==◌, IfOk, OnOk, ℕ, List, string_bytes};
ghost use Rattle.sacn_tell.specs.Numbers.{numbers_member, number_list, ranges_text, run_text, runs_text, runs_from};

use crate::json::push_key;
use std::alloc::AllocError;
use std::fmt::Write;

/// Numbers, each one more than the one before it.
#[derive(Clone, Copy)]
struct Run {
    first: u16,
    last: u16,
}

impl Run {
    // A number by itself.
    fn of(number: u16) -> Run
        ensures first { result.first ≡ number }
        ensures last { result.last ≡ number }
    {
        Run {
            first: number,
            last: number,
        }
    }

    // Whether a number is the next one.
    fn goes_on(self, number: u16) -> bool
        ensures { result ≡ (number == self.last + 1) }
    {
        self.last.checked_add(1) == Some(number)
    }
}

/// Numbers that ascend, as ranges; a dash where there is none.
pub fn push_ranges(text: &mut String, numbers: &[u16]) -> Result<(), AllocError>
    ensures { OnOk result
        (string_bytes text.new ≡ string_bytes text.old ++ ranges_text numbers.now) }
{
    match numbers.split_first() {
        Some((first, rest)) => push_runs(text, *first, rest),
        None => text.push('-'),
    }
}

// The runs of a number and of those behind it.
fn push_runs(text: &mut String, first: u16, rest: &[u16]) -> Result<(), AllocError>
    ensures { OnOk result
        (string_bytes text.new ≡ string_bytes text.old ++ ranges_text (first ∷ rest.now)) }
{
    let mut run = Run::of(first);
    for number in rest {
        run = push_where_ended(text, run, *number)?;
    }
    push_run(text, run)
}

// The run with a number behind it, which is a run of its own where it isn't the next one.
fn push_where_ended(text: &mut String, run: Run, number: u16) -> Result<Run, AllocError>
    ensures { IfOk result (λ now. (ns : List ℕ) → string_bytes text.new ++ runs_text
        (runs_from now ns) ≡ string_bytes text.old ++ runs_text (runs_from run (number ∷ ns))) }
{
    if run.goes_on(number) {
        return Ok(Run {
            first: run.first,
            last: number,
        });
    }
    push_run(text, run)?;
    text.push_str(", ")?;
    Ok(Run::of(number))
}

#[tactic(auto, unfolding(crate::specs::Numbers::run_text))]
fn push_run(text: &mut String, run: Run) -> Result<(), AllocError>
    ensures { OnOk result (string_bytes text.new ≡ string_bytes text.old ++ run_text run) }
{
    let Run { first, last } = run;
    if first == last {
        return write!(text, "{first}");
    }
    write!(text, "{first}-{last}")
}

/// A member that is a list of numbers.
#[tactic(auto, unfolding(crate::specs::Numbers::numbers_member))]
pub fn push_numbers(text: &mut String, key: &str, numbers: &[u16]) -> Result<(), AllocError>
    ensures { OnOk result
        (string_bytes text.new ≡ string_bytes text.old ++ numbers_member key.now numbers.now) }
{
    push_key(text, key)?;
    text.push('[')?;
    push_list(text, numbers)?;
    text.push(']')
}

// Numbers with commas between them.
fn push_list(text: &mut String, numbers: &[u16]) -> Result<(), AllocError>
    ensures { OnOk result
        (string_bytes text.new ≡ string_bytes text.old ++ number_list numbers.now) }
{
    let Some((first, rest)) = numbers.split_first() else {
        return Ok(());
    };
    write!(text, "{first}")?;
    for number in rest {
        write!(text, ",{number}")?;
    }
    Ok(())
}
