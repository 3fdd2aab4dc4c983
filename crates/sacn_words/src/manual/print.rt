//! The texts of a tree: what stands round each name is the syntax's, the loops over the tree are one for all.

ghost use Rattle.std.specs.Prelude.{◌≡◌, ◌++◌, [], OnOk, IfOk, All};
ghost use Rattle.sacn_words.specs.Syntaxes.{written};
ghost use Rattle.sacn_words.specs.Texts.{Grows, IsTold, TellsArgument, TellsCommand, TellsProgram};

use crate::manual::pieces::Piece::{Raw, Text};
use crate::manual::pieces::{join, push_all};
use crate::manual::syntax::{Syntax, mark};
use crate::manual::tree::{Argument, Program, Subcommand};
use crate::manual::{bash, fish, roff, zsh};
use std::alloc::{AllocError, Global};

fn head(alloc: Global, syntax: Syntax, program: &Program<'_>) -> Result<Vec<u8>, AllocError> {
    match syntax {
        Syntax::Manual => roff::head(alloc, program),
        Syntax::Bash => join(alloc, syntax, &[Raw(bash::HEAD)]),
        Syntax::Zsh => join(alloc, syntax, &[Raw(zsh::HEAD)]),
        Syntax::Fish => join(alloc, syntax, &[Raw(fish::HEAD)]),
    }
}

// What stands between the program's own options and the commands.
fn between(alloc: Global, syntax: Syntax) -> Result<Vec<u8>, AllocError> {
    let between = match syntax {
        Syntax::Manual => roff::BETWEEN,
        Syntax::Bash => bash::BETWEEN,
        Syntax::Zsh => zsh::BETWEEN,
        Syntax::Fish => "",
    };
    join(alloc, syntax, &[Raw(between)])
}

fn tail(alloc: Global, syntax: Syntax, program: &Program<'_>) -> Result<Vec<u8>, AllocError> {
    match syntax {
        Syntax::Manual => roff::tail(alloc, program),
        Syntax::Bash => join(alloc, syntax, &[Raw(bash::TAIL)]),
        Syntax::Zsh => join(alloc, syntax, &[Raw(zsh::TAIL)]),
        Syntax::Fish => join(alloc, syntax, &[]),
    }
}

fn before_command(alloc: Global, syntax: Syntax) -> Result<Vec<u8>, AllocError> {
    match syntax {
        Syntax::Manual => roff::before_command(alloc),
        Syntax::Bash => bash::before_command(alloc),
        Syntax::Zsh => zsh::before_command(alloc),
        Syntax::Fish => fish::before_command(alloc),
    }
}

fn before_about(
    alloc: Global,
    syntax: Syntax,
    command: &Subcommand<'_>,
) -> Result<Vec<u8>, AllocError> {
    match syntax {
        Syntax::Manual => roff::before_about(alloc, command),
        Syntax::Bash => bash::before_about(alloc, command),
        Syntax::Zsh => zsh::before_about(alloc),
        Syntax::Fish => fish::before_about(alloc),
    }
}

fn after_about(
    alloc: Global,
    syntax: Syntax,
    command: &Subcommand<'_>,
) -> Result<Vec<u8>, AllocError> {
    match syntax {
        Syntax::Manual | Syntax::Bash => join(alloc, syntax, &[Raw("\n")]),
        Syntax::Zsh => zsh::after_about(alloc, command),
        Syntax::Fish => fish::after_about(alloc, command),
    }
}

// What stands after a command's arguments.
fn after_command(alloc: Global, syntax: Syntax) -> Result<Vec<u8>, AllocError> {
    let after = match syntax {
        Syntax::Manual | Syntax::Fish => "",
        Syntax::Bash | Syntax::Zsh => "    fi\n",
    };
    join(alloc, syntax, &[Raw(after)])
}

fn before_argument<'a>(
    alloc: Global,
    syntax: Syntax,
    command: &'a str,
    argument: &Argument<'a>,
) -> Result<Vec<u8>, AllocError> {
    match syntax {
        Syntax::Manual => roff::before_argument(alloc, argument),
        Syntax::Bash => bash::before_argument(alloc, argument),
        Syntax::Zsh => zsh::before_argument(alloc, argument),
        Syntax::Fish => fish::before_argument(alloc, command, argument),
    }
}

fn before_help(
    alloc: Global,
    syntax: Syntax,
    argument: &Argument<'_>,
) -> Result<Vec<u8>, AllocError> {
    match syntax {
        Syntax::Manual => roff::before_help(alloc, argument),
        Syntax::Bash => bash::before_help(alloc, argument),
        Syntax::Zsh => zsh::before_help(alloc, argument),
        Syntax::Fish => fish::before_help(alloc, argument),
    }
}

fn after_help(
    alloc: Global,
    syntax: Syntax,
    argument: &Argument<'_>,
) -> Result<Vec<u8>, AllocError> {
    match syntax {
        Syntax::Manual => roff::after_help(alloc, argument),
        Syntax::Bash => join(alloc, syntax, &[Raw("\n")]),
        Syntax::Zsh => zsh::after_help(alloc, argument),
        Syntax::Fish => fish::after_help(alloc, argument),
    }
}

// What stands round a name and what is said of it.
#[derive(Drop)]
struct Around {
    before: Vec<u8>,
    between: Vec<u8>,
    after: Vec<u8>,
}

fn around_argument<'a>(
    alloc: Global,
    syntax: Syntax,
    command: &'a str,
    argument: &Argument<'a>,
) -> Result<Around, AllocError> {
    Ok(Around {
        before: before_argument(alloc, syntax, command, argument)?,
        between: before_help(alloc, syntax, argument)?,
        after: after_help(alloc, syntax, argument)?,
    })
}

fn around_command(
    alloc: Global,
    syntax: Syntax,
    command: &Subcommand<'_>,
) -> Result<Around, AllocError> {
    Ok(Around {
        before: before_command(alloc, syntax)?,
        between: before_about(alloc, syntax, command)?,
        after: after_about(alloc, syntax, command)?,
    })
}

fn push_marked(text: &mut Vec<u8>, syntax: Syntax, mark: &str, name: &str) -> Result<(), AllocError>
    ensures { OnOk result (text.new.items ≡ text.old.items ++ (mark.now ++ written syntax name.now)) }
{
    push_all(text, syntax, &[Raw(mark), Text(name)])
}

fn push_said(text: &mut Vec<u8>, syntax: Syntax, said: &str) -> Result<(), AllocError>
    ensures { OnOk result (text.new.items ≡ text.old.items ++ written syntax said.now) }
{
    push_all(text, syntax, &[Text(said)])
}

// A name after its mark, and what is said of it, with what stands round them.
fn push_told(
    text: &mut Vec<u8>,
    syntax: Syntax,
    around: &Around,
    mark: &str,
    name: &str,
    said: &str,
) -> Result<(), AllocError>
    ensures grows { OnOk result (Grows text.old.items text.new.items) }
    ensures told { OnOk result (IsTold syntax mark.now name.now said.now text.new.items) }
{
    text.extend_from_slice(around.before.as_slice())?;
    push_marked(text, syntax, mark, name)?;
    text.extend_from_slice(around.between.as_slice())?;
    push_said(text, syntax, said)?;
    text.extend_from_slice(around.after.as_slice())?;
    Ok(())
}

fn push_argument<'a>(
    alloc: Global,
    text: &mut Vec<u8>,
    syntax: Syntax,
    command: &'a str,
    argument: &Argument<'a>,
) -> Result<(), AllocError>
    ensures grows { OnOk result (Grows text.old.items text.new.items) }
    ensures told { OnOk result (TellsArgument syntax text.new.items argument.now) }
{
    let around = around_argument(alloc, syntax, command, argument)?;
    push_told(
        text,
        syntax,
        &around,
        mark(syntax, argument.spelling),
        argument.name,
        argument.help,
    )
}

#[tactic(auto, using(crate::proofs::Growing::same))]
fn push_arguments<'a>(
    alloc: Global,
    text: &mut Vec<u8>,
    syntax: Syntax,
    command: &'a str,
    arguments: &[Argument<'a>],
) -> Result<(), AllocError>
    ensures grows { OnOk result (Grows text.old.items text.new.items) }
    ensures told { OnOk result (All (TellsArgument syntax text.new.items) arguments.now) }
{
    for i in 0..arguments.len() {
        push_argument(alloc, text, syntax, command, &arguments[i])?;
    }
    Ok(())
}

fn push_name(
    alloc: Global,
    text: &mut Vec<u8>,
    syntax: Syntax,
    command: &Subcommand<'_>,
) -> Result<(), AllocError>
    ensures grows { OnOk result (Grows text.old.items text.new.items) }
    ensures told { OnOk result
        (IsTold syntax [] command.now.name.now command.now.about.now text.new.items) }
{
    let around = around_command(alloc, syntax, command)?;
    push_told(text, syntax, &around, "", command.name, command.about)
}

#[tactic(auto, using(crate::proofs::Growing::chain, crate::proofs::Growing::grows, crate::proofs::Growing::kept_told, crate::proofs::Growing::all_kept))]
fn push_command(
    alloc: Global,
    text: &mut Vec<u8>,
    syntax: Syntax,
    command: &Subcommand<'_>,
) -> Result<(), AllocError>
    ensures grows { OnOk result (Grows text.old.items text.new.items) }
    ensures told { OnOk result (TellsCommand syntax text.new.items command.now) }
{
    push_name(alloc, text, syntax, command)?;
    push_arguments(alloc, text, syntax, command.name, command.arguments)?;
    let after = after_command(alloc, syntax)?;
    text.extend_from_slice(after.as_slice())?;
    Ok(())
}

#[tactic(auto, using(crate::proofs::Growing::same))]
fn push_commands(
    alloc: Global,
    text: &mut Vec<u8>,
    syntax: Syntax,
    commands: &[Subcommand<'_>],
) -> Result<(), AllocError>
    ensures grows { OnOk result (Grows text.old.items text.new.items) }
    ensures told { OnOk result (All (TellsCommand syntax text.new.items) commands.now) }
{
    for i in 0..commands.len() {
        push_command(alloc, text, syntax, &commands[i])?;
    }
    Ok(())
}

/// The text of a program: a page of its manual, or completions for a shell. The name of each command and of each argument stands
/// in it, and what help says of it, so written that the text's own language reads it as a text.
///
/// Errors: a growth was refused.
pub fn render(alloc: Global, syntax: Syntax, program: &Program<'_>) -> Result<Vec<u8>, AllocError>
    ensures { IfOk result (λ text. TellsProgram syntax text.items program.now) }
{
    let mut text = head(alloc, syntax, program)?;
    push_arguments(alloc, &mut text, syntax, "", program.arguments)?;
    let middle = between(alloc, syntax)?;
    text.extend_from_slice(middle.as_slice())?;
    push_commands(alloc, &mut text, syntax, program.commands)?;
    let end = tail(alloc, syntax, program)?;
    text.extend_from_slice(end.as_slice())?;
    Ok(text)
}
