//! Completions for fish.
use crate::manual::action::{Action, action_of};
use crate::manual::pieces::Piece::{self, Raw, Text, Words};
use crate::manual::pieces::join;
use crate::manual::syntax::Syntax;
use crate::manual::tree::{Argument, Spelling, Subcommand};
use std::alloc::{AllocError, Global};

const SYNTAX: Syntax = Syntax::Fish;

pub const HEAD: &str = "# Completions of sacn for fish, made by `sacn completion fish`.
complete -c sacn -e
complete -c sacn -n __fish_use_subcommand -f
";

// How what is offered for a value is said.
fn action_words<'a>(argument: &Argument<'a>) -> [Piece<'a>; 3] {
    match action_of(argument) {
        Action::Nothing => [Raw(" -f"), Raw(""), Raw("")],
        Action::Files => [Raw(" -F"), Raw(""), Raw("")],
        Action::Devices => [Raw(" -f -a '(__fish_print_interfaces)'"), Raw(""), Raw("")],
        Action::Words(words) => [Raw(" -f -a '"), Words(words), Raw("'")],
    }
}

/// What stands before a command's name.
pub fn before_command(alloc: Global) -> Result<Vec<u8>, AllocError> {
    join(
        alloc,
        SYNTAX,
        &[Raw("complete -c sacn -n __fish_use_subcommand -f -a ")],
    )
}

/// What stands between a command's name and what it does.
pub fn before_about(alloc: Global) -> Result<Vec<u8>, AllocError> {
    join(alloc, SYNTAX, &[Raw(" -d '")])
}

/// What stands between what a command does and its arguments.
pub fn after_about(alloc: Global, command: &Subcommand<'_>) -> Result<Vec<u8>, AllocError> {
    join(
        alloc,
        SYNTAX,
        &[
            Raw("'\ncomplete -c sacn -n '__fish_seen_subcommand_from "),
            Text(command.name),
            Raw("' -f\n"),
        ],
    )
}

/// What stands before an argument's name.
pub fn before_argument<'a>(
    alloc: Global,
    command: &'a str,
    argument: &Argument<'a>,
) -> Result<Vec<u8>, AllocError> {
    let [test, name] = if command.is_empty() {
        [Raw("__fish_use_subcommand"), Raw("")]
    } else {
        [Raw("__fish_seen_subcommand_from "), Text(command)]
    };
    if !matches!(argument.spelling, Spelling::Positional) {
        return join(
            alloc,
            SYNTAX,
            &[Raw("complete -c sacn -n '"), test, name, Raw("' ")],
        );
    }
    let [open, words, close] = action_words(argument);
    join(
        alloc,
        SYNTAX,
        &[
            Raw("complete -c sacn -n '"),
            test,
            name,
            Raw("'"),
            open,
            words,
            close,
            Raw(" # "),
        ],
    )
}

/// What stands between an argument's name and what help says of it.
pub fn before_help(alloc: Global, argument: &Argument<'_>) -> Result<Vec<u8>, AllocError> {
    if matches!(argument.spelling, Spelling::Positional) {
        return join(alloc, SYNTAX, &[Raw(": ")]);
    }
    if argument.value.is_none() {
        return join(alloc, SYNTAX, &[Raw(" -d '")]);
    }
    let [open, words, close] = action_words(argument);
    join(
        alloc,
        SYNTAX,
        &[Raw(" -r"), open, words, close, Raw(" -d '")],
    )
}

/// What stands after what help says of an argument.
pub fn after_help(alloc: Global, argument: &Argument<'_>) -> Result<Vec<u8>, AllocError> {
    let end = match argument.spelling {
        Spelling::Positional => "\n",
        Spelling::Short | Spelling::Long => "'\n",
    };
    join(alloc, SYNTAX, &[Raw(end)])
}
