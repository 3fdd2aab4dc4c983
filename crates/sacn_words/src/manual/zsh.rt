//! Completions for zsh.
use crate::manual::action::{Action, action_of};
use crate::manual::pieces::Piece::{self, Raw, Text, Words};
use crate::manual::pieces::join;
use crate::manual::syntax::Syntax;
use crate::manual::tree::{Argument, Spelling, Subcommand};
use std::alloc::{AllocError, Global};

const SYNTAX: Syntax = Syntax::Zsh;

pub const HEAD: &str = r#"#compdef sacn
# Completions of sacn for zsh, made by `sacn completion zsh`.
_sacn() {
    local command=''
    local -a commands arguments
    if ((CURRENT > 2)); then command=$words[2]; fi
    if [[ -z $command ]]; then
"#;

pub const BETWEEN: &str = "    fi\n";

pub const TAIL: &str = r#"    if [[ -z $command && $words[CURRENT] != -* ]]; then
        _describe -t commands command commands
        return
    fi
    if [[ -n $command ]]; then
        shift words
        ((CURRENT--))
    fi
    _arguments -s -S : "${arguments[@]}"
}
if [[ $funcstack[1] == _sacn ]]; then _sacn "$@"; else compdef _sacn sacn; fi
"#;

// What follows the name of a value: what is offered for it.
fn action_word<'a>(argument: &Argument<'a>) -> [Piece<'a>; 3] {
    match action_of(argument) {
        Action::Nothing => [Raw(": "), Raw(""), Raw("")],
        Action::Files => [Raw(":_files"), Raw(""), Raw("")],
        Action::Devices => [Raw(":_net_interfaces"), Raw(""), Raw("")],
        Action::Words(words) => [Raw(":("), Words(words), Raw(")")],
    }
}

/// What stands before a command's name.
pub fn before_command(alloc: Global) -> Result<Vec<u8>, AllocError> {
    join(alloc, SYNTAX, &[Raw("    commands+=('")])
}

/// What stands between a command's name and what it does.
pub fn before_about(alloc: Global) -> Result<Vec<u8>, AllocError> {
    join(alloc, SYNTAX, &[Raw(":")])
}

/// What stands between what a command does and its arguments.
pub fn after_about(alloc: Global, command: &Subcommand<'_>) -> Result<Vec<u8>, AllocError> {
    let name = command.name;
    join(
        alloc,
        SYNTAX,
        &[
            Raw("')\n    if [[ $command == "),
            Text(name),
            Raw(" ]]; then\n"),
        ],
    )
}

/// What stands before an argument's name.
pub fn before_argument(alloc: Global, argument: &Argument<'_>) -> Result<Vec<u8>, AllocError> {
    let repeated = if argument.is_repeated { "*" } else { "" };
    let place = match argument.spelling {
        Spelling::Positional => ":",
        Spelling::Short | Spelling::Long => "",
    };
    join(
        alloc,
        SYNTAX,
        &[Raw("        arguments+=('"), Raw(repeated), Raw(place)],
    )
}

/// What stands between an argument's name and what help says of it.
pub fn before_help(alloc: Global, argument: &Argument<'_>) -> Result<Vec<u8>, AllocError> {
    let between = match argument.spelling {
        Spelling::Positional => " (",
        Spelling::Short | Spelling::Long => "[",
    };
    join(alloc, SYNTAX, &[Raw(between)])
}

/// What stands after what help says of an argument.
pub fn after_help(alloc: Global, argument: &Argument<'_>) -> Result<Vec<u8>, AllocError> {
    let [open, words, close] = action_word(argument);
    match (argument.spelling, argument.value) {
        (Spelling::Positional, _) => {
            join(alloc, SYNTAX, &[Raw(")"), open, words, close, Raw("')\n")])
        }
        (_, None) => join(alloc, SYNTAX, &[Raw("]')\n")]),
        (_, Some(value)) => join(
            alloc,
            SYNTAX,
            &[Raw("]:"), Text(value), open, words, close, Raw("')\n")],
        ),
    }
}
