//! Completions for bash.
use crate::manual::action::{Action, action_of};
use crate::manual::pieces::Piece::{self, Raw, Text, Words};
use crate::manual::pieces::join;
use crate::manual::syntax::{Syntax, mark};
use crate::manual::tree::{Argument, Spelling, Subcommand};
use std::alloc::{AllocError, Global};

const SYNTAX: Syntax = Syntax::Bash;

pub const HEAD: &str = r#"# Completions of sacn for bash, made by `sacn completion bash`.
_sacn() {
    local current=${COMP_WORDS[COMP_CWORD]} previous='' command='' commands='' options='' operand='' action=''
    if ((COMP_CWORD > 0)); then previous=${COMP_WORDS[COMP_CWORD - 1]}; fi
    if ((COMP_CWORD > 1)); then command=${COMP_WORDS[1]}; fi
    if [[ -z $command ]]; then
"#;

pub const BETWEEN: &str = "    fi\n";

pub const TAIL: &str = r#"    if [[ -z $action ]]; then
        if [[ $current == -* ]]; then
            action=$options
        elif [[ -z $command ]]; then
            action=$commands
        else
            action=${operand:-nothing}
        fi
    fi
    case $action in
    nothing) COMPREPLY=() ;;
    files)
        mapfile -t COMPREPLY < <(compgen -f -- "$current")
        compopt -o filenames 2>/dev/null
        ;;
    devices) mapfile -t COMPREPLY < <(compgen -W "$(ls /sys/class/net 2>/dev/null)" -- "$current") ;;
    *) mapfile -t COMPREPLY < <(compgen -W "$action" -- "$current") ;;
    esac
}
complete -F _sacn sacn
"#;

// The word by which the function knows what to offer.
fn action_word<'a>(argument: &Argument<'a>) -> [Piece<'a>; 3] {
    match action_of(argument) {
        Action::Nothing => [Raw("nothing"), Raw(""), Raw("")],
        Action::Files => [Raw("files"), Raw(""), Raw("")],
        Action::Devices => [Raw("devices"), Raw(""), Raw("")],
        Action::Words(words) => [Raw("'"), Words(words), Raw("'")],
    }
}

/// What stands before a command's name.
pub fn before_command(alloc: Global) -> Result<Vec<u8>, AllocError> {
    join(alloc, SYNTAX, &[Raw("    commands+=' ")])
}

/// What stands between a command's name and what it does.
pub fn before_about(alloc: Global, command: &Subcommand<'_>) -> Result<Vec<u8>, AllocError> {
    let name = command.name;
    join(
        alloc,
        SYNTAX,
        &[
            Raw("'\n    if [[ $command == "),
            Text(name),
            Raw(" ]]; then # "),
        ],
    )
}

/// What stands before an argument's name.
pub fn before_argument(alloc: Global, argument: &Argument<'_>) -> Result<Vec<u8>, AllocError> {
    if !matches!(argument.spelling, Spelling::Positional) {
        return join(alloc, SYNTAX, &[Raw("        options+=' ")]);
    }
    let [open, words, close] = action_word(argument);
    join(
        alloc,
        SYNTAX,
        &[Raw("        operand="), open, words, close, Raw(" # ")],
    )
}

/// What stands between an argument's name and what help says of it.
pub fn before_help(alloc: Global, argument: &Argument<'_>) -> Result<Vec<u8>, AllocError> {
    if matches!(argument.spelling, Spelling::Positional) {
        return join(alloc, SYNTAX, &[Raw(": ")]);
    }
    if argument.value.is_none() {
        return join(alloc, SYNTAX, &[Raw("' # ")]);
    }
    let [open, words, close] = action_word(argument);
    join(
        alloc,
        SYNTAX,
        &[
            Raw("'; if [[ $previous == "),
            Raw(mark(SYNTAX, argument.spelling)),
            Text(argument.name),
            Raw(" ]]; then action="),
            open,
            words,
            close,
            Raw("; fi # "),
        ],
    )
}
