//! A page of a manual, in roff with the macros of man(7).
use crate::manual::pieces::Piece::{Raw, Text};
use crate::manual::pieces::{join, push_all};
use crate::manual::syntax::Syntax;
use crate::manual::tree::{Argument, Program, Spelling, Subcommand};
use std::alloc::{AllocError, Global};

const SYNTAX: Syntax = Syntax::Manual;

/// What stands between the options and the commands.
pub const BETWEEN: &str = ".SH COMMANDS\n";

const ENDS: &str = r#".SH EXIT STATUS
.TP
0
It was done.
.TP
2
Bad words, also words that are no text; standard error says what is wrong with them.
.TP
3
Input is refused; standard error says
.B refused
and the cause.
.TP
4
A device failed: a file can't be read, a socket can't be had, or output can't be written.
.SH FILES
.TP
setup
A TOML file of a node's ports: which universe, or which ranges of slots, each shows.
.TP
show
A TOML file of a console: its CID, name, universes, cues and patch.
.TP
script
A text file of an order a line, each after its moment in milliseconds.
.TP
world, schedule
What a simulation runs: a TOML file of shows and setups, and a text file of an event a line.
.TP
docs/FILES.md
In the repository: what stands in each of these files, and what is printed.
"#;

const LAST: &str = r#".SH STANDARDS
ANSI E1.31\-2018,
.IR "Lightweight streaming protocol for transport of DMX512 using ACN" .
.SH SEE ALSO
.BR ip\-address (8),
.BR olad (1),
.BR tcpdump (8)
"#;

fn first_line(text: &str) -> &str {
    text.lines().next().unwrap_or("")
}

/// The page up to its options.
pub fn head(alloc: Global, program: &Program<'_>) -> Result<Vec<u8>, AllocError> {
    let mut text = join(
        alloc,
        SYNTAX,
        &[
            Raw(".TH SACN 1 \""),
            Raw(program.date),
            Raw("\" \"\" \"User Commands\"\n.SH NAME\nsacn \\- "),
            Text(first_line(program.about)),
            Raw("\n.SH SYNOPSIS\n.nf\n"),
        ],
    )?;
    push_all(&mut text, SYNTAX, &[Text(program.usage), Raw("\n")])?;
    for command in program.commands.iter() {
        push_all(&mut text, SYNTAX, &[Text(command.usage), Raw("\n")])?;
    }
    push_all(&mut text, SYNTAX, &[Raw(".fi\n.SH DESCRIPTION\n")])?;
    push_paragraphs(&mut text, program.about)?;
    push_all(&mut text, SYNTAX, &[Raw(".SH OPTIONS\n")])?;
    Ok(text)
}

// The paragraphs after the first line.
fn push_paragraphs(text: &mut Vec<u8>, about: &str) -> Result<(), AllocError> {
    let mut is_apart = false;
    let mut is_first = true;
    for line in about.lines().skip(1) {
        if line.is_empty() {
            is_apart = !is_first;
        } else {
            let macro_line = if is_apart { ".PP\n" } else { "" };
            push_all(text, SYNTAX, &[Raw(macro_line), Text(line), Raw("\n")])?;
            is_apart = false;
            is_first = false;
        }
    }
    Ok(())
}

/// The page after its commands.
pub fn tail(alloc: Global, program: &Program<'_>) -> Result<Vec<u8>, AllocError> {
    let mut text = join(alloc, SYNTAX, &[Raw(ENDS), Raw(".SH EXAMPLES\n.nf\n")])?;
    for line in program.notes.lines() {
        if let Some(("", example)) = line.split_once("  ") {
            push_all(&mut text, SYNTAX, &[Text(example), Raw("\n")])?;
        }
    }
    push_all(&mut text, SYNTAX, &[Raw(".fi\n"), Raw(LAST)])?;
    Ok(text)
}

/// What stands before a command's name.
pub fn before_command(alloc: Global) -> Result<Vec<u8>, AllocError> {
    join(alloc, SYNTAX, &[Raw(".SS ")])
}

/// What stands between a command's name and what it does.
pub fn before_about(alloc: Global, command: &Subcommand<'_>) -> Result<Vec<u8>, AllocError> {
    join(
        alloc,
        SYNTAX,
        &[Raw("\n.B "), Text(command.usage), Raw("\n.PP\n")],
    )
}

/// What stands before an argument's name.
pub fn before_argument(alloc: Global, argument: &Argument<'_>) -> Result<Vec<u8>, AllocError> {
    let font = match argument.spelling {
        Spelling::Positional => ".TP\n\\fI",
        Spelling::Short | Spelling::Long => ".TP\n\\fB",
    };
    join(alloc, SYNTAX, &[Raw(font)])
}

/// What stands between an argument's name and what help says of it.
pub fn before_help(alloc: Global, argument: &Argument<'_>) -> Result<Vec<u8>, AllocError> {
    let end = if argument.is_repeated { " ...\n" } else { "\n" };
    match (argument.spelling, argument.value) {
        (Spelling::Short | Spelling::Long, Some(value)) => join(
            alloc,
            SYNTAX,
            &[Raw("\\fR \\fI"), Text(value), Raw("\\fR"), Raw(end)],
        ),
        _ => join(alloc, SYNTAX, &[Raw("\\fR"), Raw(end)]),
    }
}

/// What stands after what help says of an argument.
pub fn after_help(alloc: Global, argument: &Argument<'_>) -> Result<Vec<u8>, AllocError> {
    if !argument.choices.is_empty() {
        return join(
            alloc,
            SYNTAX,
            &[Raw(" (one of: "), Text(argument.choices), Raw(")\n")],
        );
    }
    match argument.default {
        Some(default) => join(
            alloc,
            SYNTAX,
            &[Raw(" (default: "), Text(default), Raw(")\n")],
        ),
        None => join(alloc, SYNTAX, &[Raw("\n")]),
    }
}
