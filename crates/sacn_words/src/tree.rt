//! clap's tree, made from the table.
use crate::manual::{Argument, ArgumentKind, Spelling, Subcommand};
use crate::program::{ABOUT, NOTES, VERSION};
use crate::table::commands;
use clap::builder::ValueParser;
use clap::error::ErrorKind;
use clap::{Arg, ArgAction, ArgMatches, Command, Error};
use std::alloc::{AllocError, Global};

fn parser_of<'a>(kind: ArgumentKind<'a>) -> ValueParser<'a> {
    match kind {
        ArgumentKind::Flag | ArgumentKind::Answered => ValueParser::bool(),
        ArgumentKind::Word => ValueParser::string(),
        ArgumentKind::Choice(words) => ValueParser::from(words),
        ArgumentKind::Number(least, most) => ValueParser::unsigned(least, most),
        ArgumentKind::Octet(least, most) => ValueParser::signed(i64::from(least), i64::from(most)),
    }
}

fn action_of(row: &Argument<'_>) -> ArgAction {
    match (row.value, row.is_repeated) {
        (None, _) => ArgAction::SetTrue,
        (Some(_), true) => ArgAction::Append,
        (Some(_), false) => ArgAction::Set,
    }
}

fn argument_of<'a>(alloc: Global, row: &Argument<'a>) -> Arg<'a> {
    let arg = Arg::new(alloc, row.name)
        .help(row.help)
        .required(row.is_required)
        .action(action_of(row))
        .value_parser(parser_of(row.kind));
    let arg = match (row.spelling, row.is_repeated) {
        (Spelling::Positional, true) => arg.num_args(1..),
        (Spelling::Positional, false) => arg,
        _ => arg.long(row.name),
    };
    let arg = match row.value {
        Some(value) => arg.value_name(value),
        None => arg,
    };
    match row.default {
        Some(default) => arg.default_value(default),
        None => arg,
    }
}

// The arguments of a command; those for help are clap's own.
fn arguments_of<'a>(alloc: Global, rows: &[Argument<'a>]) -> Result<Vec<Arg<'a>>, AllocError> {
    let mut arguments = Vec::new(alloc);
    for row in rows {
        if !matches!(row.kind, ArgumentKind::Answered) {
            arguments.push(argument_of(alloc, row))?;
        }
    }
    Ok(arguments)
}

fn subcommands<'a>(alloc: Global) -> Result<Vec<Command<'a>>, AllocError> {
    let rows = commands(alloc)?;
    let mut subcommands = Vec::new(alloc);
    for row in rows.as_slice() {
        subcommands.push(subcommand(alloc, row)?)?;
    }
    Ok(subcommands)
}

fn subcommand<'a>(alloc: Global, row: &Subcommand<'a>) -> Result<Command<'a>, AllocError> {
    let arguments = arguments_of(alloc, row.arguments)?;
    Command::new(alloc, row.name)
        .about(row.about)
        .args(arguments)
}

fn tree<'a>(alloc: Global) -> Result<Command<'a>, AllocError> {
    Command::new(alloc, "sacn")
        .about(ABOUT)
        .version(VERSION)
        .after_help(NOTES)
        .disable_help_subcommand(true)
        .subcommands(subcommands(alloc)?)
}

/// What clap finds in the words.
pub fn matches<'a>(alloc: Global, words: &'a [String]) -> Result<ArgMatches<'a>, Error> {
    tree(alloc)?.try_get_matches_from(words)
}

/// The error of words that clap lets pass, with this message.
pub fn error_of(alloc: Global, message: &str) -> Result<Error, AllocError> {
    tree(alloc)?.error(ErrorKind::ValueValidation, message)
}
