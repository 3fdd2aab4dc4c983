//! A manual page and completions of a program, made from a plain table of its commands, which may be a constant.
//!
//! Each command and each argument of the tree stands in each of these texts, with what help says of it.

mod action;
mod bash;
mod fish;
mod pieces;
mod print;
mod roff;
mod syntax;
mod tree;
mod zsh;

pub use print::render;
pub use syntax::{SHELL_WORDS, SHELLS, Syntax, shell_of};
pub use tree::{Argument, ArgumentKind, Program, Spelling, Subcommand};
