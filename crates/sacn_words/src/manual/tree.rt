//! The tree of a program's commands.

/// How an argument is given.
#[derive(Clone, Copy)]
pub enum Spelling {
    /// By its place among the words.
    Positional,
    /// By a letter after a dash.
    Short,
    /// By its name after two dashes.
    Long,
}

/// What is given with an argument.
#[derive(Clone, Copy)]
pub enum ArgumentKind<'a> {
    /// Nothing: it is a flag.
    Flag,
    /// Nothing, and it is answered at once.
    Answered,
    /// A word, whatever it is.
    Word,
    /// One of these words.
    Choice(&'a [&'a str]),
    /// A number in decimal digits, from the first to the second of these.
    Number(u64, u64),
    /// Such a number of at most 255.
    Octet(u8, u8),
}

/// An argument, or an option, of a command. One that is given by a letter and by a name is two of them.
#[derive(Clone, Copy)]
pub struct Argument<'a> {
    pub spelling: Spelling,
    /// Without dashes.
    pub name: &'a str,
    /// What help says of it, in a line.
    pub help: &'a str,
    pub kind: ArgumentKind<'a>,
    /// What help calls its value; none for an option that takes none.
    pub value: Option<&'a str>,
    /// The words that it takes, with a comma and a space between them; empty where it takes others.
    pub choices: &'a str,
    /// The value of an option that isn't given.
    pub default: Option<&'a str>,
    /// Whether a call without it is refused.
    pub is_required: bool,
    /// Whether it may stand more than once.
    pub is_repeated: bool,
}

/// A command of a program.
#[derive(Drop)]
pub struct Subcommand<'a> {
    pub name: &'a str,
    /// What help says of it, in a line.
    pub about: &'a str,
    /// How it is called, with the program's name.
    pub usage: &'a str,
    pub arguments: &'a [Argument<'a>],
}

/// A program of commands.
#[derive(Drop)]
pub struct Program<'a> {
    /// The day of its manual, as `2026-11-23`; it stands in a page as it is.
    pub date: &'a str,
    /// How it is called without a command.
    pub usage: &'a str,
    /// What it is, in paragraphs with an empty line between them; the first is a line.
    pub about: &'a str,
    /// Lines, of which those after two spaces are examples.
    pub notes: &'a str,
    /// What is given without a command.
    pub arguments: &'a [Argument<'a>],
    pub commands: &'a [Subcommand<'a>],
}
