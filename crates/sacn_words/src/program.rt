//! The program without a command, and the texts that are made from the table.
use crate::arguments::{HELP, HELP_LETTER, VERSION_LETTER, VERSION_NAME};
use crate::manual::{Argument, Program, Syntax, render};
use crate::table::commands;
use std::alloc::{AllocError, Global};

/// The version, and the kits that may prove it.
pub const VERSION: &str = "1, streaming ACN by ANSI E1.31-2018
kit rattle-kit-13b logic dac8208d650f15bf
kit rattle-kit-13f logic dac8208d650f15bf";

/// What a recording says of the program that made it: the version's first line.
pub const RECORDER: &str = "sacn 1, streaming ACN by ANSI E1.31-2018";

/// The day of the manual's latest change.
const DATE: &str = "2026-11-30";

const USAGE: &str = "sacn [COMMAND]";

pub const ABOUT: &str =
    "Streaming ACN (ANSI E1.31-2018): datagrams read and checked, consoles and nodes run.

Without a command it reads one datagram from standard input, as hexadecimal digits with
spaces and line ends anywhere between them, and prints its fields and its frame, or
refuses it with the first check of the standard's layouts that fails.";

pub const NOTES: &str = "Examples, in a clone of the repository:
  ./sacn < examples/desk.hex
  ./sacn decode examples/levels.sacn examples/universes.sacn
  ./sacn sim examples/world.toml examples/schedule.txt
  ./sacn node examples/node.toml --turns 40000000 &
  ./sacn console examples/show.toml examples/script.txt --turns 10000000
  ./sacn gateway examples/node.toml --seconds 60 &
  ./sacn desk examples/show.toml --to 127.0.0.1
  ./sacn groups examples/node.toml --device eth0
  ./sacn explain examples/ola.pcap
  ./sacn audit examples/ola.pcap
  ./sacn watch --seconds 60
  ./sacn record night.pcapng --seconds 60
  ./sacn replay night.pcapng --speed 2
  ./sacn check examples/show.toml

A file that is named - is standard input; ./- is a file of that name. A desk and a replay have
their orders there, explain --page and record their end: these read no file from it.

docs/FILES.md tells what stands in the files, and what is printed.

Exit status: 0; 2 bad words; 3 refused input; 4 a device failed.";

const ARGUMENTS: &[Argument<'static>] = &[HELP_LETTER, HELP, VERSION_LETTER, VERSION_NAME];

/// A text that is made from the table.
pub fn manual_text(alloc: Global, syntax: Syntax) -> Result<Vec<u8>, AllocError> {
    let commands = commands(alloc)?;
    let program = Program {
        date: DATE,
        usage: USAGE,
        about: ABOUT,
        notes: NOTES,
        arguments: ARGUMENTS,
        commands: commands.as_slice(),
    };
    render(alloc, syntax, &program)
}
