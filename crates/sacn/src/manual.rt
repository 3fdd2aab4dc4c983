//! The program's manual and completions, printed.
use sacn_commands::ending::{Ending, of_write};
use sacn_words::{Syntax, manual_text};
use std::alloc::Global;
use std::io::Write;

/// Prints a text that is made from the table of commands.
pub fn print<O: Write>(alloc: Global, syntax: Syntax, out: &mut O) -> Result<(), Ending> {
    let text = manual_text(alloc, syntax)?;
    of_write(out.write_all(text.as_slice()))?;
    of_write(out.flush())
}
