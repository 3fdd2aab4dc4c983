//! The first two phases of reading a file: the document and its version.
ghost use Rattle.std.specs.Prelude.{◌≡◌, option_map};
ghost use Rattle.toml.specs.Parse.{parse_document};
ghost use Rattle.toml.specs.View.{view, table_view};
ghost use Rattle.sacn_files.specs.Document.{version_in, ReadsDocument};

use crate::faults::FileFault;
use crate::values::byte_in;
use std::alloc::Global;
use toml::{Table, Value};

/// The table of a text: OutOfMemory where a growth was refused, and Toml where the text isn't a
/// document for another cause.
pub fn read_table(alloc: Global, text: &str) -> Result<Table, FileFault>
    ensures { ReadsDocument text.now result }
{
    match toml::table_from_str(alloc, text) {
        Ok(table) => Ok(table),
        Err(error) => {
            if error.is_memory() {
                Err(FileFault::OutOfMemory)
            } else {
                Err(FileFault::Toml)
            }
        }
    }
}

/// The version of a file, from 1 to the newest: MissingKey where there is none, KeyValue where it
/// isn't a whole number, Version where it is another one.
pub fn version_in(version: Option<&Value>, newest: u8) -> Result<u8, FileFault>
    ensures { result ≡ version_in newest (option_map (λ v. view v.now) version.entry) }
{
    let version = version.ok_or(FileFault::MissingKey)?;
    match version {
        Value::Integer(_) => byte_in(version, 1, newest).ok_or(FileFault::Version),
        _ => Err(FileFault::KeyValue),
    }
}
