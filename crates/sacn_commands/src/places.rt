//! What is wrong in a refused file, and where.
use crate::ending::Ending;
use crate::naming::say_file_fault;
use sacn_check::{FileKind, faults_of, kind_of, write_report};
use sacn_console::ShowFault;
use sacn_node::SetupFault;
use std::alloc::{AllocError, Global};
use std::io::Write;

/// A file that was read, and what it should be.
#[derive(Clone, Copy)]
pub struct ReadFile<'a> {
    pub path: &'a str,
    pub text: &'a str,
    pub kind: FileKind,
}

// What a file of another kind is, and what takes it.
fn words_of(kind: FileKind) -> &'static str {
    match kind {
        FileKind::Show => "this is a show, which sacn desk plays",
        FileKind::Setup => "this is a setup, which sacn gateway runs",
        FileKind::World => "this is a world, which sacn sim runs",
        FileKind::Script => "this is a script, as sacn desk SHOW --script takes it",
        FileKind::Schedule => "this is a schedule, as sacn sim WORLD takes it",
    }
}

// Whether a refusal is of what keys a document has, so that it may be one of another kind.
fn is_of_keys(ending: Ending) -> bool {
    matches!(
        ending,
        Ending::Show(ShowFault::MissingKey | ShowFault::UnknownKey)
            | Ending::Setup(SetupFault::MissingKey | SetupFault::UnknownKey)
    )
}

impl<'a> ReadFile<'a> {
    /// Says that the file is refused, and then what is wrong in it and where, as `check` does, or what it is instead. Returns how the
    /// run ends.
    pub fn refused<E: Write>(&self, alloc: Global, ending: Ending, err: &mut E) -> Ending {
        let is_of_keys = is_of_keys(ending);
        let ending = say_file_fault(self.path, ending, err);
        // (where there is no memory for it nothing more is said)
        let _ = self.say_places(alloc, is_of_keys, err);
        ending
    }

    // What the file is, where its keys are those of another kind.
    fn other_kind(&self, alloc: Global) -> Result<Option<FileKind>, AllocError> {
        let kind = match kind_of(alloc, self.text)? {
            Some(kind) => kind,
            None => return Ok(None),
        };
        if kind as u8 == self.kind as u8 {
            return Ok(None);
        }
        Ok(Some(kind))
    }

    fn say_places<E: Write>(
        &self,
        alloc: Global,
        is_of_keys: bool,
        err: &mut E,
    ) -> Result<(), AllocError> {
        if is_of_keys {
            if let Some(kind) = self.other_kind(alloc)? {
                let _ = writeln!(err, "{}: {}", self.path, words_of(kind));
                return Ok(());
            }
        }
        let findings = faults_of(alloc, self.kind, self.text)?;
        if !findings.told.is_empty() {
            let _ = write_report(alloc, self.path, self.kind, &findings, err);
        }
        Ok(())
    }
}
