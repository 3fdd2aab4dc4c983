//! Files checked.
use sacn_check::{FileKind, ReportFault, faults_of, kind_of, write_report, write_unread};
use sacn_commands::ending::{DEVICE_FAILED, DONE, Ending, REFUSED, of_write};
use sacn_commands::files::text_of_word;
use sacn_words::CheckAsked;
use std::alloc::{AllocError, Global};
use std::io::{Read, Write};
use std::rt::Files;

/// Checks the files in their order; each is told, whatever the others are.
pub fn check<R: AllocGlobal + Files, I: Read + Drop, O: Write, E: Write>(
    rt: &R,
    asked: &CheckAsked<'_>,
    input: &mut I,
    out: &mut O,
    err: &mut E,
) -> Result<(), Ending> {
    let mut worst = DONE;
    for path in asked.files.as_slice() {
        worst = worst.max(check_file(rt, path, asked.kind, input, out, err)?);
    }
    of_write(out.flush())?;
    match worst {
        DONE => Ok(()),
        status => Err(Ending::Said(status)),
    }
}

// Checks a file, and returns the status that it gives.
fn check_file<R: AllocGlobal + Files, I: Read + Drop, O: Write, E: Write>(
    rt: &R,
    path: &str,
    kind: Option<FileKind>,
    input: &mut I,
    out: &mut O,
    err: &mut E,
) -> Result<u8, Ending> {
    let alloc = rt.alloc();
    match text_of_word(rt, path, input) {
        Ok(text) => check_text(alloc, path, kind, text.as_str(), out),
        Err(Ending::TooLarge) => {
            let wanted = "a file has at most 1048576 octets";
            refused_file(write_unread(alloc, path, "TooLarge", wanted, out))
        }
        Err(Ending::NotText) => {
            refused_file(write_unread(alloc, path, "NotText", "a text is UTF-8", out))
        }
        Err(Ending::DeviceRead) => {
            let _ = writeln!(err, "device read {path}");
            Ok(DEVICE_FAILED)
        }
        Err(ending) => Err(ending),
    }
}

// The status of a file with faults, once they are written.
fn refused_file(written: Result<(), ReportFault>) -> Result<u8, Ending> {
    written?;
    Ok(REFUSED)
}

fn kind_in(
    alloc: Global,
    kind: Option<FileKind>,
    text: &str,
) -> Result<Option<FileKind>, AllocError> {
    match kind {
        Some(kind) => Ok(Some(kind)),
        None => kind_of(alloc, text),
    }
}

fn check_text<O: Write>(
    alloc: Global,
    path: &str,
    kind: Option<FileKind>,
    text: &str,
    out: &mut O,
) -> Result<u8, Ending> {
    let Some(kind) = kind_in(alloc, kind, text)? else {
        let wanted = "no key tells what it is: name it by --as";
        return refused_file(write_unread(alloc, path, "Kind", wanted, out));
    };
    let findings = faults_of(alloc, kind, text)?;
    write_report(alloc, path, kind, &findings, out)?;
    if findings.told.is_empty() {
        Ok(DONE)
    } else {
        Ok(REFUSED)
    }
}
