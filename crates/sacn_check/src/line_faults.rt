//! The faulty lines of scripts and schedules.

use crate::finding::{Fault, Findings};
use crate::kinds::FileKind;
use crate::place::{Found, Place};
use crate::refusal::Refusal;
use crate::rules::Wanted;
use sacn_console::read_script;
use sacn_files::faults::TextFault;
use sacn_files::lines::lines_of;
use sacn_files::words::words;
use sacn_schedule::read_schedule;
use std::alloc::{AllocError, Global};

const NUMBERS: &str =
    "CUE, CHANNEL, LEVEL and UNIVERSE are whole numbers to 65535, PORT and FIRST to 255, others below 2^64";

const DIGITS: &str = "octets are hexadecimal digits, two for each octet, or - where there are none";

const SCRIPT: &str =
    "MOMENT and go, goto CUE, set CHANNEL LEVEL, master LEVEL, end UNIVERSE or start UNIVERSE";

const ORDER: &str =
    "order C MOMENT and go, goto CUE, set CHANNEL LEVEL, master LEVEL, end UNIVERSE or start UNIVERSE";

const SCHEDULE: &str =
    "a line begins with order, poll, deliver, look, restart-console, restart-node or noise";

/// The first fault of each faulty line: each line is read alone.
pub(crate) fn line_faults(
    alloc: Global,
    findings: &mut Findings,
    kind: FileKind,
    text: &str,
) -> Result<(), AllocError> {
    for (index, line) in lines_of(alloc, text)?.as_slice().iter().enumerate() {
        if let Some(fault) = fault_of(alloc, kind, line)? {
            let number = index.saturating_add(1);
            let wanted = wanted_of(alloc, kind, fault, line)?;
            findings.take(
                alloc,
                &Fault {
                    refusal: Refusal::Text(at_line(fault, number)),
                    detail: None,
                    place: Place::Line(number),
                    found: Found::Text(line),
                    wanted: Wanted::Text(wanted),
                },
            )?;
        }
    }
    Ok(())
}

fn fault_of(alloc: Global, kind: FileKind, line: &str) -> Result<Option<TextFault>, AllocError> {
    let fault = match kind {
        FileKind::Schedule => schedule_fault(alloc, line),
        _ => script_fault(alloc, line),
    };
    match fault {
        Some(TextFault::OutOfMemory) => Err(AllocError),
        fault => Ok(fault),
    }
}

fn script_fault(alloc: Global, line: &str) -> Option<TextFault> {
    match read_script(alloc, line) {
        Ok(_) => None,
        Err(fault) => Some(fault),
    }
}

fn schedule_fault(alloc: Global, line: &str) -> Option<TextFault> {
    match read_schedule(alloc, line) {
        Ok(_) => None,
        Err(fault) => Some(fault),
    }
}

/// The same fault at the line of this number.
fn at_line(fault: TextFault, line: usize) -> TextFault {
    match fault {
        TextFault::OutOfMemory => TextFault::OutOfMemory,
        TextFault::UnknownWord(_) => TextFault::UnknownWord(line),
        TextFault::WordCount(_) => TextFault::WordCount(line),
        TextFault::Number(_) => TextFault::Number(line),
        TextFault::Hex(_) => TextFault::Hex(line),
    }
}

fn wanted_of(
    alloc: Global,
    kind: FileKind,
    fault: TextFault,
    line: &str,
) -> Result<&'static str, AllocError> {
    Ok(match (fault, kind) {
        (TextFault::Number(_), _) => NUMBERS,
        (TextFault::Hex(_), _) => DIGITS,
        (_, FileKind::Schedule) => match words(alloc, line)?.as_slice().first() {
            Some(word) => words_wanted(word),
            None => SCHEDULE,
        },
        _ => SCRIPT,
    })
}

/// The words of a schedule's line that begins with this one.
fn words_wanted(word: &str) -> &'static str {
    match word {
        "order" => ORDER,
        "poll" => "poll C MOMENT",
        "deliver" => "deliver DATAGRAM N MOMENT",
        "look" => "look N PORT MOMENT",
        "restart-console" => "restart-console C FIRST",
        "restart-node" => "restart-node N",
        "noise" => "noise N MOMENT HEX",
        _ => SCHEDULE,
    }
}
