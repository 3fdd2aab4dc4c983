//! Recordings told.
use crate::recording::serve;
use crate::timed::{timing_of, zone_of};
use sacn_capture::{CaptureFault, FaultKind};
use sacn_clock::{Ahead, Recorded, Stamped, Timing};
use sacn_commands::ending::{DEVICE_FAILED, Ending, REFUSED, of_write};
use sacn_commands::live::setup_of_word;
use sacn_digest::{Parts, tell_digest};
use sacn_files::limits::DEFAULT_UDP_PORT;
use sacn_node::NodeSetup;
use sacn_tell::{ExplainFault, Form, Options, explain};
use sacn_words::{ExplainAsked, STANDARD_INPUT};
use std::alloc::Global;
use std::env::Env;
use std::fs::{self, OpenFile};
use std::io::{BufRead, BufReader, BufWriter, ErrorKind, Read, Seek, SeekFrom, Write};
use std::net::Net;
use std::rt::{Clock, Files};

/// The octets of a recording that are read at once.
pub const ROOM: usize = 65_536;

/// Says that a recording can't be read, and returns how the run ends.
pub fn say_unread<E: Write>(path: &str, err: &mut E) -> Ending {
    let _ = writeln!(err, "device read {path}");
    Ending::Said(DEVICE_FAILED)
}

/// Says what is wrong with a recording, and where.
pub fn say_capture_fault<E: Write>(path: &str, fault: CaptureFault, err: &mut E) -> Ending {
    match fault.kind {
        FaultKind::Device => return say_unread(path, err),
        FaultKind::OutOfMemory => return Ending::OutOfMemory,
        _ => {}
    }
    let at = fault.at;
    let kind = fault.kind;
    let _ = writeln!(err, "refused {path} octet {at} {kind:?}");
    Ending::Said(REFUSED)
}

/// How things are told.
pub fn form_of(is_json: bool) -> Form {
    if is_json { Form::Json } else { Form::Text }
}

/// Tells a recording, or serves a page of it.
pub fn tell<R: AllocGlobal + Files + Env + Net + Clock, I: Read + Drop, O: Write, E: Write>(
    rt: &R,
    asked: &ExplainAsked<'_>,
    input: &mut I,
    out: &mut O,
    err: &mut E,
) -> Result<(), Ending> {
    if let Some(place) = asked.page {
        return serve(rt, asked, place, err);
    }
    let zone = zone_of(rt, asked.has_clock)?;
    let timing = timing_of(&zone, asked.is_json, asked.has_clock);
    match asked.setup {
        None => tell_word(rt, asked, (None, timing), input, out, err),
        Some(path) => {
            let setup = setup_of_word(rt, path, None, input, err)?;
            tell_word(rt, asked, (Some(&setup), timing), input, out, err)
        }
    }
}

// What is told of a recording: None is each thing that happened, and then the tables.
fn parts_of(asked: &ExplainAsked<'_>, setup: Option<&NodeSetup>) -> Option<Parts> {
    if asked.has_each | asked.is_json | setup.is_some() {
        return None;
    }
    Some(Parts::All)
}

// Tells a recording in a file, or on standard input.
fn tell_word<R: AllocGlobal + Files, I: Read + Drop, O: Write, E: Write>(
    rt: &R,
    asked: &ExplainAsked<'_>,
    (setup, timing): (Option<&NodeSetup>, Timing<'_>),
    input: &mut I,
    out: &mut O,
    err: &mut E,
) -> Result<(), Ending> {
    let parts = parts_of(asked, setup);
    if asked.capture == STANDARD_INPUT {
        return tell_input(rt.alloc(), asked, (setup, timing, parts), input, out, err);
    }
    let Ok(mut file) = fs::open(rt, asked.capture) else {
        return Err(say_unread(asked.capture, err));
    };
    if parts.is_none() {
        if let Some(front) = front_of::<R>(&mut file) {
            let incidents = (setup, timing, Some(Parts::Incidents));
            tell_input(rt.alloc(), asked, incidents, front, out, err)?;
            if file.seek(SeekFrom::Start(0)).is_err() {
                return Err(say_unread(asked.capture, err));
            }
        }
    }
    tell_input(rt.alloc(), asked, (setup, timing, parts), file, out, err)
}

// A file to be read before it is read again; None where it can't be, as a pipe.
fn front_of<R: Files>(file: &mut R::File) -> Option<R::File> {
    file.seek(SeekFrom::Start(0)).ok()?;
    file.try_clone().ok()
}

fn tell_input<I: Read + Drop, O: Write, E: Write>(
    alloc: Global,
    asked: &ExplainAsked<'_>,
    (setup, timing, parts): (Option<&NodeSetup>, Timing<'_>, Option<Parts>),
    input: I,
    out: &mut O,
    err: &mut E,
) -> Result<(), Ending> {
    let mut ahead = Ahead::new(alloc, input);
    let moments = moments_of(&mut ahead, timing)?;
    let Ok(reader) = BufReader::with_capacity(alloc, ROOM, ahead) else {
        return Err(Ending::OutOfMemory);
    };
    let told = tell_to_lines(alloc, reader, asked, (setup, parts), (timing, moments), out)?;
    match (told, parts) {
        (Ok(()), _) => Ok(()),
        (Err(ExplainFault::OutOfMemory), _) => Err(Ending::OutOfMemory),
        (Err(ExplainFault::Device), _) => Err(Ending::DeviceWrite),
        // (where it is told again the fault is met again)
        (Err(ExplainFault::Capture(_)), Some(Parts::Incidents)) => Ok(()),
        (Err(ExplainFault::Capture(fault)), _) => Err(say_capture_fault(asked.capture, fault, err)),
    }
}

// The moments of a recording's lines, where they are wanted. (Where its input fails, that is met again where it is told.)
fn moments_of<I: Read>(ahead: &mut Ahead<I>, timing: Timing<'_>) -> Result<Recorded, Ending> {
    if let Timing::Unstamped = timing {
        return Ok(Recorded::new(None));
    }
    match ahead.first_moment() {
        Ok(first) => Ok(Recorded::new(first)),
        Err(error) if error.kind() == ErrorKind::OutOfMemory => Err(Ending::OutOfMemory),
        Err(_) => Ok(Recorded::new(None)),
    }
}

// Tells what a reader gives; the lines, with their times, are written in pieces.
fn tell_to_lines<I: BufRead + Drop, O: Write>(
    alloc: Global,
    reader: I,
    asked: &ExplainAsked<'_>,
    (setup, parts): (Option<&NodeSetup>, Option<Parts>),
    (timing, moments): (Timing<'_>, Recorded),
    out: &mut O,
) -> Result<Result<(), ExplainFault>, Ending> {
    let Ok(lines) = BufWriter::new(alloc, &mut *out) else {
        return Err(Ending::OutOfMemory);
    };
    let mut lines = Stamped::new(lines, moments, timing);
    let told = tell_reader(alloc, reader, asked, (setup, parts), &mut lines);
    of_write(lines.flush())?;
    Ok(told)
}

fn tell_reader<I: BufRead + Drop, O: Write>(
    alloc: Global,
    reader: I,
    asked: &ExplainAsked<'_>,
    (setup, parts): (Option<&NodeSetup>, Option<Parts>),
    out: &mut O,
) -> Result<(), ExplainFault> {
    let options = Options {
        port: port_of(asked.port, setup),
        universes: asked.universes.as_slice(),
        form: form_of(asked.is_json),
    };
    match parts {
        Some(parts) => tell_digest(alloc, reader, &options, parts, out),
        None => {
            explain(alloc, reader, &options, setup, out)?;
            Ok(())
        }
    }
}

// The port that is asked for, that of the setup, or that of streaming ACN.
fn port_of(asked: Option<u16>, setup: Option<&NodeSetup>) -> u16 {
    match (asked, setup) {
        (Some(port), _) => port,
        (None, Some(setup)) => setup.udp_port(),
        (None, None) => DEFAULT_UDP_PORT,
    }
}
