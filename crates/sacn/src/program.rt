//! The program, over any words, input and outputs.
use crate::audit::{self, AuditOf};
use crate::piped::Piped;
use crate::{check, explain, gateway, manual, record, replay, watch};
use sacn_commands::ending::{DONE, Ending, tell_ending, tell_words};
use sacn_commands::network::{console_of_files, node_of_file};
use sacn_commands::printing::{decode_files, decode_input, simulate};
use sacn_commands::{groups, live};
use sacn_words::{Asked, parse};
use std::alloc::{AllocError, Global};
use std::env::Env;
use std::io::{Read, Write};
use std::net::Net;
use std::rt::{Clock, Files};

/// What a run takes at its beginning, memory and stack together, in octets: less than so many.
const BEGINNING: usize = 1 << 20;

/// Runs the program on its words, of which the first is its name, and returns the exit status: 0, 2
/// for bad words, 3 for input that is refused, 4 for a device that fails.
pub fn run_program<
    R: AllocGlobal + Files + Env + Net + Clock,
    I: Read + Drop,
    O: Write + Drop,
    E: Write + Drop,
>(rt: &R, words: &[String], input: I, mut out: O, mut err: E) -> u8 {
    // (first of all, since reading the words takes room too)
    if ask_for_room(rt.alloc()).is_err() {
        return tell_ending(Ending::OutOfMemory, &mut err);
    }
    let asked = match parse(rt.alloc(), words) {
        Ok(asked) => asked,
        Err(error) => return tell_words(rt.alloc(), error, &mut out, &mut err),
    };
    match run(rt, asked, input, out, &mut err) {
        Ok(()) => DONE,
        Err(ending) => tell_ending(ending, &mut err),
    }
}

// Asks for as much as a beginning takes, and gives it back. Where the machine hasn't that much, this is told before the stack,
// which can't be asked, grows into what isn't there.
fn ask_for_room(alloc: Global) -> Result<(), AllocError> {
    let mut room: Vec<u8> = Vec::with_capacity(alloc, BEGINNING)?;
    touch(&mut room)
}

// Out of line, so that the room is really asked for.
#[inline(never)]
fn touch(room: &mut Vec<u8>) -> Result<(), AllocError> {
    room.push(0)?;
    Ok(())
}

// Does what is asked for. What prints packets and looks owns the output, and promises what it then has.
fn run<R: AllocGlobal + Files + Env + Net + Clock, I: Read + Drop, O: Write + Drop, E: Write>(
    rt: &R,
    asked: Asked<'_>,
    mut input: I,
    mut out: O,
    err: &mut E,
) -> Result<(), Ending> {
    match asked {
        Asked::Datagram => decode_input(rt.alloc(), input, out),
        Asked::Decode(files) => decode_files(rt, files.as_slice(), &mut input, out, err),
        Asked::Simulate { world, schedule } => {
            simulate(rt, (world, schedule), &mut input, out, err)
        }
        asked => run_beside(rt, &asked, &mut input, &mut out, err),
    }
}

// The same of what else there is, over an input and an output that aren't its own: nothing is left to drop here, which would make the check take much longer.
fn run_beside<R: AllocGlobal + Files + Env + Net + Clock, I: Read + Drop, O: Write, E: Write>(
    rt: &R,
    asked: &Asked<'_>,
    input: &mut I,
    out: &mut O,
    err: &mut E,
) -> Result<(), Ending> {
    match asked {
        Asked::Datagram | Asked::Decode(_) | Asked::Simulate { .. } => Ok(()),
        Asked::Console {
            show,
            script,
            turns,
            first,
        } => console_of_files(rt, (*show, *script), *first, *turns, input, out, err),
        Asked::Node { setup, turns } => node_of_file(rt, setup, *turns, input, out, err),
        Asked::Gateway(asked) => gateway::gateway(rt, asked, input),
        Asked::Desk(asked) => live::desk(rt, asked),
        Asked::Groups { file, device } => groups::groups(rt, (*file, *device), input, out, err),
        Asked::Manual(syntax) => manual::print(rt.alloc(), *syntax, out),
        Asked::Watch(asked) => watch::watch(rt, asked, out, err),
        Asked::Record(asked) => record::record(rt, asked, err),
        Asked::Replay(asked) => replay::replay(rt, asked),
        Asked::Explain(asked) => {
            let mut out = Piped::new(out);
            let told = explain::tell(rt, asked, input, &mut out, err);
            out.ending(told)
        }
        Asked::Audit {
            capture,
            port,
            is_json,
        } => {
            let asked = AuditOf {
                capture,
                port: *port,
                is_json: *is_json,
            };
            tell_audit(rt, asked, input, out, err)
        }
        Asked::Check(asked) => {
            let mut out = Piped::new(out);
            let told = check::check(rt, asked, input, &mut out, err);
            out.ending(told)
        }
    }
}

fn tell_audit<R: AllocGlobal + Files, I: Read + Drop, O: Write, E: Write>(
    rt: &R,
    asked: AuditOf<'_>,
    input: &mut I,
    out: &mut O,
    err: &mut E,
) -> Result<(), Ending> {
    let mut out = Piped::new(out);
    let told = audit::tell(rt, asked, input, &mut out, err);
    out.ending(told)
}
