//! A console and a node on 127.0.0.1.
use crate::ending::{Ending, of_write};
use crate::files::text_of_word;
use crate::naming::of_named;
use sacn_console::{Command, ConsoleCore, Show, read_script, read_show};
use sacn_edge::{
    ConsoleReport, SystemClock, UdpLink, WriterOut, print_report, run_console, run_node,
};
use sacn_node::{NodeCore, read_node};
use std::io::{Read, Write};
use std::net::Net;
use std::rt::{Clock, Files};

/// Runs a console of a show's file, as a script's file orders.
pub fn console_of_files<R: AllocGlobal + Files + Net + Clock, I: Read + Drop, O: Write, E: Write>(
    rt: &R,
    (show, script): (&str, &str),
    first: u8,
    turns: u64,
    input: &mut I,
    out: &mut O,
    err: &mut E,
) -> Result<(), Ending> {
    let show_text = of_named(text_of_word(rt, show, input), show, err)?;
    let script_text = of_named(text_of_word(rt, script, input), script, err)?;
    let texts = (show_text.as_str(), script_text.as_str());
    let ended = console(rt, texts, first, turns, out);
    let path = match ended {
        Err(Ending::Line(_)) => script,
        _ => show,
    };
    of_named(ended, path, err)
}

// Runs a console of a show for so many turns, gives it the orders of a script, and prints what came of it.
fn console<R: AllocGlobal + Net + Clock, O: Write>(
    rt: &R,
    texts: (&str, &str),
    first: u8,
    turns: u64,
    out: &mut O,
) -> Result<(), Ending> {
    let show = read_show(rt.alloc(), texts.0)?;
    let report = perform(rt, &show, texts.1, first, turns)?;
    tell(&report, out)
}

// Reads the script, and plays it. (The check of a function takes much longer the more values it has to drop on its ways out.)
fn perform<R: AllocGlobal + Net + Clock>(
    rt: &R,
    show: &Show,
    script: &str,
    first: u8,
    turns: u64,
) -> Result<ConsoleReport, Ending> {
    let script = read_script(rt.alloc(), script)?;
    play(rt, show, script.as_slice(), first, turns)
}

// Sends the show on a socket of its own.
fn play<R: AllocGlobal + Net + Clock>(
    rt: &R,
    show: &Show,
    script: &[(u64, Command)],
    first: u8,
    turns: u64,
) -> Result<ConsoleReport, Ending> {
    let mut core = ConsoleCore::new(rt.alloc(), show, first)?;
    let mut link = UdpLink::bind(rt, 0, show.send_to())?;
    let mut clock = SystemClock::new(rt);
    Ok(run_console(&mut link, &mut clock, &mut core, script, turns))
}

/// Prints what came of a console's run.
pub fn tell<O: Write>(report: &ConsoleReport, out: &mut O) -> Result<(), Ending> {
    of_write(print_report(out, report))
}

/// Runs a node of a setup's file.
pub fn node_of_file<R: AllocGlobal + Files + Net + Clock, I: Read + Drop, O: Write, E: Write>(
    rt: &R,
    setup: &str,
    turns: u64,
    input: &mut I,
    out: &mut O,
    err: &mut E,
) -> Result<(), Ending> {
    let text = of_named(text_of_word(rt, setup, input), setup, err)?;
    of_named(node(rt, text.as_str(), turns, out), setup, err)
}

// Runs a node of a setup for so many turns, which prints its frames as they change.
fn node<R: AllocGlobal + Net + Clock, O: Write>(
    rt: &R,
    text: &str,
    turns: u64,
    out: &mut O,
) -> Result<(), Ending> {
    let alloc = rt.alloc();
    let setup = read_node(alloc, text)?;
    let mut core = NodeCore::new(alloc, &setup)?;
    let mut link = UdpLink::bind(rt, setup.udp_port(), &[])?;
    let mut clock = SystemClock::new(rt);
    let mut lines = WriterOut::new(&mut *out);
    run_node(&mut link, &mut clock, &mut lines, &mut core, turns)?;
    of_write(out.flush())
}
