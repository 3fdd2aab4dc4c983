//! Datagrams decoded, and worlds simulated. What prints owns the output, and promises what it then has.
use crate::ending::{Ending, of_write};
use crate::files::{octets_of_words, text_of_word};
use crate::naming::of_named;
use sacn_text::{
    DecodeFault, MAX_FILE_OCTETS, Printed, octets_of_digits, print_looks, print_packets,
    read_limited,
};
use std::alloc::Global;
use std::io::{Read, Write};
use std::rt::Files;

/// Decodes the one datagram on standard input.
pub fn decode_input<I: Read + Drop, O: Write + Drop>(
    alloc: Global,
    input: I,
    out: O,
) -> Result<(), Ending> {
    let datagrams = standard_input(alloc, input)?;
    finish(print_packets(alloc, datagrams.as_slice(), out))
}

/// Decodes files of one datagram each. One that is refused is said with its name.
pub fn decode_files<R: AllocGlobal + Files, I: Read + Drop, O: Write + Drop, E: Write>(
    rt: &R,
    files: &[&str],
    input: &mut I,
    out: O,
    err: &mut E,
) -> Result<(), Ending> {
    let datagrams = octets_of_words(rt, files, input, err)?;
    let printed = print_packets(rt.alloc(), datagrams.as_slice(), out);
    let refused = refused_file(files, &printed.ended);
    let ended = finish(printed);
    match refused {
        Some(path) => of_named(ended, path, err),
        None => ended,
    }
}

// The file whose datagram is no packet.
fn refused_file<'a>(files: &[&'a str], ended: &Result<(), DecodeFault>) -> Option<&'a str> {
    match ended {
        Err(DecodeFault::Refused(at, _)) => files.get(*at).copied(),
        _ => None,
    }
}

/// Runs a world by a schedule. The file that is refused is said with its name.
pub fn simulate<R: AllocGlobal + Files, I: Read + Drop, O: Write + Drop, E: Write>(
    rt: &R,
    (world, schedule): (&str, &str),
    input: &mut I,
    out: O,
    err: &mut E,
) -> Result<(), Ending> {
    let world_text = of_named(text_of_word(rt, world, input), world, err)?;
    let schedule_text = of_named(text_of_word(rt, schedule, input), schedule, err)?;
    let printed = print_looks(rt.alloc(), world_text.as_str(), schedule_text.as_str(), out);
    let ended = finish(printed);
    let path = match ended {
        Err(Ending::World(_)) => world,
        _ => schedule,
    };
    of_named(ended, path, err)
}

// The one datagram on standard input.
fn standard_input<I: Read + Drop>(alloc: Global, input: I) -> Result<Vec<Vec<u8>>, Ending> {
    let text = read_limited(alloc, input, MAX_FILE_OCTETS)?;
    let octets = octets_of_digits(alloc, text.as_slice())?;
    let mut datagrams = Vec::new(alloc);
    datagrams.push(octets)?;
    Ok(datagrams)
}

// Flushes what was written: a refusal stands only where the device did its part.
fn finish<W: Write + Drop, F: Drop>(printed: Printed<W, F>) -> Result<(), Ending>
where
    Ending: From<F>,
{
    let Printed { mut out, ended } = printed;
    if out.is_marked() {
        of_write(out.flush())?;
    }
    Ok(ended?)
}
