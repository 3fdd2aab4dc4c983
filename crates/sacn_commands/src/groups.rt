//! The commands by which a device joins groups.
use crate::ending::{Ending, of_write};
use crate::files::text_of_word;
use crate::live::push_universes;
use crate::naming::of_file;
use sacn_check::{FileKind, kind_of};
use sacn_console::read_show;
use sacn_desk::DISCOVERY_UNIVERSE;
use sacn_node::{NodeSetup, read_node};
use sacn_packets::multicast_group;
use std::io::{Read, Write};
use std::rt::Files;

fn universes_of_setup<R: AllocGlobal>(rt: &R, setup: &NodeSetup) -> Result<Vec<u16>, Ending> {
    let mut universes = Vec::new(rt.alloc());
    push_universes(&mut universes, setup)?;
    universes.sort()?;
    universes.dedup();
    Ok(universes)
}

// The universes of a setup or of a show.
fn universes_of_word<R: AllocGlobal + Files, I: Read + Drop>(
    rt: &R,
    word: &str,
    input: &mut I,
) -> Result<Vec<u16>, Ending> {
    let text = text_of_word(rt, word, input)?;
    match kind_of(rt.alloc(), text.as_str())? {
        Some(FileKind::Show) => {
            let show = read_show(rt.alloc(), text.as_str())?;
            Ok(show.universes().to_vec(rt.alloc())?)
        }
        _ => universes_of_setup(rt, &read_node(rt.alloc(), text.as_str())?),
    }
}

/// Prints the commands by which a device joins the groups of a file's universes, and that of discovery.
pub fn groups<R: AllocGlobal + Files, I: Read + Drop, O: Write, E: Write>(
    rt: &R,
    (path, device): (&str, &str),
    input: &mut I,
    out: &mut O,
    err: &mut E,
) -> Result<(), Ending> {
    let mut universes = of_file(universes_of_word(rt, path, input), path, err)?;
    universes.push(DISCOVERY_UNIVERSE)?;
    for universe in universes.as_slice() {
        let [a, b, c, d] = multicast_group(*universe);
        of_write(writeln!(
            out,
            "ip address add {a}.{b}.{c}.{d}/32 dev {device} autojoin"
        ))?;
    }
    of_write(out.flush())
}
