//! What a desk sends and where, and its state, each in a line.
use crate::destinations::{Destination, Destinations};
use crate::order_refusal::push_quoted;
use sacn_console::{ConsoleCore, Show, State, UniverseLine};
use std::alloc::Global;
use std::io::{self, Write};

/// More letters than a source's name has (E1.31, 6.2.2).
const NAME_LETTERS: usize = 64;

/// A host, with the universes that go there as `--to` names them.
fn write_host<O: Write>(out: &mut O, host: &Destination) -> io::Result<()> {
    let mut between = "";
    for range in host.universes.as_slice() {
        write_range(out, between, range.first, range.last)?;
        between = ",";
    }
    let [a, b, c, d] = host.address.ip().octets();
    let port = host.address.port();
    let sign = if host.universes.is_empty() { "" } else { "=" };
    write!(out, "{sign}{a}.{b}.{c}.{d}:{port}")
}

fn write_places<O: Write>(out: &mut O, places: &Destinations) -> io::Result<()> {
    let mut between = " to ";
    for host in places.hosts.as_slice() {
        out.write_all(between.as_bytes())?;
        write_host(out, host)?;
        between = ", ";
    }
    if places.is_multicast {
        write!(out, "{between}multicast")?;
    }
    Ok(())
}

/// Writes what a desk sends, in a line: the source's name and priority, its universes as ranges, and where they go; and that it stands by,
/// where it does.
pub fn write_start<O: Write>(
    out: &mut O,
    alloc: Global,
    show: &Show,
    places: &Destinations,
    is_standby: bool,
) -> io::Result<()> {
    let mut name = String::new(alloc);
    if push_quoted(&mut name, show.name(), NAME_LETTERS).is_err() {
        name.clear();
    }
    write!(
        out,
        "desk {} priority {} universes ",
        name.as_str(),
        show.priority()
    )?;
    write_ranges(out, show.universes())?;
    write_places(out, places)?;
    out.write_all(if is_standby {
        b"; it stands by: start UNIVERSE or start all begins\n".as_slice()
    } else {
        b"\n".as_slice()
    })
}

/// Whether all universes have stopped.
pub(crate) fn have_stopped(lines: &[UniverseLine]) -> bool {
    lines
        .iter()
        .all(|line| matches!(line.state, State::Stopped))
}

fn state_name(state: &State) -> &'static str {
    match state {
        State::Running(_) => "running",
        State::Ending(_) => "ending",
        State::Stopped => "stopped",
    }
}

/// Writes the line: the current cue, the grand master, what was sent and what failed, and each universe's state.
pub(crate) fn write_status<O: Write>(
    out: &mut O,
    core: &ConsoleCore,
    sent: u64,
    failed: u64,
) -> io::Result<()> {
    write!(out, "cue ")?;
    match core.cue() {
        Some(cue) => write!(out, "{cue}")?,
        None => write!(out, "none")?,
    }
    write!(out, " master {}", core.grand_master())?;
    write!(out, " sent {sent} failed {failed}")?;
    for line in core.lines() {
        write!(out, " {} {}", line.universe, state_name(&line.state))?;
    }
    out.write_all(b"\n")?;
    out.flush()
}

/// Writes ascending universes as ranges, as `1-4,7`.
pub fn write_ranges<O: Write>(out: &mut O, universes: &[u16]) -> io::Result<()> {
    let mut range: Option<(u16, u16)> = None;
    let mut between = "";
    for universe in universes {
        range = match range {
            Some((first, last)) if last.saturating_add(1) == *universe => Some((first, *universe)),
            Some((first, last)) => {
                write_range(out, between, first, last)?;
                between = ",";
                Some((*universe, *universe))
            }
            None => Some((*universe, *universe)),
        };
    }
    match range {
        Some((first, last)) => write_range(out, between, first, last),
        None => Ok(()),
    }
}

/// Writes a range behind what stands between it and the one before.
pub fn write_range<O: Write>(out: &mut O, between: &str, first: u16, last: u16) -> io::Result<()> {
    if first == last {
        write!(out, "{between}{first}")
    } else {
        write!(out, "{between}{first}-{last}")
    }
}
