//! What a player says.
use sacn_desk::{Destination, Destinations, write_range, write_ranges};
use sacn_replay::{ReplayCore, ReplayCounts, Speed, UNIT_SPEED};
use std::io::{self, Write};

pub(crate) const HELP: &[u8] =
    b"pause | go | at SECONDS | at HH:MM:SS | speed X | status | help | quit
SECONDS are behind the first datagram, as 90 or 12.5; HH:MM:SS is a time of day of the recording; X is 0.001 to 1000
";

/// What is answered once an order holds.
#[derive(Clone, Copy)]
pub(crate) enum Answer {
    Paused,
    Going,
    At,
    Speed,
    Status,
}

// A moment of the recording in seconds.
fn write_moment<O: Write>(out: &mut O, millis: u64) -> io::Result<()> {
    write!(out, "{}.{:03} s", millis / 1000, millis % 1000)
}

// A speed, without the zeros that end its decimals.
fn write_speed<O: Write>(out: &mut O, speed: Speed) -> io::Result<()> {
    let (whole, rest) = (speed.thousandths() / 1000, speed.thousandths() % 1000);
    if rest == 0 {
        write!(out, "{whole}")
    } else if rest % 100 == 0 {
        write!(out, "{whole}.{}", rest / 100)
    } else if rest % 10 == 0 {
        write!(out, "{whole}.{:02}", rest / 10)
    } else {
        write!(out, "{whole}.{rest:03}")
    }
}

fn write_status<O: Write>(out: &mut O, core: &ReplayCore, played: &str) -> io::Result<()> {
    let word = if core.head().is_paused() {
        "paused at "
    } else {
        "plays at "
    };
    out.write_all(word.as_bytes())?;
    write_moment(out, core.head().moment())?;
    out.write_all(b", speed ")?;
    write_speed(out, core.head().speed())?;
    let counts = core.counts();
    writeln!(out, ", {played} {}, left out {}", counts.sent, counts.stale)
}

fn write_ok<O: Write>(out: &mut O, word: &str, core: &ReplayCore) -> io::Result<()> {
    write!(out, "ok {word} ")?;
    write_moment(out, core.head().moment())?;
    out.write_all(b"\n")
}

/// Answers an order, which holds by now; a status says by this word what was done with the datagrams that were played.
pub(crate) fn write_answer<O: Write>(
    out: &mut O,
    answer: Answer,
    core: &ReplayCore,
    played: &str,
) -> io::Result<()> {
    match answer {
        Answer::Paused => write_ok(out, "paused at", core),
        Answer::Going => write_ok(out, "plays from", core),
        Answer::At => write_ok(out, "at", core),
        Answer::Speed => {
            out.write_all(b"ok speed ")?;
            write_speed(out, core.head().speed())?;
            out.write_all(b"\n")
        }
        Answer::Status => write_status(out, core, played),
    }
}

// A host, with the universes that go there as `--to` names them.
fn write_host<O: Write>(out: &mut O, host: &Destination) -> io::Result<()> {
    let mut between = "";
    for range in host.universes.as_slice() {
        write_range(out, between, range.first, range.last)?;
        between = ",";
    }
    let [a, b, c, d] = host.address.ip().octets();
    let sign = if host.universes.is_empty() { "" } else { "=" };
    write!(out, "{sign}{a}.{b}.{c}.{d}:{}", host.address.port())
}

/// As whom a recording is played.
#[derive(Clone, Copy)]
pub struct PlayedAs<'a> {
    /// The source's name and its CID, as a line has them.
    pub name: &'a str,
    pub priority: u8,
    /// Its universes, ascending.
    pub universes: &'a [u16],
}

fn write_source<O: Write>(out: &mut O, source: &PlayedAs<'_>) -> io::Result<()> {
    write!(
        out,
        " as {} priority {} universes ",
        source.name, source.priority
    )?;
    write_ranges(out, source.universes)
}

/// Writes what is played and where it goes, in a line; and as whom, where it is played as a source.
pub fn write_start<O: Write>(
    out: &mut O,
    name: &str,
    source: Option<&PlayedAs<'_>>,
    places: &Destinations,
    speed: Speed,
) -> io::Result<()> {
    write!(out, "plays {name}")?;
    if let Some(source) = source {
        write_source(out, source)?;
    }
    let mut between = " to ";
    for host in places.hosts.as_slice() {
        out.write_all(between.as_bytes())?;
        write_host(out, host)?;
        between = ", ";
    }
    if places.is_multicast {
        write!(out, "{between}multicast")?;
    }
    if speed.thousandths() != UNIT_SPEED {
        out.write_all(b" at speed ")?;
        write_speed(out, speed)?;
    }
    out.write_all(b"\n")
}

// How many datagrams were played, and how many were more than 2500 ms late and so left out (E1.31, 6.7.1).
fn write_played<O: Write>(out: &mut O, counts: &ReplayCounts) -> io::Result<()> {
    let word = if counts.sent == 1 {
        "datagram"
    } else {
        "datagrams"
    };
    write!(out, "played {} {word}", counts.sent)?;
    if counts.stale > 0 {
        write!(
            out,
            ", left out {} that were more than 2500 ms late",
            counts.stale
        )?;
    }
    Ok(())
}

fn write_failed<O: Write>(out: &mut O, failed: u64) -> io::Result<()> {
    if failed > 0 {
        write!(out, ", failed {failed}")?;
    }
    out.write_all(b"\n")
}

/// Writes what was played, in a line: how many datagrams went out, how many were left out, and how many weren't taken by each destination.
pub fn write_totals<O: Write>(out: &mut O, counts: &ReplayCounts, failed: u64) -> io::Result<()> {
    write_played(out, counts)?;
    write_failed(out, failed)
}

/// What came of a recording that was played as a source.
#[derive(Clone, Copy)]
pub struct SourceTotals {
    /// What was done with its datagrams.
    pub counts: ReplayCounts,
    /// How many of its data packets were of no universe of the show.
    pub others: u64,
    /// How many packets the source sent.
    pub sent: u64,
    /// How many weren't taken by each destination.
    pub failed: u64,
}

/// Writes what came of a recording that was played as a source, in a line.
pub fn write_source_totals<O: Write>(out: &mut O, totals: &SourceTotals) -> io::Result<()> {
    write_played(out, &totals.counts)?;
    if totals.others > 0 {
        write!(out, ", passed over {} of other universes", totals.others)?;
    }
    write!(out, ", sent {}", totals.sent)?;
    write_failed(out, totals.failed)
}
