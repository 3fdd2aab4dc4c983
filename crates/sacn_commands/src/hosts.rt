//! Where a desk sends, by its words and its show.
use crate::ending::{BAD_WORDS, Ending};
use sacn_console::Show;
use sacn_desk::{Destination, Destinations, UniverseRange, write_range, write_ranges};
use sacn_words::DeskAsked;
use std::io::Write;
use std::net::{Ipv4Addr, SocketAddrV4};

/// The hosts that words name.
pub fn named_hosts<R: AllocGlobal>(rt: &R, to: &[Destination]) -> Result<Vec<Destination>, Ending> {
    let mut hosts = Vec::new(rt.alloc());
    for host in to {
        hosts.push(Destination {
            address: host.address,
            universes: host.universes.as_slice().to_vec(rt.alloc())?,
        })?;
    }
    Ok(hosts)
}

// The hosts that a desk's words name, else the show's ports on this machine unless groups are sent to.
fn hosts_of<R: AllocGlobal>(
    rt: &R,
    asked: &DeskAsked<'_>,
    show: &Show,
) -> Result<Vec<Destination>, Ending> {
    let mut hosts = named_hosts(rt, asked.to.as_slice())?;
    if hosts.is_empty() && !asked.is_multicast {
        for port in show.send_to() {
            hosts.push(Destination {
                address: SocketAddrV4::new(Ipv4Addr::LOCALHOST, *port),
                universes: Vec::new(rt.alloc()),
            })?;
        }
    }
    Ok(hosts)
}

// The first range of a host's that has none of these universes.
fn absent_range(host: &Destination, universes: &[u16]) -> Option<UniverseRange> {
    host.universes
        .as_slice()
        .iter()
        .find(|range| !universes.iter().any(|universe| range.holds(*universe)))
        .copied()
}

fn say_absent<E: Write>(host: &Destination, range: UniverseRange, err: &mut E) {
    let [a, b, c, d] = host.address.ip().octets();
    let _ = err.write_all(b"error: --to ");
    let _ = write_range(err, "", range.first, range.last);
    let _ = writeln!(
        err,
        "={a}.{b}.{c}.{d}: the show has none of these universes"
    );
}

// Whether it is a group (RFC 5771), and no host.
fn is_group(host: &Destination) -> bool {
    matches!(host.address.ip().octets(), [224..=239, ..])
}

/// Says which universes of the show go nowhere, where hosts are named and none of them takes these.
pub fn say_unsent<R: AllocGlobal, E: Write>(
    rt: &R,
    asked: &DeskAsked<'_>,
    destinations: &Destinations,
    universes: &[u16],
    err: &mut E,
) -> Result<(), Ending> {
    if asked.is_multicast || asked.to.is_empty() {
        return Ok(());
    }
    let hosts = destinations.hosts.as_slice();
    let mut unsent = Vec::new(rt.alloc());
    for universe in universes {
        if !hosts.iter().any(|host| host.takes(Some(*universe))) {
            unsent.push(*universe)?;
        }
    }
    if !unsent.is_empty() {
        let _ = err.write_all(b"no --to takes universe ");
        let _ = write_ranges(err, unsent.as_slice());
        let _ = err.write_all(b" of the show\n");
    }
    Ok(())
}

/// Refuses a group that is named as a host beside the groups of universes, and says so.
pub fn refuse_group<E: Write>(host: &Destination, err: &mut E) -> Result<(), Ending> {
    if !is_group(host) {
        return Ok(());
    }
    let [a, b, c, d] = host.address.ip().octets();
    let _ = writeln!(
        err,
        "error: --to {a}.{b}.{c}.{d}: with --multicast each universe goes to its group already"
    );
    Err(Ending::Said(BAD_WORDS))
}

/// Where a desk sends. A host that is to get universes that the show hasn't is refused, and that is said.
pub fn destinations_of<R: AllocGlobal, E: Write>(
    rt: &R,
    asked: &DeskAsked<'_>,
    show: &Show,
    err: &mut E,
) -> Result<Destinations, Ending> {
    let hosts = hosts_of(rt, asked, show)?;
    for host in hosts.as_slice() {
        if let Some(range) = absent_range(host, show.universes()) {
            say_absent(host, range, err);
            return Err(Ending::Said(BAD_WORDS));
        }
        if asked.is_multicast {
            refuse_group(host, err)?;
        }
    }
    Ok(Destinations {
        hosts,
        is_multicast: asked.is_multicast,
    })
}
