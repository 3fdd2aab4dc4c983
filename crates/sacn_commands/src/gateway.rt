//! A gateway's setups, its socket and its run.
use crate::ending::{BAD_WORDS, Ending, REFUSED, of_write};
use crate::live::{clock_of, of_socket, say_hearing, setup_of_word, universes_of_setups};
use sacn_edge::WriterOut;
use sacn_files::limits::DEFAULT_UDP_PORT;
use sacn_gateway::{Diagnosis, GatewayNode, Interface, Notes, Span, run_gateway};
use sacn_machine::{UdpReceiver, Widget};
use sacn_node::{NodeCore, NodeSetup};
use sacn_packets::multicast_group;
use sacn_words::{GatewayAsked, moment_of};
use std::io::{Read, Write};
use std::net::{Net, SocketAddrV4};
use std::rt::{Clock, Files};

/// What takes the ports and universes that one setup has no room for.
const BEYOND_SETUP: &str =
    "what is more goes into a second setup: sacn gateway SETUP SETUP.. takes up to 32 of them";

// Where a gateway hears, and the groups that it should hear.
fn say_gateway<E: Write>(address: SocketAddrV4, room: Option<u32>, universes: &[u16], err: &mut E) {
    say_hearing(address, room, err);
    for universe in universes {
        let [a, b, c, d] = multicast_group(*universe);
        let _ = writeln!(err, "group {a}.{b}.{c}.{d} universe {universe}");
    }
}

fn has_port(setup: &NodeSetup, number: u8) -> bool {
    setup.ports().iter().any(|port| port.number() == number)
}

// The interfaces of a setup's ports.
fn interfaces_of<'a, R: AllocGlobal>(
    rt: &R,
    asked: &[(u8, &'a str)],
    setup: &NodeSetup,
) -> Result<Vec<Interface<'a, Widget<'a>>>, Ending> {
    let mut interfaces = Vec::new(rt.alloc());
    for (port, path) in asked {
        if has_port(setup, *port) {
            interfaces.push(Interface::new(*port, path, Widget::new(path)))?;
        }
    }
    Ok(interfaces)
}

fn nodes_of<'a, R: AllocGlobal>(
    rt: &R,
    asked: &[(u8, &'a str)],
    setups: &[NodeSetup],
) -> Result<Vec<GatewayNode<'a, Widget<'a>>>, Ending> {
    let mut nodes = Vec::new(rt.alloc());
    for setup in setups {
        let core = NodeCore::new(rt.alloc(), setup)?;
        let interfaces = interfaces_of(rt, asked, setup)?;
        nodes.push(GatewayNode::new(core, interfaces))?;
    }
    Ok(nodes)
}

// Refuses an interface for a port that no setup has, and one that two ports would have.
fn check_widgets<E: Write>(
    asked: &[(u8, &str)],
    setups: &[NodeSetup],
    err: &mut E,
) -> Result<(), Ending> {
    for (port, path) in asked {
        if !setups.iter().any(|setup| has_port(setup, *port)) {
            let _ = writeln!(err, "error: {port}={path}: NoPort");
            return Err(Ending::Said(BAD_WORDS));
        }
        if asked.iter().filter(|it| it.1 == *path).count() > 1 {
            let _ = writeln!(err, "error: {port}={path}: DeviceTaken");
            return Err(Ending::Said(BAD_WORDS));
        }
    }
    Ok(())
}

// Refuses a setup that has another UDP port than an earlier one, or a port of the same number.
fn check_beside<E: Write>(
    (path, setup): (&str, &NodeSetup),
    (earlier_path, earlier): (&str, &NodeSetup),
    err: &mut E,
) -> Result<(), Ending> {
    let (udp_port, other) = (setup.udp_port(), earlier.udp_port());
    if udp_port != other {
        let _ = writeln!(
            err,
            "refused {path} UdpPort {udp_port}: {earlier_path} has {other}"
        );
        return Err(Ending::Said(REFUSED));
    }
    for port in setup.ports() {
        let number = port.number();
        if has_port(earlier, number) {
            let _ = writeln!(
                err,
                "refused {path} PortTaken {number}: {earlier_path} has it"
            );
            return Err(Ending::Said(REFUSED));
        }
    }
    Ok(())
}

/// The setups that a gateway is asked to run, with these interfaces: of one UDP port, and with port numbers that are all different.
pub fn setups_of<R: AllocGlobal + Files, I: Read + Drop, E: Write>(
    rt: &R,
    asked: &GatewayAsked<'_>,
    input: &mut I,
    err: &mut E,
) -> Result<Vec<NodeSetup>, Ending> {
    let paths = asked.setups.as_slice();
    let mut setups = Vec::new(rt.alloc());
    for path in paths {
        let setup = setup_of_word(rt, path, Some(BEYOND_SETUP), input, err)?;
        for (earlier_path, earlier) in paths.iter().zip(setups.as_slice()) {
            check_beside((path, &setup), (earlier_path, earlier), err)?;
        }
        setups.push(setup)?;
    }
    check_widgets(asked.widgets.as_slice(), setups.as_slice(), err)?;
    Ok(setups)
}

/// The address at which setups are heard.
pub fn address_of(asked: &GatewayAsked<'_>, setups: &[NodeSetup]) -> SocketAddrV4 {
    let udp_port = match setups.first() {
        Some(setup) => setup.udp_port(),
        None => DEFAULT_UDP_PORT,
    };
    SocketAddrV4::new(asked.listen, udp_port)
}

/// What says on standard error what a receiver's gateway hears, and what the machine drops.
pub fn diagnosis_of<'a, R: AllocGlobal + Net + Clock, E: Write + Drop>(
    rt: &'a R,
    receiver: &UdpReceiver<'a, R>,
    err: E,
) -> Result<Diagnosis<E>, Ending> {
    let mut diagnosis = Diagnosis::new(err);
    diagnosis.count_drops(receiver.drops(rt.alloc())?);
    Ok(diagnosis)
}

/// Runs a gateway of setups, which prints its frames here. (The check of a function takes much longer the more values it
/// has to drop on its ways out.)
pub fn run_setups<R: AllocGlobal + Net + Clock, N: Notes, O: Write + Drop>(
    rt: &R,
    asked: &GatewayAsked<'_>,
    setups: &[NodeSetup],
    receiver: &mut UdpReceiver<'_, R>,
    notes: &mut N,
    mut out: O,
) -> Result<(), Ending> {
    let mut nodes = nodes_of(rt, asked.widgets.as_slice(), setups)?;
    let span = Span {
        turns: u64::MAX,
        until: moment_of(asked.seconds),
    };
    let mut lines = WriterOut::new(&mut out);
    run_gateway(
        receiver,
        notes,
        &mut lines,
        nodes.as_mut_slice(),
        asked.from.as_slice(),
        span,
    )?;
    of_write(out.flush())
}

/// The socket at which setups are heard; what it hears is said.
pub fn receiver_of<'a, R: AllocGlobal + Net + Clock, E: Write>(
    rt: &'a R,
    asked: &GatewayAsked<'_>,
    setups: &[NodeSetup],
    err: &mut E,
) -> Result<UdpReceiver<'a, R>, Ending> {
    let universes = universes_of_setups(rt, setups)?;
    let address = address_of(asked, setups);
    let bound = UdpReceiver::bind(rt, address, clock_of(rt)?);
    let receiver = of_socket(bound, address, err)?;
    say_gateway(address, receiver.room(), universes.as_slice(), err);
    Ok(receiver)
}
