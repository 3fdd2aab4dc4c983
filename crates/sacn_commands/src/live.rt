//! Desks that run a rig, and what commands say of files and sockets.
use crate::ending::{DEVICE_FAILED, Ending};
use crate::files::{text_of_file, text_of_word};
use crate::hosts::{destinations_of, say_unsent};
use crate::naming::of_file;
use crate::network::tell;
use crate::paging::{postbox_of, say_page, served_of};
use crate::places::ReadFile;
use crate::prompting::{errors_beside, output_with, prompt_of};
use sacn_check::FileKind;
use sacn_console::limits::CONSOLE_UNIVERSES;
use sacn_console::{Command, ConsoleCore, Show, read_script, read_show};
use sacn_desk::limits::MAX_ROUNDS;
use sacn_desk::{
    DeskLink, DeskOrders, DeskSender, Destinations, Opening, Origin, Plan, PostedWriter, Standby,
    run_desk, write_start,
};
use sacn_desk_page::{PagedOrders, ServedDesk};
use sacn_edge::{Clock as DeskClock, ConsoleReport};
use sacn_machine::limits::RECEIVE_ROOM;
use sacn_machine::{Lines, Outputs, RigClock, Sockets, guard_standard_descriptors};
use sacn_node::{NodeSetup, SetupFault, read_node};
use sacn_words::DeskAsked;
use std::alloc::Global;
use std::env::{self, Env};
use std::io::{ErrorKind, Read, Write};
use std::net::{Net, SocketAddrV4};
use std::rt::{Clock, Files};

/// Says why the machine refused a socket, and returns how the run ends.
pub fn say_socket_fault<E: Write>(address: SocketAddrV4, kind: ErrorKind, err: &mut E) -> Ending {
    let [a, b, c, d] = address.ip().octets();
    let _ = writeln!(
        err,
        "device socket {a}.{b}.{c}.{d}:{} {kind:?}",
        address.port()
    );
    if let Some(advice) = advice_of(kind) {
        let _ = writeln!(err, "{advice}");
    }
    Ending::Said(DEVICE_FAILED)
}

// What to look at where a socket is refused for this reason.
fn advice_of(kind: ErrorKind) -> Option<&'static str> {
    match kind {
        ErrorKind::AddrInUse => Some("another program has that port; ss -lnptu names it"),
        ErrorKind::AddrNotAvailable => {
            Some("no device of this machine has that address; ip -brief address lists them")
        }
        _ => None,
    }
}

/// What has its socket at this address; where the machine refused it, that is said.
pub fn of_socket<T, E: Write>(
    bound: Result<T, ErrorKind>,
    address: SocketAddrV4,
    err: &mut E,
) -> Result<T, Ending> {
    match bound {
        Ok(value) => Ok(value),
        Err(ErrorKind::OutOfMemory) => Err(Ending::OutOfMemory),
        Err(kind) => Err(say_socket_fault(address, kind, err)),
    }
}

/// The setup in a file. One that is refused is said; where it has more ports or universes than a setup may, so is what takes them,
/// if something does.
pub fn setup_of_word<R: AllocGlobal + Files, I: Read + Drop, E: Write>(
    rt: &R,
    word: &str,
    beyond: Option<&str>,
    input: &mut I,
    err: &mut E,
) -> Result<NodeSetup, Ending> {
    let text = of_file(text_of_word(rt, word, input), word, err)?;
    let file = ReadFile {
        path: word,
        text: text.as_str(),
        kind: FileKind::Setup,
    };
    match read_node(rt.alloc(), file.text) {
        Ok(setup) => Ok(setup),
        Err(fault) => {
            let ending = file.refused(rt.alloc(), Ending::Setup(fault), err);
            if let (SetupFault::Limit, Some(advice)) = (fault, beyond) {
                let _ = writeln!(err, "{word}: {advice}");
            }
            Err(ending)
        }
    }
}

/// The show in a file. One that is refused is said, as `check` does.
pub fn show_of_file<R: AllocGlobal + Files, E: Write>(
    rt: &R,
    path: &str,
    err: &mut E,
) -> Result<Show, Ending> {
    let text = of_file(text_of_file(rt, path), path, err)?;
    let file = ReadFile {
        path,
        text: text.as_str(),
        kind: FileKind::Show,
    };
    match read_show(rt.alloc(), file.text) {
        Ok(show) => Ok(show),
        Err(fault) => Err(file.refused(rt.alloc(), Ending::Show(fault), err)),
    }
}

fn script_of_file<R: AllocGlobal + Files, E: Write>(
    rt: &R,
    path: &str,
    err: &mut E,
) -> Result<Vec<(u64, Command)>, Ending> {
    let text = of_file(text_of_file(rt, path), path, err)?;
    let file = ReadFile {
        path,
        text: text.as_str(),
        kind: FileKind::Script,
    };
    match read_script(rt.alloc(), file.text) {
        Ok(script) => Ok(script),
        Err(fault) => Err(file.refused(rt.alloc(), Ending::Line(fault), err)),
    }
}

/// A clock that starts now.
pub fn clock_of<'a, R: Clock>(rt: &'a R) -> Result<RigClock<'a, R>, Ending> {
    match RigClock::start(rt) {
        Ok(clock) => Ok(clock),
        Err(_) => Err(Ending::DeviceRead),
    }
}

/// What the launcher says that it joined for this command: a device, and groups.
pub fn joined_groups<R: AllocGlobal + Env>(rt: &R) -> Option<String> {
    match env::var(rt, "SACN_JOINED") {
        Ok(joined) if !joined.is_empty() => Some(joined),
        _ => None,
    }
}

pub(crate) fn push_universes(universes: &mut Vec<u16>, setup: &NodeSetup) -> Result<(), Ending> {
    for port in setup.ports() {
        for range in port.ranges() {
            universes.push(range.universe)?;
        }
    }
    Ok(())
}

/// The universes of setups, ascending.
pub fn universes_of_setups<R: AllocGlobal>(
    rt: &R,
    setups: &[NodeSetup],
) -> Result<Vec<u16>, Ending> {
    let mut universes = Vec::new(rt.alloc());
    for setup in setups {
        push_universes(&mut universes, setup)?;
    }
    universes.sort()?;
    universes.dedup();
    Ok(universes)
}

/// Says where is heard.
pub fn say_hearing<E: Write>(address: SocketAddrV4, room: Option<u32>, err: &mut E) {
    let [a, b, c, d] = address.ip().octets();
    let _ = writeln!(err, "hears {a}.{b}.{c}.{d}:{}", address.port());
    if let Some(room) = room {
        if room / 2 < RECEIVE_ROOM as u32 {
            let _ = writeln!(err, "receive buffer {} of {RECEIVE_ROOM}", room / 2);
        }
    }
}

/// Runs a desk, and prints what came of it on standard output. No output that isn't read holds it up.
pub fn desk<R: AllocGlobal + Files + Env + Net + Clock>(
    rt: &R,
    asked: &DeskAsked<'_>,
) -> Result<(), Ending> {
    guard_standard_descriptors();
    let mut clock = clock_of(rt)?;
    let outputs = Outputs::new(rt.alloc(), Lines::Plain)?;
    let run = desk_on(rt, asked, &outputs);
    outputs.finish(&mut clock);
    run
}

fn desk_on<R: AllocGlobal + Files + Env + Net + Clock>(
    rt: &R,
    asked: &DeskAsked<'_>,
    outputs: &Outputs,
) -> Result<(), Ending> {
    let show = show_of_file(rt, asked.show, &mut outputs.err())?;
    match asked.script {
        Some(path) => perform_script(rt, asked, &show, path, outputs),
        None => perform(rt, asked, &show, None, outputs),
    }
}

fn perform_script<R: AllocGlobal + Files + Env + Net + Clock>(
    rt: &R,
    asked: &DeskAsked<'_>,
    show: &Show,
    path: &str,
    outputs: &Outputs,
) -> Result<(), Ending> {
    let script = script_of_file(rt, path, &mut outputs.err())?;
    perform(rt, asked, show, Some(script.as_slice()), outputs)
}

fn perform<'a, R: AllocGlobal + Files + Env + Net + Clock>(
    rt: &R,
    asked: &DeskAsked<'_>,
    show: &'a Show,
    script: Option<&'a [(u64, Command)]>,
    outputs: &'a Outputs,
) -> Result<(), Ending> {
    let prompt = prompt_of(rt);
    let served = served_of(rt, asked, show, &mut outputs.err())?;
    let plan = Plan {
        show,
        script,
        stays: asked.stays,
        is_standby: asked.is_standby,
        outputs: Some(outputs),
        prompt: prompt.as_ref(),
        posted: postbox_of(served.as_ref()),
    };
    play(rt, asked, plan, outputs, served.as_ref())
}

// Plays by this plan, and tells what came of it.
fn play<'a, R: AllocGlobal + Env + Net + Clock>(
    rt: &R,
    asked: &DeskAsked<'_>,
    plan: Plan<'a>,
    outputs: &'a Outputs,
    served: Option<&ServedDesk>,
) -> Result<(), Ending> {
    let destinations = destinations_of(rt, asked, plan.show, &mut outputs.err())?;
    let mut core = ConsoleCore::new(rt.alloc(), plan.show, asked.first)?;
    let sent = send_show(rt, asked, plan, destinations, &mut core, outputs, served)?;
    let mut out = output_with(outputs, plan.prompt);
    tell(&sent.report, &mut out)?;
    tell_unsent(sent.has_sent, sent.report.failed, &mut outputs.err())
}

// What a desk sent.
#[derive(Clone, Copy)]
struct Sent {
    report: ConsoleReport,
    // Whether a host or a group took a packet.
    has_sent: bool,
}

/// What sent packets, of which some failed and none went out, has failed, and that is said.
pub fn tell_unsent<E: Write>(has_sent: bool, failed: u64, err: &mut E) -> Result<(), Ending> {
    if has_sent || failed == 0 {
        return Ok(());
    }
    let _ = writeln!(
        err,
        "no packet could be sent: is this machine's network up, and are these the right hosts?"
    );
    Err(Ending::Said(DEVICE_FAILED))
}

// Where the packets of a show come from.
fn origin_of(asked: &DeskAsked<'_>, show: &Show) -> Origin {
    Origin {
        address: asked.bind,
        ttl: asked.ttl,
        universes: show.universes().len().min(CONSOLE_UNIVERSES) as u16,
    }
}

// Sends from sockets of its own.
fn send_show<'a, R: AllocGlobal + Net + Clock>(
    rt: &R,
    asked: &DeskAsked<'_>,
    plan: Plan<'a>,
    destinations: Destinations,
    core: &mut ConsoleCore,
    outputs: &'a Outputs,
    served: Option<&ServedDesk>,
) -> Result<Sent, Ending> {
    let clock = clock_of(rt)?;
    let origin = origin_of(asked, plan.show);
    let alloc = rt.alloc();
    let mut err = outputs.err();
    let _ = write_start(&mut err, alloc, plan.show, &destinations, plan.is_standby);
    say_unsent(rt, asked, &destinations, plan.show.universes(), &mut err)?;
    if let Some(page) = asked.page {
        say_page(page.place, &mut err);
    }
    let notices = errors_beside(outputs, plan.prompt);
    let sender = match DeskSender::bind(rt, alloc, origin, destinations, clock.twin(), notices) {
        Ok(sender) => sender,
        Err(kind) => {
            let from = SocketAddrV4::new(asked.bind, 0);
            return Err(say_socket_fault(from, kind, &mut outputs.err()));
        }
    };
    let link = Opening::over(alloc, sender)?;
    let mut out = PostedWriter::new(output_with(outputs, plan.prompt), plan.posted);
    if plan.is_standby {
        run_standby(alloc, plan, clock, link, core, &mut out, served)
    } else {
        run_opened(alloc, plan, clock, link, core, &mut out, served)
    }
}

// Runs a desk that opens each stream so that it is taken whatever came before.
fn run_opened<R: Clock, S: Sockets + Drop, C: DeskClock + Drop, E: Write + Drop, O: Write>(
    alloc: Global,
    plan: Plan<'_>,
    clock: RigClock<'_, R>,
    link: Opening<DeskSender<S, C, E>>,
    core: &mut ConsoleCore,
    out: &mut O,
    served: Option<&ServedDesk>,
) -> Result<Sent, Ending> {
    let mut link = link;
    let report = run_orders(alloc, plan, clock, &mut link, core, out, served)?;
    Ok(Sent {
        report,
        has_sent: link.link().has_sent(),
    })
}

// Such a desk that stands by also ends no stream that never began. What it keeps back isn't counted as sent.
fn run_standby<R: Clock, S: Sockets + Drop, C: DeskClock + Drop, E: Write + Drop, O: Write>(
    alloc: Global,
    plan: Plan<'_>,
    clock: RigClock<'_, R>,
    link: Opening<DeskSender<S, C, E>>,
    core: &mut ConsoleCore,
    out: &mut O,
    served: Option<&ServedDesk>,
) -> Result<Sent, Ending> {
    let mut link = Standby::over(alloc, link)?;
    let report = run_orders(alloc, plan, clock, &mut link, core, out, served)?;
    Ok(Sent {
        report: ConsoleReport {
            sent: report.sent.saturating_sub(link.kept()),
            ..report
        },
        has_sent: link.link().link().has_sent(),
    })
}

// Runs a desk by this plan and standard input.
fn run_orders<R: Clock, L: DeskLink, O: Write>(
    alloc: Global,
    plan: Plan<'_>,
    mut clock: RigClock<'_, R>,
    link: &mut L,
    core: &mut ConsoleCore,
    out: &mut O,
    served: Option<&ServedDesk>,
) -> Result<ConsoleReport, Ending> {
    let mut orders = DeskOrders::new(alloc, plan, clock.twin(), out)?;
    let report = match served {
        Some(served) => {
            let mut paged = PagedOrders::new(&mut orders, served);
            run_desk(link, &mut clock, &mut paged, core, MAX_ROUNDS)
        }
        None => run_desk(link, &mut clock, &mut orders, core, MAX_ROUNDS),
    };
    if orders.write_failed() {
        return Err(Ending::DeviceWrite);
    }
    Ok(report)
}
