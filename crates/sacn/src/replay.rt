//! A recording played.
use crate::explain::{say_capture_fault, say_unread};
use sacn_clock::{LocalZone, clock_text};
use sacn_commands::ending::{BAD_WORDS, Ending, REFUSED};
use sacn_commands::hosts::{named_hosts, refuse_group};
use sacn_commands::live::{clock_of, say_socket_fault, show_of_file, tell_unsent};
use sacn_console::{Sender, Show};
use sacn_desk::{DeskSender, DeskSockets, Destination, Destinations, Opening, Origin};
use sacn_files::limits::DEFAULT_UDP_PORT;
use sacn_machine::{Lines, Outlet, Outputs, RigClock, guard_standard_descriptors};
use sacn_packets::source_name;
use sacn_played_run::run_as_source;
use sacn_played_source::PlayedSource;
use sacn_player::{
    CountedLink, FileTape, PlayedAs, PlayedLink, SourceTotals, TapeChoice, TypedOrders, day_millis,
    millis_in, write_source_totals, write_start, write_totals,
};
use sacn_replay::{Mapping, ReplayCounts, ReplayPlan, Speed, UniverseMap, run_replay, speed_of};
use sacn_source::SourceFault;
use sacn_tell::{push_name, push_short_cid};
use sacn_words::ReplayAsked;
use std::env::Env;
use std::fs::{self, OpenFile};
use std::io::Write;
use std::net::{Ipv4Addr, Net, SocketAddrV4};
use std::rt::{Clock, Files};

/// The most rounds of a playback: more than come in any life.
const MAX_ROUNDS: u64 = u64::MAX;

/// The number of a source's first packet on each universe, as a desk's.
const FIRST: u8 = 0;

/// So many datagrams of a recording find room at once in what the machine still has to send.
const BURST: u16 = 1024;

/// Plays a recording. No output that isn't read holds it up.
pub fn replay<R: AllocGlobal + Files + Env + Net + Clock>(
    rt: &R,
    asked: &ReplayAsked<'_>,
) -> Result<(), Ending> {
    guard_standard_descriptors();
    let mut clock = clock_of(rt)?;
    let outputs = Outputs::new(rt.alloc(), Lines::Plain)?;
    let run = replay_on(rt, asked, &outputs);
    outputs.finish(&mut clock);
    run
}

// What is asked, once its words and files were read.
#[derive(Drop)]
struct Playing<'a> {
    asked: &'a ReplayAsked<'a>,
    plan: ReplayPlan,
    // The show as whose source it is played.
    show: Option<Show>,
}

fn replay_on<R: AllocGlobal + Files + Env + Net + Clock>(
    rt: &R,
    asked: &ReplayAsked<'_>,
    outputs: &Outputs,
) -> Result<(), Ending> {
    let plan = plan_of(asked, &mut outputs.err())?;
    let universes = map_of(asked, &mut outputs.err())?;
    let destinations = destinations_of(rt, asked, &mut outputs.err())?;
    let playing = Playing {
        asked,
        plan,
        show: show_asked(rt, asked, &mut outputs.err())?,
    };
    let Ok(file) = fs::open(rt, asked.capture) else {
        return Err(say_unread(asked.capture, &mut outputs.err()));
    };
    let choice = choice_of(rt, &playing, universes)?;
    match FileTape::<R>::open(rt.alloc(), file, choice) {
        Ok(mut tape) => play(rt, &playing, destinations, &mut tape, outputs),
        Err(fault) => Err(say_capture_fault(asked.capture, fault, &mut outputs.err())),
    }
}

fn show_asked<R: AllocGlobal + Files, E: Write>(
    rt: &R,
    asked: &ReplayAsked<'_>,
    err: &mut E,
) -> Result<Option<Show>, Ending> {
    match asked.show {
        Some(path) => Ok(Some(show_of_file(rt, path, err)?)),
        None => Ok(None),
    }
}

// Which datagrams are played: all, or those of a show's universes.
fn choice_of<R: AllocGlobal>(
    rt: &R,
    playing: &Playing<'_>,
    universes: UniverseMap,
) -> Result<TapeChoice, Ending> {
    let only = match &playing.show {
        Some(show) => Some(show.universes().to_vec(rt.alloc())?),
        None => None,
    };
    Ok(TapeChoice {
        port: playing.asked.port,
        universes,
        only,
    })
}

// Plays a recording that is open, and says what came of it.
fn play<R: AllocGlobal + Files + Env + Net + Clock>(
    rt: &R,
    playing: &Playing<'_>,
    destinations: Destinations,
    tape: &mut FileTape<R>,
    outputs: &Outputs,
) -> Result<(), Ending> {
    let has_datagram = tape.has_datagram();
    if has_datagram {
        let first = first_of_day(rt, tape.first())?;
        send(rt, playing, destinations, (tape, first), outputs)?;
    }
    let capture = playing.asked.capture;
    match tape.fault() {
        Some(fault) => Err(say_capture_fault(capture, fault, &mut outputs.err())),
        None if !has_datagram => Err(say_nothing(playing.asked, &mut outputs.err())),
        None => Ok(()),
    }
}

// Says that a recording has nothing that is played.
fn say_nothing<E: Write>(asked: &ReplayAsked<'_>, err: &mut E) -> Ending {
    let (capture, port) = (asked.capture, asked.port);
    let _ = match asked.show {
        Some(show) => writeln!(
            err,
            "{capture}: it has no data packet to UDP port {port} of a universe of {show}; --universe and --port name others"
        ),
        None => writeln!(
            err,
            "{capture}: it has no datagram to UDP port {port}; --port names another one"
        ),
    };
    Ending::Said(REFUSED)
}

// Says what is played, where it goes, and as whom.
fn say_start<R: AllocGlobal>(
    rt: &R,
    playing: &Playing<'_>,
    destinations: &Destinations,
    outputs: &Outputs,
) -> Result<(), Ending> {
    let mut err = outputs.err();
    let (capture, speed) = (playing.asked.capture, playing.plan.speed);
    let Some(show) = &playing.show else {
        let _ = write_start(&mut err, capture, None, destinations, speed);
        return Ok(());
    };
    let mut name = String::new(rt.alloc());
    push_name(&mut name, show.name().as_bytes())?;
    name.push(' ')?;
    push_short_cid(&mut name, &show.cid())?;
    let source = PlayedAs {
        name: name.as_str(),
        priority: show.priority(),
        universes: show.universes(),
    };
    let _ = write_start(&mut err, capture, Some(&source), destinations, speed);
    Ok(())
}

// Sends what is played, from sockets of its own.
fn send<R: AllocGlobal + Files + Net + Clock>(
    rt: &R,
    playing: &Playing<'_>,
    destinations: Destinations,
    (tape, first): (&mut FileTape<R>, Option<u64>),
    outputs: &Outputs,
) -> Result<(), Ending> {
    let clock = clock_of(rt)?;
    let asked = playing.asked;
    say_start(rt, playing, &destinations, outputs)?;
    let origin = Origin {
        address: asked.bind,
        ttl: asked.ttl,
        universes: BURST,
    };
    let err = outputs.err();
    match DeskSender::bind(rt, rt.alloc(), origin, destinations, clock.twin(), err) {
        Ok(sender) => match &playing.show {
            Some(show) => send_as(
                rt,
                &playing.plan,
                show,
                sender,
                clock,
                (tape, first),
                outputs,
            ),
            None => send_by(rt, &playing.plan, sender, clock, (tape, first), outputs),
        },
        Err(kind) => {
            let from = SocketAddrV4::new(asked.bind, 0);
            Err(say_socket_fault(from, kind, &mut outputs.err()))
        }
    }
}

// Sends by this sender, and says how much that was.
fn send_by<'a, R: AllocGlobal + Files + Net + Clock>(
    rt: &'a R,
    plan: &ReplayPlan,
    sender: DeskSender<DeskSockets, RigClock<'a, R>, Outlet<'a>>,
    mut clock: RigClock<'a, R>,
    (tape, first): (&mut FileTape<R>, Option<u64>),
    outputs: &'a Outputs,
) -> Result<(), Ending> {
    let mut link = PlayedLink::over(sender);
    let mut orders = TypedOrders::new(rt.alloc(), clock.twin(), first, outputs.out());
    let counts = run_replay(tape, &mut link, &mut clock, &mut orders, plan, MAX_ROUNDS);
    if orders.write_failed() {
        return Err(Ending::DeviceWrite);
    }
    tell(&counts, link.has_sent(), link.failed(), outputs)
}

// A source that sends as a show says, of which no packet was sent.
fn source_of<R: AllocGlobal>(rt: &R, show: &Show) -> Result<PlayedSource, Ending> {
    let sender = Sender {
        cid: show.cid(),
        name: source_name(show.name()).unwrap_or([0; 64]),
        priority: show.priority(),
    };
    PlayedSource::new(rt.alloc(), &sender, show.universes(), FIRST).map_err(no_memory)
}

// A show's universes are each there once and in range, so only memory may be refused.
fn no_memory(_fault: SourceFault) -> Ending {
    Ending::OutOfMemory
}

// Sends as the source of a show, and says how much that was.
fn send_as<'a, R: AllocGlobal + Files + Net + Clock>(
    rt: &'a R,
    plan: &ReplayPlan,
    show: &Show,
    sender: DeskSender<DeskSockets, RigClock<'a, R>, Outlet<'a>>,
    mut clock: RigClock<'a, R>,
    (tape, first): (&mut FileTape<R>, Option<u64>),
    outputs: &'a Outputs,
) -> Result<(), Ending> {
    let alloc = rt.alloc();
    let mut source = source_of(rt, show)?;
    let mut link = CountedLink::over(Opening::over(alloc, sender)?);
    let mut orders = TypedOrders::new(alloc, clock.twin(), first, outputs.out()).as_source();
    let played = run_as_source(
        alloc,
        tape,
        &mut link,
        &mut clock,
        &mut orders,
        plan,
        &mut source,
        MAX_ROUNDS,
    );
    if orders.write_failed() {
        return Err(Ending::DeviceWrite);
    }
    let totals = SourceTotals {
        counts: played.map_err(no_memory)?,
        others: tape.others(),
        sent: link.sent(),
        failed: link.failed(),
    };
    let mut err = outputs.err();
    let _ = write_source_totals(&mut err, &totals);
    tell_unsent(link.link().link().has_sent(), totals.failed, &mut err)
}

fn tell(
    counts: &ReplayCounts,
    has_sent: bool,
    failed: u64,
    outputs: &Outputs,
) -> Result<(), Ending> {
    let mut err = outputs.err();
    let _ = write_totals(&mut err, counts, failed);
    tell_unsent(has_sent, failed, &mut err)
}

// The time of day of a recording's first datagram, in milliseconds since midnight, by the zone that TZ says, or else the machine's.
fn first_of_day<R: AllocGlobal + Env + Files>(
    rt: &R,
    first: Option<u64>,
) -> Result<Option<u64>, Ending> {
    let zone = LocalZone::read(rt)?;
    let text = clock_text(first, &zone.zone());
    Ok(day_millis(text.as_str().trim_end()))
}

// What is played, and how.
fn plan_of<E: Write>(asked: &ReplayAsked<'_>, err: &mut E) -> Result<ReplayPlan, Ending> {
    let from = moment_of("from", asked.from, err)?.unwrap_or(0);
    let until = moment_of("until", asked.until, err)?;
    if let Some(until) = until {
        if until < from {
            return Err(refused(err, "until", "it lies before --from"));
        }
    }
    Ok(ReplayPlan {
        from,
        until,
        speed: speed_asked(asked.speed, err)?,
        is_loop: asked.is_loop,
    })
}

// Says why the word of an option is refused.
fn refused<E: Write>(err: &mut E, option: &str, why: &str) -> Ending {
    let _ = writeln!(err, "error: --{option}: {why}");
    Ending::Said(BAD_WORDS)
}

fn moment_of<E: Write>(
    option: &str,
    word: Option<&str>,
    err: &mut E,
) -> Result<Option<u64>, Ending> {
    let Some(word) = word else {
        return Ok(None);
    };
    match millis_in(word) {
        Some(millis) => Ok(Some(millis)),
        None => Err(refused(
            err,
            option,
            "it is seconds behind the first datagram, as 90 or 12.5",
        )),
    }
}

fn speed_asked<E: Write>(word: Option<&str>, err: &mut E) -> Result<Speed, Ending> {
    match speed_of(word.unwrap_or("1")) {
        Ok(speed) => Ok(speed),
        Err(fault) => {
            let _ = writeln!(err, "error: --speed: {fault}");
            Err(Ending::Said(BAD_WORDS))
        }
    }
}

// The numbers under which universes go out.
fn map_of<E: Write>(asked: &ReplayAsked<'_>, err: &mut E) -> Result<UniverseMap, Ending> {
    let mut map = UniverseMap::new();
    for &(from, to) in asked.universes.as_slice() {
        if let Err(fault) = map.add(Mapping { from, to }) {
            let _ = writeln!(err, "error: --universe {from}={to}: {fault}");
            return Err(Ending::Said(BAD_WORDS));
        }
    }
    Ok(map)
}

// Where it is sent: to the hosts that are named, else to this machine unless groups are sent to.
fn destinations_of<R: AllocGlobal, E: Write>(
    rt: &R,
    asked: &ReplayAsked<'_>,
    err: &mut E,
) -> Result<Destinations, Ending> {
    let mut hosts = named_hosts(rt, asked.to.as_slice())?;
    if asked.is_multicast {
        for host in hosts.as_slice() {
            refuse_group(host, err)?;
        }
    } else if hosts.is_empty() {
        hosts.push(Destination {
            address: SocketAddrV4::new(Ipv4Addr::LOCALHOST, DEFAULT_UDP_PORT),
            universes: Vec::new(rt.alloc()),
        })?;
    }
    Ok(Destinations {
        hosts,
        is_multicast: asked.is_multicast,
    })
}
