//! A watch that browsers see.
use crate::judged::{Judged, judged_of};
use crate::watch::{Place, receiver_at, watch_end};
use sacn_commands::ending::Ending;
use sacn_commands::live::{joined_groups, of_socket, say_hearing};
use sacn_commands::paging::say_page;
use sacn_machine::{ClockFront, Lines, Outputs};
use sacn_page::Pages;
use sacn_watch::{RunningListener, run_watch};
use std::env::Env;
use std::io::Write;
use std::net::{Net, SocketAddrV4};
use std::rt::Clock;

/// Hears at a place until a moment in milliseconds, and serves a page of it. A viewer that names no universe is shown this
/// one, else the first heard.
pub fn serve<R: AllocGlobal + Env + Net + Clock, E: Write>(
    rt: &R,
    place: Place,
    page: SocketAddrV4,
    universe: Option<u16>,
    until: u64,
    err: &mut E,
) -> Result<(), Ending> {
    let judged = judged_of(rt.alloc(), universe)?;
    let mut pages = of_socket(Pages::bind(rt, rt.alloc(), page, judged), page, err)?;
    let outputs = Outputs::new(rt.alloc(), Lines::Plain)?;
    let outputs = (&outputs, joined_groups(rt));
    hear(rt, place, page, &mut pages, until, outputs, err)
}

// Hears for pages that have their place.
fn hear<'a, R: Net + Clock, E: Write>(
    rt: &'a R,
    place: Place,
    page: SocketAddrV4,
    pages: &mut Pages<Judged>,
    until: u64,
    (outputs, joined): (&'a Outputs, Option<String>),
    err: &mut E,
) -> Result<(), Ending> {
    let mut receiver = receiver_at(rt, place, err)?;
    receiver.tend(outputs, joined, ClockFront::new());
    receiver.wait_beside(pages.descriptor());
    say_hearing(place.address, receiver.room(), err);
    say_page(page, err);
    let mut listener = RunningListener::new(receiver);
    watch_end(run_watch(&mut listener, pages, until))
}
