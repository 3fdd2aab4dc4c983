//! The console's loop.
ghost use Rattle.std.specs.Prelude.{◌≡◌, ◌≤◌, ◌<◌, ◌+◌, ◌-◌, ◌^◌, ◌∷◌, [], List, ℕ, Bool, length, take, is_some, if◌then◌else◌};
ghost use Rattle.sacn_console.specs.Core.{at, due, after_poll};
ghost use Rattle.sacn_edge.specs.Additions.{Extends};
ghost use Rattle.sacn_edge.specs.Hearings.{Hands};
ghost use Rattle.sacn_edge.specs.ConsoleSends.{come, commanded, refusals, sent_at, handed_of, Handed, datagrams, console_sends, core_after, refused_by, in_order, sends_report, counted_send};

use crate::clock::Clock;
use crate::link::Link;
use crate::report::ConsoleReport;
use sacn_console::limits::MAX_DATAGRAM;
use sacn_console::{Command, ConsoleCore};

/// What a turn gave a console of its script.
#[derive(Clone, Copy)]
struct Given {
    lines: usize,
    refused: usize,
}

/// Gives the lines before the first whose moment is above the greatest reading.
fn order(core: &mut ConsoleCore, now: u64, greatest: u64, script: &[(u64, Command)]) -> Given
    ensures lines { result.lines ≡ length (come greatest script.now) }
    ensures within { result.lines ≤ length script.now }
    ensures refused { result.refused ≡ refusals now (come greatest script.now) core.old }
    ensures few { result.refused ≤ result.lines }
    ensures core { core.new ≡ commanded now (come greatest script.now) core.old }
{
    let mut given = Given {
        lines: 0,
        refused: 0,
    };
    for (moment, command) in script {
        if *moment > greatest {
            return given;
        }
        if core.command(now, *command).is_err() {
            given.refused += 1;
        }
        given.lines += 1;
    }
    given
}

/// Hands over the front of these octets.
fn hand<L: Link>(link: &mut L, octets: &[u8; MAX_DATAGRAM], len: usize) -> bool
    requires { len ≤ MAX_DATAGRAM }
    ensures { Hands (L.told link.old) (L.told link.new) ((take len octets.now, result) ∷ []) }
{
    link.send(&octets[..len])
}

/// Sends what is due, and returns whether the send succeeded; None where nothing is due.
fn send<L: Link>(
    link: &mut L,
    core: &mut ConsoleCore,
    now: u64,
    octets: &mut [u8; MAX_DATAGRAM],
) -> Option<bool>
    ensures due { is_some result ≡ is_some (due (at now core.old)) }
    ensures link { Hands (L.told link.old) (L.told link.new)
        (handed_of (sent_at now core.old) result) }
    ensures core { core.new ≡ after_poll now core.old }
{
    match core.poll(now, octets) {
        Some(len) => Some(hand(link, octets, len)),
        None => None,
    }
}

/// Counts what a send answered, if one was made.
pub fn count(report: &mut ConsoleReport, sent: Option<bool>)
    requires { report.old.sent + report.old.failed < 2 ^ 64 - 1 }
    ensures report { report.new ≡ counted_send sent report.old }
    ensures few { report.new.sent + report.new.failed ≤ report.old.sent + report.old.failed + 1 }
{
    match sent {
        Some(true) => report.sent += 1,
        Some(false) => report.failed += 1,
        None => {}
    }
}

/// Runs a console for so many turns. In each it reads the clock, gives the core the next lines of the script,
/// those before the first whose moment is above the greatest reading so far, as commands at that reading,
/// then polls the core once and hands the link what is due, once, whatever the link answered before.
///
/// The result counts the sends that succeeded, those that failed, and the commands that the core refused.
pub fn run_console<L: Link, C: Clock>(
    link: &mut L,
    clock: &mut C,
    core: &mut ConsoleCore,
    script: &[(u64, Command)],
    turns: u64,
) -> ConsoleReport
    // Each turn has one reading, and what is handed over is what is due in it.
    ensures { (readings : List ℕ) × (handed : Handed)
        × (length readings ≡ turns)
        × Extends (C.readings clock.old) (C.readings clock.new) (in_order readings)
        × Hands (L.told link.old) (L.told link.new) handed
        × (datagrams handed ≡ console_sends core.old script.now readings)
        × (core.new ≡ core_after core.old script.now readings)
        × (result ≡ sends_report handed (refused_by core.old script.now readings)) }
{
    let mut report = ConsoleReport {
        sent: 0,
        failed: 0,
        refused: 0,
    };
    let mut octets = [0; MAX_DATAGRAM];
    let mut greatest = 0;
    let mut next = 0;
    for turn in 0..turns {
        let now = clock.now();
        greatest = greatest.max(now);
        let given = order(core, now, greatest, &script[next..]);
        next += given.lines;
        report.refused += given.refused as u64;
        let sent = send(link, core, now, &mut octets);
        count(&mut report, sent);
    }
    report
}
