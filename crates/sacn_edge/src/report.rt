//! What the loops count.
ghost use Rattle.std.specs.Prelude.{◌≡◌, OnOk};
ghost use Rattle.std.specs.Io.KnownBytes.{Appends};
ghost use Rattle.sacn_edge.specs.Reports.{report_text};

use crate::line::add_part;
use arrayvec::ArrayVec;
use itoa::Buffer;
use std::io::{self, Write};

/// What a node's run counts.
#[derive(Clone, Copy, PartialEq, Eq)]
pub struct NodeReport {
    /// The datagrams that were received.
    pub received: u64,
    /// The receives that failed.
    pub failed: u64,
}

/// What a console's run counts.
#[derive(Clone, Copy)]
pub struct ConsoleReport {
    /// The sends that succeeded.
    pub sent: u64,
    /// The sends that failed.
    pub failed: u64,
    /// The commands that the core refused.
    pub refused: u64,
}

/// The octets of the longest line of a report: three words, three numbers, the spaces between, and LF.
const REPORT_OCTETS: usize = 4 + 6 + 7 + 3 * 20 + 5 + 1;

/// The line of a report, as `sent 3 failed 1 refused 0`.
#[tactic(auto, unfolding(crate::specs::Reports::report_text))]
fn report_line(report: &ConsoleReport) -> ArrayVec<u8, REPORT_OCTETS>
    ensures { result.items ≡ report_text report.now }
{
    let mut line = ArrayVec::new();
    add_part(&mut line, b"sent ");
    add_part(&mut line, Buffer::new().format(report.sent).as_bytes());
    add_part(&mut line, b" failed ");
    add_part(&mut line, Buffer::new().format(report.failed).as_bytes());
    add_part(&mut line, b" refused ");
    add_part(&mut line, Buffer::new().format(report.refused).as_bytes());
    add_part(&mut line, b"\n");
    line
}

/// Prints the line of a report, as `sent 3 failed 1 refused 0`: the writer then has it, after what it had.
pub fn print_report<W: Write>(writer: &mut W, report: &ConsoleReport) -> io::Result<()>
    ensures { OnOk result
        (Appends (W.contents writer.old) (W.contents writer.new) (report_text report.now)) }
{
    let line = report_line(report);
    writer.write_all(line.as_slice())?;
    writer.flush()
}
