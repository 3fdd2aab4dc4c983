//! Why a run ends before its work is done, and how it says so.
ghost use Rattle.std.specs.Prelude.{◌≡◌, ◌↔◌, IsOk, IfErr};
ghost use Rattle.sacn_commands.specs.Endings.{status_of};
ghost use Rattle.sacn_commands.specs.declared.ending.Ending.TheVariants.{OutOfMemory, Show, Setup, Line, DeviceWrite, DeviceSocket};

use clap::error::ErrorKind;
use hex::FromHexError;
use sacn_check::ReportFault;
use sacn_console::{ShowFault, TextFault};
use sacn_edge::{SocketFailed, WriteFailed};
use sacn_node::SetupFault;
use sacn_packets::PacketFault;
use sacn_sources::TableFault;
use sacn_text::{DecodeFault, ReadFault, SimFault};
use sacn_world::{WorldFault, WorldTextFault};
use std::alloc::{AllocError, AllocFailed, Global};
use std::io::{self, Write};

/// What was asked for is done.
pub const DONE: u8 = 0;

/// The words, or what they ask for, can't be.
pub const BAD_WORDS: u8 = 2;

/// Input is refused.
pub const REFUSED: u8 = 3;

/// A device failed.
pub const DEVICE_FAILED: u8 = 4;

/// Why a run ends before its work is done.
#[derive(Clone, Copy)]
pub enum Ending {
    OutOfMemory,
    TooLarge,
    /// Standard input isn't an even number of hexadecimal digits.
    Hex,
    /// A file that should be text isn't UTF-8.
    NotText,
    Packet(PacketFault),
    Show(ShowFault),
    Setup(SetupFault),
    /// A line of a script or of a schedule is wrong.
    Line(TextFault),
    World(WorldTextFault),
    /// The event of this number is refused.
    Event(usize, WorldFault),
    DeviceRead,
    DeviceWrite,
    DeviceSocket,
    /// It was said already; this is its status.
    Said(u8),
}

impl From<AllocError> for Ending {
    ghost from_gives = { λ _ ending. ending ≡ OutOfMemory };

    fn from(_error: AllocError) -> Ending {
        Ending::OutOfMemory
    }
}

impl<T: Drop> From<AllocFailed<T>> for Ending {
    ghost from_gives = { λ _ ending. ending ≡ OutOfMemory };

    fn from(_error: AllocFailed<T>) -> Ending {
        Ending::OutOfMemory
    }
}

impl From<ReadFault> for Ending {
    ghost use Rattle.sacn_commands.specs.Endings.{ending_of_read};

    ghost from_gives = { λ fault ending. ending ≡ ending_of_read fault };

    fn from(fault: ReadFault) -> Ending {
        match fault {
            ReadFault::OutOfMemory => Ending::OutOfMemory,
            ReadFault::Device => Ending::DeviceRead,
            ReadFault::TooLarge => Ending::TooLarge,
        }
    }
}

impl From<FromHexError> for Ending {
    ghost use Rattle.sacn_commands.specs.Endings.{ending_of_digits};

    ghost from_gives = { λ fault ending. ending ≡ ending_of_digits fault };

    fn from(error: FromHexError) -> Ending {
        match error {
            FromHexError::OutOfMemory => Ending::OutOfMemory,
            _ => Ending::Hex,
        }
    }
}

impl From<DecodeFault> for Ending {
    ghost use Rattle.sacn_commands.specs.Endings.{ending_of_decode};

    ghost from_gives = { λ fault ending. ending ≡ ending_of_decode fault };

    fn from(fault: DecodeFault) -> Ending {
        match fault {
            DecodeFault::OutOfMemory => Ending::OutOfMemory,
            DecodeFault::Refused(_, fault) => Ending::Packet(fault),
            DecodeFault::WriteFailed => Ending::DeviceWrite,
        }
    }
}

impl From<SimFault> for Ending {
    ghost use Rattle.sacn_commands.specs.Endings.{ending_of_simulation};

    ghost from_gives = { λ fault ending. ending ≡ ending_of_simulation fault };

    fn from(fault: SimFault) -> Ending {
        match fault {
            SimFault::OutOfMemory => Ending::OutOfMemory,
            SimFault::World(fault) => Ending::World(fault),
            SimFault::Schedule(fault) => Ending::Line(fault),
            SimFault::Event(step, fault) => Ending::Event(step, fault),
            SimFault::WriteFailed => Ending::DeviceWrite,
        }
    }
}

impl From<ShowFault> for Ending {
    ghost from_gives = { λ fault ending. ending ≡ Show fault };

    fn from(fault: ShowFault) -> Ending {
        Ending::Show(fault)
    }
}

impl From<SetupFault> for Ending {
    ghost from_gives = { λ fault ending. ending ≡ Setup fault };

    fn from(fault: SetupFault) -> Ending {
        Ending::Setup(fault)
    }
}

impl From<TextFault> for Ending {
    ghost from_gives = { λ fault ending. ending ≡ Line fault };

    fn from(fault: TextFault) -> Ending {
        Ending::Line(fault)
    }
}

impl From<TableFault> for Ending {
    ghost from_gives = { λ _ ending. ending ≡ OutOfMemory };

    fn from(_fault: TableFault) -> Ending {
        Ending::OutOfMemory
    }
}

impl From<SocketFailed> for Ending {
    ghost from_gives = { λ _ ending. ending ≡ DeviceSocket };

    fn from(_fault: SocketFailed) -> Ending {
        Ending::DeviceSocket
    }
}

impl From<WriteFailed> for Ending {
    ghost from_gives = { λ _ ending. ending ≡ DeviceWrite };

    fn from(_fault: WriteFailed) -> Ending {
        Ending::DeviceWrite
    }
}

impl From<ReportFault> for Ending {
    ghost use Rattle.sacn_commands.specs.Endings.{ending_of_report};

    ghost from_gives = { λ fault ending. ending ≡ ending_of_report fault };

    fn from(fault: ReportFault) -> Ending {
        match fault {
            ReportFault::OutOfMemory => Ending::OutOfMemory,
            ReportFault::WriteFailed => Ending::DeviceWrite,
        }
    }
}

/// What came of a write, where a failure ends the run.
pub fn of_write(outcome: io::Result<()>) -> Result<(), Ending>
    ensures done { IsOk result ↔ IsOk outcome }
    ensures failed { IfErr result (λ ending. ending ≡ DeviceWrite) }
{
    match outcome {
        Ok(()) => Ok(()),
        Err(_) => Err(Ending::DeviceWrite),
    }
}

/// Says how a run ended, and returns its status.
pub fn tell_ending<E: Write>(ending: Ending, err: &mut E) -> u8
    ensures { result ≡ status_of ending }
{
    match ending {
        Ending::OutOfMemory => tell_refusal(err, "OutOfMemory"),
        Ending::TooLarge => tell_refusal(err, "TooLarge"),
        Ending::Hex => tell_refusal(err, "Hex"),
        Ending::NotText => tell_refusal(err, "NotText"),
        Ending::Packet(fault) => {
            let _ = writeln!(err, "refused {fault:?}");
            REFUSED
        }
        Ending::Show(fault) => {
            let _ = writeln!(err, "refused {fault:?}");
            REFUSED
        }
        Ending::Setup(fault) => {
            let _ = writeln!(err, "refused {fault:?}");
            REFUSED
        }
        Ending::Line(fault) => tell_line_fault(err, fault),
        Ending::World(fault) => tell_world_fault(err, fault),
        Ending::Event(step, fault) => {
            let _ = writeln!(err, "refused step {step} {fault:?}");
            REFUSED
        }
        Ending::DeviceRead => tell_failure(err, "read"),
        Ending::DeviceWrite => tell_failure(err, "write"),
        Ending::DeviceSocket => tell_failure(err, "socket"),
        Ending::Said(status) => status,
    }
}

/// Explains bad words on standard error, or prints help to standard output, and returns the status.
pub fn tell_words<O: Write, E: Write>(
    alloc: Global,
    error: clap::Error,
    out: &mut O,
    err: &mut E,
) -> u8 {
    if error.kind() == ErrorKind::OutOfMemory {
        return tell_refusal(err, "OutOfMemory");
    }
    let Ok(text) = format!(in alloc; "{error}") else {
        return tell_refusal(err, "OutOfMemory");
    };
    if error.use_stderr() {
        let _ = err.write_all(text.as_bytes());
        return BAD_WORDS;
    }
    if out.write_all(text.as_bytes()).is_err() || out.flush().is_err() {
        return tell_failure(err, "write");
    }
    DONE
}

fn tell_refusal<E: Write>(err: &mut E, cause: &str) -> u8
    ensures { result ≡ 3 }
{
    let _ = writeln!(err, "refused {cause}");
    REFUSED
}

fn tell_line_fault<E: Write>(err: &mut E, fault: TextFault) -> u8
    ensures { result ≡ 3 }
{
    let (line, name) = match fault {
        TextFault::OutOfMemory => return tell_refusal(err, "OutOfMemory"),
        TextFault::UnknownWord(line) => (line, "UnknownWord"),
        TextFault::WordCount(line) => (line, "WordCount"),
        TextFault::Number(line) => (line, "Number"),
        TextFault::Hex(line) => (line, "Hex"),
    };
    let _ = writeln!(err, "refused line {line} {name}");
    REFUSED
}

// A world's own fault, or that of one of its consoles or nodes.
fn tell_world_fault<E: Write>(err: &mut E, fault: WorldTextFault) -> u8
    ensures { result ≡ 3 }
{
    let _ = match fault {
        WorldTextFault::Console(index, fault) => {
            writeln!(err, "refused Console {index} {fault:?}")
        }
        WorldTextFault::Node(index, fault) => writeln!(err, "refused Node {index} {fault:?}"),
        own => writeln!(err, "refused {own:?}"),
    };
    REFUSED
}

fn tell_failure<E: Write>(err: &mut E, what: &str) -> u8
    ensures { result ≡ 4 }
{
    let _ = writeln!(err, "device {what}");
    DEVICE_FAILED
}

/// The status where the words themselves can't be had: one of them is no text, or no memory is left.
pub fn wordless<E: Write>(kind: io::ErrorKind, err: &mut E) -> u8 {
    if kind == io::ErrorKind::OutOfMemory {
        return tell_refusal(err, "OutOfMemory");
    }
    let _ = err.write_all(b"error: a word of the command line is no text\n");
    BAD_WORDS
}
