//! Faults of files, said with the name of the file.
use crate::ending::{DEVICE_FAILED, Ending, REFUSED, tell_ending};
use sacn_console::{ShowFault, TextFault};
use sacn_node::SetupFault;
use sacn_world::WorldTextFault;
use std::io::Write;

/// Says the fault of a file with its name, and returns how the run ends.
pub(crate) fn say_file_fault<E: Write>(path: &str, ending: Ending, err: &mut E) -> Ending {
    let (line, status) = match ending {
        Ending::DeviceRead => (writeln!(err, "device read {path}"), DEVICE_FAILED),
        Ending::TooLarge => (writeln!(err, "refused {path} TooLarge"), REFUSED),
        Ending::NotText => (writeln!(err, "refused {path} NotText"), REFUSED),
        Ending::Show(fault) => (writeln!(err, "refused {path} {fault:?}"), REFUSED),
        Ending::Setup(fault) => (writeln!(err, "refused {path} {fault:?}"), REFUSED),
        Ending::Line(fault) => (say_line_fault(path, fault, err), REFUSED),
        other => return other,
    };
    let _ = line;
    Ending::Said(status)
}

fn say_line_fault<E: Write>(path: &str, fault: TextFault, err: &mut E) -> std::io::Result<()> {
    match fault {
        TextFault::OutOfMemory => writeln!(err, "refused {path} OutOfMemory"),
        TextFault::UnknownWord(line) => writeln!(err, "refused {path} line {line} UnknownWord"),
        TextFault::WordCount(line) => writeln!(err, "refused {path} line {line} WordCount"),
        TextFault::Number(line) => writeln!(err, "refused {path} line {line} Number"),
        TextFault::Hex(line) => writeln!(err, "refused {path} line {line} Hex"),
    }
}

/// What was read from a file, whose fault is said with its name.
pub fn of_file<T, E: Write>(read: Result<T, Ending>, path: &str, err: &mut E) -> Result<T, Ending> {
    match read {
        Ok(value) => Ok(value),
        Err(ending) => Err(say_file_fault(path, ending, err)),
    }
}

// Whether an ending is of what stands in a file, or of reading it: not where memory ran out, nor of what comes behind the file.
fn is_of_file(ending: Ending) -> bool {
    match ending {
        Ending::OutOfMemory
        | Ending::Show(ShowFault::OutOfMemory)
        | Ending::Setup(SetupFault::OutOfMemory)
        | Ending::Line(TextFault::OutOfMemory)
        | Ending::World(WorldTextFault::OutOfMemory)
        | Ending::DeviceWrite
        | Ending::DeviceSocket
        | Ending::Said(_) => false,
        _ => true,
    }
}

/// What came of a file where the line that refuses it is promised without its name: that is on a line behind it, as
/// `sacn: FILE: refused Version`.
pub fn of_named<T, E: Write>(
    outcome: Result<T, Ending>,
    path: &str,
    err: &mut E,
) -> Result<T, Ending> {
    match outcome {
        Err(ending) if is_of_file(ending) => {
            let status = tell_ending(ending, err);
            let _ = write!(err, "sacn: {path}: ");
            tell_ending(ending, err);
            Err(Ending::Said(status))
        }
        outcome => outcome,
    }
}
