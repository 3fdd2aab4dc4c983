//! A law of the lines that wait for an output, over their definitions alone. It costs nothing when it runs.
ghost use Rattle.sacn_machine.specs.Rooms.{NothingIsCut};

/// Whatever comes, goes out and is told of the lines that wait for an output: what went out, and then what waits, is the lines that
/// found room, whole and in order. So a line goes out whole, or nothing of it does.
pub fn waiting_lines_are_whole()
    ensures { NothingIsCut }
{}
