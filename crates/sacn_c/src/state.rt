//! What C is told of a universe of a console or a source.
ghost use Rattle.std.specs.Prelude.{◌≡◌};
ghost use Rattle.sacn_c.specs.Sending.{state_number, line_told};

use sacn_console::{State, UniverseLine};

/// A universe of a console or a source, in numbers. `sacn.h` says what each field means.
#[repr(C)]
#[derive(Clone, Copy)]
pub struct LineFields {
    pub latest: u64,
    pub universe: u16,
    pub state: u8,
    pub number: u8,
    pub unused: [u8; 4],
}

fn state_number(state: &State) -> u8
    ensures { result ≡ state_number state.now }
{
    match state {
        State::Running(_) => 1,
        State::Ending(_) => 2,
        State::Stopped => 3,
    }
}

/// What C is told of a universe.
pub(crate) fn line_told(line: &UniverseLine) -> LineFields
    ensures { result ≡ line_told line.now }
{
    LineFields {
        latest: line.last.unwrap_or(u64::MAX),
        universe: line.universe,
        state: state_number(&line.state),
        number: line.sequence_number,
        unused: [0; 4],
    }
}
