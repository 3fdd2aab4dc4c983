//! What was typed and is done once a round has sent what was due.
use super::DeskOrders;
use crate::show_lists::PatchPlace;
use crate::status::write_ranges;
use sacn_console::{Command, ConsoleCore, State, UniverseLine};
use sacn_edge::{Clock, ConsoleReport};
use sacn_machine::InputState;
use std::io::{self, Write};
use std::rt::Clock as MachineClock;

/// How long a list waits for its output to take what was written of it, in milliseconds.
const LIST_WAIT: u64 = 1000;

/// How often it is looked whether what a wish waits for has come, in milliseconds.
pub(super) const WISH_WAIT: i32 = 20;

/// What is done then.
#[derive(Clone, Copy)]
pub(super) enum Wish {
    Status,
    Back,
    /// The cue that was gone to is told.
    Gone,
    /// Every universe that runs is told to end.
    EndAll,
    /// Every universe that has ended is told to start.
    StartAll,
    /// The cues behind this one are listed.
    Cues(Option<u16>),
    /// The patch is listed from this place on.
    Patch(PatchPlace),
}

impl Wish {
    /// Whether it is a list, of which a part is written at once.
    pub(super) fn is_list(self) -> bool {
        matches!(self, Wish::Cues(_) | Wish::Patch(_))
    }
}

impl<'a, R: MachineClock, O: Write> DeskOrders<'a, R, O> {
    /// Does what was wished for, or some of it; what is left is returned.
    pub(super) fn done(
        &mut self,
        wish: Wish,
        core: &ConsoleCore,
        report: &ConsoleReport,
    ) -> Option<Wish> {
        match wish {
            Wish::Status => self.say_status(core, report),
            Wish::Back => self.go_back(core),
            Wish::Gone => self.say_gone(core),
            Wish::EndAll => self.end_all(core),
            Wish::StartAll => return self.start_all(core),
            Wish::Cues(behind) => {
                let listed = self.lists.write_cues(self.out, behind, core.cue());
                return self.listed(match listed {
                    Ok(Some(last)) => Ok(Some(Wish::Cues(Some(last)))),
                    Ok(None) => Ok(None),
                    Err(error) => Err(error),
                });
            }
            Wish::Patch(place) => {
                let listed = self.lists.write_patch(self.out, place);
                return self.listed(match listed {
                    Ok(Some(place)) => Ok(Some(Wish::Patch(place))),
                    Ok(None) => Ok(None),
                    Err(error) => Err(error),
                });
            }
        }
        None
    }

    fn go_back(&mut self, core: &ConsoleCore) {
        let before = match core.cue() {
            Some(cue) => self.lists.cue_before(cue),
            None => None,
        };
        match before {
            Some(cue) => self.command = Some(Command::GoTo(cue)),
            None => self.say(b"refused NoCue: no cue is before this one\n"),
        }
    }

    fn say_gone(&mut self, core: &ConsoleCore) {
        match core.cue() {
            Some(cue) => {
                let written = self.lists.write_gone(self.out, cue);
                self.note_write(written);
            }
            None => self.say(b"ok\n"),
        }
    }

    fn end_all(&mut self, core: &ConsoleCore) {
        self.told.end_all(core.lines());
        let written = write_told(self.out, self.told.universes(), "ends", "end");
        self.note_write(written);
    }

    // Universes that are still ending are waited for: their three last packets go out in a tenth of a second.
    fn start_all(&mut self, core: &ConsoleCore) -> Option<Wish> {
        self.is_waiting = !self.is_closing() && is_any_ending(core.lines());
        if self.is_waiting {
            return Some(Wish::StartAll);
        }
        if self.is_closing() {
            self.say(b"ok, but no universe starts: the desk ends\n");
            return None;
        }
        self.told.start_all(core.lines());
        let written = write_told(self.out, self.told.universes(), "starts", "start");
        self.note_write(written);
        None
    }

    /// What standard input has: what was seen while a list waited, first.
    pub(super) fn next_input(&mut self) -> InputState {
        match self.ahead.take() {
            Some(state) => state,
            None => self.input.next(),
        }
    }

    /// Whether a list waits for its output. An order that is typed or posted meanwhile is obeyed at once: the rest of the list is then written
    /// without waiting.
    pub(super) fn is_held(&mut self) -> bool {
        match (self.wish, self.outputs) {
            (Some(wish), Some(outputs)) if wish.is_list() && !self.is_closing() => {
                self.look_ahead();
                let is_due = self.clock.now() >= self.held_until || self.is_post_waiting();
                !is_due && outputs.pump_screen()
            }
            _ => false,
        }
    }

    fn look_ahead(&mut self) {
        if self.ahead.is_some() {
            return;
        }
        match self.input.next() {
            InputState::Nothing => {}
            InputState::End => self.ahead = Some(InputState::End),
            state => {
                self.ahead = Some(state);
                self.held_until = 0;
            }
        }
    }

    /// What is left of a list. It is held back again, but where something waits on standard input.
    fn listed(&mut self, rest: io::Result<Option<Wish>>) -> Option<Wish> {
        match rest {
            Ok(Some(rest)) => {
                if self.ahead.is_none() {
                    self.hold();
                }
                Some(rest)
            }
            Ok(None) => {
                self.say(b"ok\n");
                None
            }
            Err(error) => {
                self.note_write(Err(error));
                None
            }
        }
    }

    /// A list waits for its output from now on, for a while at most.
    pub(super) fn hold(&mut self) {
        self.held_until = self.clock.now().saturating_add(LIST_WAIT);
    }
}

fn is_any_ending(lines: &[UniverseLine]) -> bool {
    lines
        .iter()
        .any(|line| matches!(&line.state, State::Ending(_)))
}

/// Says which universes are told to end, or to start.
fn write_told<O: Write>(out: &mut O, universes: &[u16], one: &str, many: &str) -> io::Result<()> {
    match universes {
        [] => writeln!(out, "ok, but no universe {one}"),
        [universe] => writeln!(out, "ok universe {universe} {one}"),
        _ => {
            out.write_all(b"ok universes ")?;
            write_ranges(out, universes)?;
            writeln!(out, " {many}")
        }
    }
}
