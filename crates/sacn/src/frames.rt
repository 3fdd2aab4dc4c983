//! The frames that a gateway prints.
use crate::screen::columns;
use crate::timed::TimedOutputs;
use sacn_commands::ending::Ending;
use sacn_commands::gateway::run_setups;
use sacn_gateway::{Notes, SlotNotes};
use sacn_machine::{Lines, UdpReceiver, output_is_terminal};
use sacn_node::NodeSetup;
use sacn_words::{FrameForm, GatewayAsked};
use std::env::Env;
use std::io::{self, Write};
use std::net::Net;
use std::rt::Clock;

/// Frames that aren't printed as digits: they are told otherwise, or not at all.
#[derive(Drop)]
pub struct Unprinted;

impl Write for Unprinted {
    fn write(&mut self, octets: &[u8]) -> io::Result<usize> {
        Ok(octets.len())
    }

    fn flush(&mut self) -> io::Result<()> {
        Ok(())
    }
}

// How frames are printed: as is asked, or else for people in a terminal and for programs elsewhere.
fn form_of(asked: &GatewayAsked<'_>) -> FrameForm {
    match asked.frames {
        Some(form) => form,
        None if output_is_terminal() => FrameForm::Slots,
        None => FrameForm::Digits,
    }
}

/// What the lines of standard output are.
pub fn lines_of(asked: &GatewayAsked<'_>) -> Lines {
    match form_of(asked) {
        FrameForm::Digits => Lines::Frames,
        FrameForm::Slots | FrameForm::Nothing => Lines::Plain,
    }
}

/// Runs a gateway that prints its frames on standard output in the form that is asked.
pub fn run_printing<'a, R: AllocGlobal + Env + Net + Clock, N: Notes>(
    rt: &'a R,
    asked: &GatewayAsked<'_>,
    setups: &[NodeSetup],
    receiver: &mut UdpReceiver<'a, R>,
    notes: &mut N,
    outputs: &TimedOutputs<'a, R>,
) -> Result<(), Ending> {
    match form_of(asked) {
        FrameForm::Digits => run_setups(rt, asked, setups, receiver, notes, outputs.out()),
        FrameForm::Slots => {
            let width = outputs.width_in(columns(rt));
            let mut slots = SlotNotes::new(notes, width, outputs.out(), outputs.err());
            run_setups(rt, asked, setups, receiver, &mut slots, Unprinted)
        }
        FrameForm::Nothing => run_setups(rt, asked, setups, receiver, notes, Unprinted),
    }
}
