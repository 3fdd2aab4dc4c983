//! What a shell offers for a value.
use crate::manual::tree::Argument;

/// What help calls the values that are files.
const FILES: [&str; 7] = [
    "CAPTURE", "FILE", "SCHEDULE", "SCRIPT", "SETUP", "SHOW", "WORLD",
];

/// What help calls a network device.
const DEVICE: &str = "DEV";

/// What a shell offers for a value.
#[derive(Clone, Copy)]
pub enum Action<'a> {
    Nothing,
    Files,
    /// The machine's network devices.
    Devices,
    /// These words, with a comma and a space between them.
    Words(&'a str),
}

/// What is offered for the value of an argument.
pub fn action_of<'a>(argument: &Argument<'a>) -> Action<'a> {
    if !argument.choices.is_empty() {
        return Action::Words(argument.choices);
    }
    match argument.value {
        Some(value) if value == DEVICE => Action::Devices,
        Some(value) if FILES.iter().any(|name| *name == value) => Action::Files,
        _ => Action::Nothing,
    }
}
