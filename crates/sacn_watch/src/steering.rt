//! What a crew chose to see on a screen, by keys.

ghost use Rattle.std.specs.Prelude.{◌≤◌, IfSome};
ghost use Rattle.sacn_watch.specs.declared.steering.TheConstants.{MAX_UNIVERSE};

use crate::keys::Key;
use crate::marks::Marks;
use sacn_monitor::Stream;
use std::alloc::AllocError;
use std::fmt::Write;

/// The highest universe (E1.31, 6.2.7).
const MAX_UNIVERSE: u32 = 63_999;

/// A number that is typed grows no further from here on.
const LONG_NUMBER: u32 = 100_000;

/// How levels are written.
#[derive(Clone, Copy, PartialEq, Eq)]
pub enum LevelForm {
    /// Two digits, 00 to ff.
    Hex,
    /// 0 to 255.
    Decimal,
    /// 0 to 100, the nearest.
    Percent,
}

/// What is said of the latest key.
#[derive(Clone, Copy)]
enum Said {
    Nothing,
    /// The number so far of a universe to go to.
    Number(u32),
    /// This is none of a universe.
    NoUniverse(u32),
    /// No key ends a gateway.
    NoWayOut,
}

/// What a crew chose to see on a screen.
#[derive(Drop)]
pub struct Steering {
    /// How levels are written.
    pub form: LevelForm,
    /// In place of each level the priority of the source that gives it is shown.
    pub has_priorities: bool,
    /// How many rows of sources stand above the first that is shown, where not all fit.
    pub sources_above: usize,
    /// The slots that changed since this was asked for.
    pub marks: Marks,
    said: Said,
}

impl Steering {
    /// As a screen begins: levels in hexadecimal digits, the sources from the first on.
    pub fn new() -> Self {
        Steering {
            form: LevelForm::Hex,
            has_priorities: false,
            sources_above: 0,
            marks: Marks::new(),
            said: Said::Nothing,
        }
    }

    /// A key is pressed, but for those that are answered by what was heard. Returns the universe that it goes to, where it does.
    pub fn press(&mut self, key: Key) -> Option<u16>
        ensures { IfSome result (λ universe. (1 ≤ universe) × (universe ≤ MAX_UNIVERSE)) }
    {
        let said = self.said;
        self.said = Said::Nothing;
        match key {
            Key::Up => self.sources_above = self.sources_above.saturating_sub(1),
            Key::Down => self.sources_above = self.sources_above.saturating_add(1),
            Key::Digit(digit) => self.said = with_digit(said, digit),
            Key::Backspace => self.said = without_digit(said),
            Key::Enter => return self.go(said),
            Key::Letter(letter) => self.choose_form(letter),
            _ => {}
        }
        None
    }

    /// A key that ends nothing was pressed to end it.
    pub fn refuse_end(&mut self) {
        self.said = Said::NoWayOut;
    }

    // Goes to the universe that was typed, where it is one.
    fn go(&mut self, said: Said) -> Option<u16>
        ensures { IfSome result (λ universe. (1 ≤ universe) × (universe ≤ MAX_UNIVERSE)) }
    {
        let Said::Number(number) = said else {
            return None;
        };
        if (1 <= number) & (number <= MAX_UNIVERSE) {
            return Some(number as u16);
        }
        self.said = Said::NoUniverse(number);
        None
    }

    // What stands at each slot, by a letter.
    fn choose_form(&mut self, letter: u8) {
        match letter {
            b'%' => self.show_levels(LevelForm::Percent),
            b'x' | b'X' => self.show_levels(LevelForm::Hex),
            b'd' | b'D' => self.show_levels(LevelForm::Decimal),
            b'p' | b'P' => self.has_priorities = !self.has_priorities,
            _ => {}
        }
    }

    fn show_levels(&mut self, form: LevelForm) {
        self.form = form;
        self.has_priorities = false;
    }

    /// What is said of the latest key, if anything is.
    ///
    /// Errors: a growth was refused.
    pub fn push_said(&self, text: &mut String) -> Result<(), AllocError> {
        match self.said {
            Said::Nothing => Ok(()),
            Said::Number(number) => {
                write!(
                    text,
                    "universe {number}_  Enter goes there, Escape takes it back"
                )
            }
            Said::NoUniverse(number) => { write!(text, "no universe {number}: 1 to 63999") }
            Said::NoWayOut => text.push_str("Ctrl-C ends the gateway, and its light; no key does"),
        }
    }
}

// A digit more.
fn with_digit(said: Said, digit: u8) -> Said {
    let number = match said {
        Said::Number(number) => number,
        _ => 0,
    };
    if number >= LONG_NUMBER {
        return Said::Number(number);
    }
    Said::Number(number * 10 + u32::from(digit))
}

// The last digit less.
fn without_digit(said: Said) -> Said {
    match said {
        Said::Number(number) if number >= 10 => Said::Number(number / 10),
        _ => Said::Nothing,
    }
}

/// The lowest universe that was heard above this one, else the lowest of all.
pub fn universe_after(streams: &[Stream], universe: u16) -> Option<u16> {
    let mut next: Option<u16> = None;
    let mut lowest: Option<u16> = None;
    for stream in streams {
        lowest = Some(lower(lowest, stream.universe));
        if stream.universe > universe {
            next = Some(lower(next, stream.universe));
        }
    }
    next.or(lowest)
}

/// The highest universe that was heard below this one, else the highest of all.
pub fn universe_before(streams: &[Stream], universe: u16) -> Option<u16> {
    let mut next: Option<u16> = None;
    let mut highest: Option<u16> = None;
    for stream in streams {
        highest = Some(higher(highest, stream.universe));
        if stream.universe < universe {
            next = Some(higher(next, stream.universe));
        }
    }
    next.or(highest)
}

fn lower(universe: Option<u16>, other: u16) -> u16 {
    match universe {
        Some(universe) => universe.min(other),
        None => other,
    }
}

fn higher(universe: Option<u16>, other: u16) -> u16 {
    match universe {
        Some(universe) => universe.max(other),
        None => other,
    }
}
