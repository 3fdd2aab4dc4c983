//! The prompt of a desk that a terminal orders.
use crate::order_answer::rounded;
use crate::show_lists::ShowLists;
use sacn_console::{Command, ConsoleCore};
use sacn_cues::FULL;
use std::cell::RefCell;
use std::io::{self, Write};

/// Begins a terminal's line anew: CR, and EL, which clears it up to its end (ECMA-48, 8.3.41).
const CLEAR_LINE: &[u8] = b"\r\x1b[K";

/// On a terminal of fewer columns the prompt has the cue alone, so that an order has room behind it.
const WIDE: usize = 60;

/// What a prompt tells of a desk, without the time that is left of a fade.
#[derive(Clone, Copy, PartialEq, Eq)]
pub(crate) struct Standing {
    cue: Option<u16>,
    next: Option<u16>,
    master: u16,
    is_fading: bool,
}

impl Standing {
    /// What is so now, where fades run or not.
    pub(crate) fn of(core: &ConsoleCore, lists: &ShowLists<'_>, is_fading: bool) -> Standing {
        Standing {
            cue: core.cue(),
            next: lists.cue_behind(core.cue()),
            master: core.grand_master(),
            is_fading,
        }
    }
}

/// Until when fades run, by the cues that a desk's commands went to: a fade counts as running for the longer of its cue's two times.
#[derive(Clone, Copy)]
pub(crate) struct Fading {
    /// The command that is given, and the desk's reading.
    given: Option<(Command, u64)>,
    /// The cue that was gone to last.
    cue: Option<u16>,
    /// The moment from which none runs.
    end: u64,
}

impl Fading {
    /// No command was given yet.
    pub(crate) fn new() -> Fading {
        Fading {
            given: None,
            cue: None,
            end: 0,
        }
    }

    /// A command is given at a reading.
    pub(crate) fn give(&mut self, command: Command, now: u64) {
        self.given = Some((command, now));
    }

    /// It was taken.
    pub(crate) fn take(&mut self, lists: &ShowLists<'_>) {
        match self.given.take() {
            Some((Command::Go, at)) => self.go_to(lists.cue_behind(self.cue), at, lists),
            Some((Command::GoTo(number), at)) => {
                // (each channel that a cue names fades anew)
                self.end = 0;
                self.go_to(Some(number), at, lists);
            }
            _ => {}
        }
    }

    fn go_to(&mut self, cue: Option<u16>, at: u64, lists: &ShowLists<'_>) {
        let Some(number) = cue else {
            return;
        };
        self.cue = Some(number);
        let time = u64::from(lists.longer_time(number));
        self.end = self.end.max(at.saturating_add(time));
    }

    /// How many milliseconds are left at a reading of fades that run.
    pub(crate) fn left(&self, now: u64) -> u64 {
        self.end.saturating_sub(now)
    }
}

/// A desk's prompt, and whether it stands behind what was written last.
#[derive(Drop)]
pub struct Prompt {
    standing: RefCell<Option<Standing>>,
    is_wide: bool,
}

impl Prompt {
    /// A prompt that wasn't shown yet, on a terminal of so many columns.
    pub fn new(columns: usize) -> Prompt {
        Prompt {
            standing: RefCell::new(None),
            is_wide: columns >= WIDE,
        }
    }

    /// Whether it stands and tells this.
    pub(crate) fn tells(&self, told: Standing) -> bool {
        match self.standing.try_borrow() {
            Ok(standing) => *standing == Some(told),
            Err(_) => false,
        }
    }

    fn put(&self, shown: Option<Standing>) {
        if let Ok(mut standing) = self.standing.try_borrow_mut() {
            *standing = shown;
        }
    }

    /// It doesn't stand behind what was written last any more.
    pub(crate) fn forget(&self) {
        self.put(None);
    }

    /// Tells this, and that so many milliseconds are left of the fade that runs.
    pub(crate) fn show<O: Write>(&self, out: &mut O, standing: Standing, left: u64) {
        // (a prompt that isn't written is the next one's matter)
        let _ = write_prompt(out, standing, left, self.is_wide);
        let _ = out.flush();
        self.put(Some(standing));
    }
}

/// Writes the prompt, without LF.
fn write_prompt<O: Write>(
    out: &mut O,
    standing: Standing,
    left: u64,
    is_wide: bool,
) -> io::Result<()> {
    match standing.cue {
        Some(cue) => write!(out, "cue {cue}")?,
        None => out.write_all(b"no cue")?,
    }
    if is_wide {
        write_more(out, standing, left)?;
    }
    out.write_all(b"> ")
}

/// The next cue, what is left of a fade, in seconds with one decimal and rounded up, and a grand master below full.
fn write_more<O: Write>(out: &mut O, standing: Standing, left: u64) -> io::Result<()> {
    if let Some(next) = standing.next {
        write!(out, ", next {next}")?;
    }
    if standing.is_fading {
        let tenths = left.div_ceil(100);
        let (whole, rest) = (tenths / 10, tenths % 10);
        write!(out, ", {whole}.{rest} s left")?;
    }
    match standing.master {
        0 => out.write_all(b", blackout"),
        FULL => Ok(()),
        level => write_master(out, level),
    }
}

/// A grand master in percent, with one decimal where that isn't 0.
fn write_master<O: Write>(out: &mut O, level: u16) -> io::Result<()> {
    let hundredths = rounded(level);
    let (whole, tenths) = (hundredths / 100, hundredths / 10 % 10);
    if tenths == 0 {
        write!(out, ", master {whole} %")
    } else {
        write!(out, ", master {whole}.{tenths} %")
    }
}

/// An output on the terminal that has the prompt, where one has: each line then takes the place of the prompt.
#[derive(Drop)]
pub struct PromptWriter<'a, W> {
    out: W,
    prompt: Option<&'a Prompt>,
    begins_line: bool,
}

impl<'a, W: Write> PromptWriter<'a, W> {
    /// An output to which nothing was written. Without a prompt it hands on what it is given, and nothing else.
    pub fn new(out: W, prompt: Option<&'a Prompt>) -> PromptWriter<'a, W> {
        PromptWriter {
            out,
            prompt,
            begins_line: true,
        }
    }

    fn begin_line(&mut self) -> io::Result<()> {
        match self.prompt {
            Some(prompt) if self.begins_line => {
                prompt.forget();
                self.begins_line = false;
                self.out.write_all(CLEAR_LINE)
            }
            _ => Ok(()),
        }
    }
}

impl<'a, W: Write> Write for PromptWriter<'a, W> {
    fn write(&mut self, octets: &[u8]) -> io::Result<usize> {
        if octets.is_empty() {
            return Ok(0);
        }
        self.begin_line()?;
        let count = self.out.write(octets)?;
        self.begins_line = octets.get(count.saturating_sub(1)) == Some(&b'\n');
        Ok(count)
    }

    fn flush(&mut self) -> io::Result<()> {
        self.begins_line = true;
        self.out.flush()
    }
}
