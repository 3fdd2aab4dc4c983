//! What a desk tells of its show: its cues, and which slots show which channel.
use sacn_console::Show;
use sacn_cues::{MAX_CHANNELS, MAX_CUES};
use sacn_packets::SLOTS;
use std::alloc::{AllocError, Global};
use std::io::{self, Write};

/// Lines that are listed at once.
const LINES_AT_ONCE: usize = 64;

/// Where the list of the patch goes on.
#[derive(Clone, Copy)]
pub(crate) struct PatchPlace {
    /// The place of a universe in the show's list, from 0.
    universe: usize,
    /// Its slot, from 1.
    slot: u16,
}

impl PatchPlace {
    /// Where it begins.
    pub(crate) fn first() -> PatchPlace {
        PatchPlace {
            universe: 0,
            slot: 1,
        }
    }
}

/// A show, and which of its channels stand on a slot.
#[derive(Drop)]
pub(crate) struct ShowLists<'a> {
    show: &'a Show,
    is_patched: Vec<bool>,
}

impl<'a> ShowLists<'a> {
    pub(crate) fn of(alloc: Global, show: &'a Show) -> Result<ShowLists<'a>, AllocError> {
        let mut is_patched = vec![in alloc; false; MAX_CHANNELS as usize + 1]?;
        for universe in show.universes() {
            for slot in 1..SLOTS as u16 + 1 {
                if let Some(channel) = show.patch().channel_at(*universe, slot) {
                    if let Some(place) = is_patched.get_mut(channel as usize) {
                        *place = true;
                    }
                }
            }
        }
        Ok(ShowLists { show, is_patched })
    }

    /// Whether a slot of the show's universes shows the channel.
    pub(crate) fn is_patched(&self, channel: u16) -> bool {
        self.is_patched.get(channel as usize).copied() == Some(true)
    }

    /// The number of the cue that `go` goes to next, where there is one.
    pub(crate) fn cue_behind(&self, current: Option<u16>) -> Option<u16> {
        match self.show.cues().next_above(current) {
            Some((number, _)) => Some(number),
            None => None,
        }
    }

    /// The longer of the times of the cue with this number, in milliseconds; 0 where there is none.
    pub(crate) fn longer_time(&self, number: u16) -> u32 {
        match self.show.cues().next_above(number.checked_sub(1)) {
            Some((found, cue)) if found == number => cue.up.max(cue.down),
            _ => 0,
        }
    }

    /// The greatest number of a cue below this one, where there is one.
    pub(crate) fn cue_before(&self, current: u16) -> Option<u16> {
        let mut before = None;
        for _ in 0..MAX_CUES {
            match self.show.cues().next_above(before) {
                Some((number, _)) if number < current => before = Some(number),
                _ => return before,
            }
        }
        before
    }
}

/// A time in seconds.
fn write_seconds<O: Write>(out: &mut O, millis: u32) -> io::Result<()> {
    let (whole, rest) = (millis / 1000, millis % 1000);
    if rest == 0 {
        write!(out, "{whole} s")
    } else {
        let (tenths, hundredths, last) = (rest / 100, rest / 10 % 10, rest % 10);
        write!(out, "{whole}.{tenths}{hundredths}{last} s")
    }
}

/// A cue's number and its fades, as `cue 5 up 1.500 s down 0 s`.
fn write_fades<O: Write>(out: &mut O, number: u16, up: u32, down: u32) -> io::Result<()> {
    write!(out, "cue {number} up ")?;
    write_seconds(out, up)?;
    out.write_all(b" down ")?;
    write_seconds(out, down)
}

impl<'a> ShowLists<'a> {
    /// Writes the answer to an order that went to a cue: its number and its fades.
    pub(crate) fn write_gone<O: Write>(&self, out: &mut O, number: u16) -> io::Result<()> {
        out.write_all(b"ok ")?;
        match self.show.cues().next_above(number.checked_sub(1)) {
            Some((found, cue)) if found == number => {
                write_fades(out, number, cue.up, cue.down)?;
            }
            _ => write!(out, "cue {number}")?,
        }
        out.write_all(b"\n")
    }

    /// Writes the cues behind this one, some at once, and returns the last one that was written where there may be more.
    pub(crate) fn write_cues<O: Write>(
        &self,
        out: &mut O,
        behind: Option<u16>,
        current: Option<u16>,
    ) -> io::Result<Option<u16>> {
        let mut last = behind;
        for _ in 0..LINES_AT_ONCE {
            let Some((number, cue)) = self.show.cues().next_above(last) else {
                return Ok(None);
            };
            write_fades(out, number, cue.up, cue.down)?;
            write!(out, " channels {}", cue.levels.len())?;
            out.write_all(if current == Some(number) {
                b" current\n".as_slice()
            } else {
                b"\n".as_slice()
            })?;
            last = Some(number);
        }
        Ok(last)
    }

    /// Writes which channel each patched slot shows, a line for neighbours of one channel, some lines at once: those of one universe from a
    /// place on. Returns where the list goes on, and None at its end.
    pub(crate) fn write_patch<O: Write>(
        &self,
        out: &mut O,
        from: PatchPlace,
    ) -> io::Result<Option<PatchPlace>> {
        let PatchPlace {
            universe: place,
            slot: first,
        } = from;
        let Some(universe) = self.show.universes().get(place) else {
            return Ok(None);
        };
        let mut run: Option<Run> = None;
        let mut lines: usize = 0;
        for slot in first..SLOTS as u16 + 1 {
            let shown = self.show.patch().channel_at(*universe, slot);
            let longer = longer(run, shown, slot);
            if longer.is_none() && run.is_some() {
                write_run(out, *universe, run)?;
                lines = lines.saturating_add(1);
                if lines >= LINES_AT_ONCE {
                    return Ok(Some(PatchPlace {
                        universe: place,
                        slot,
                    }));
                }
            }
            run = longer.or(begun(shown, slot));
        }
        write_run(out, *universe, run)?;
        Ok(Some(PatchPlace {
            universe: place.saturating_add(1),
            slot: 1,
        }))
    }
}

/// Neighbouring slots that show one channel.
#[derive(Clone, Copy)]
struct Run {
    channel: u16,
    first: u16,
    last: u16,
}

/// The run with this slot behind it, where the slot shows its channel.
fn longer(run: Option<Run>, shown: Option<u16>, slot: u16) -> Option<Run> {
    match (run, shown) {
        (Some(run), Some(channel)) if run.channel == channel => Some(Run { last: slot, ..run }),
        _ => None,
    }
}

fn begun(shown: Option<u16>, slot: u16) -> Option<Run> {
    match shown {
        Some(channel) => Some(Run {
            channel,
            first: slot,
            last: slot,
        }),
        None => None,
    }
}

fn write_run<O: Write>(out: &mut O, universe: u16, run: Option<Run>) -> io::Result<()> {
    let Some(
        Run {
            channel,
            first,
            last,
        },
    ) = run
    else {
        return Ok(());
    };
    if first == last {
        writeln!(out, "channel {channel} universe {universe} slot {first}")
    } else {
        writeln!(
            out,
            "channel {channel} universe {universe} slots {first} thru {last}"
        )
    }
}
