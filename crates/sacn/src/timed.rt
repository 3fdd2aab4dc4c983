//! Outputs whose lines have the time of day in front, where that is asked.
use sacn_clock::{
    Afterwards, CLOCK_LETTERS, LocalZone, Moments, Present, Stamped, Timing, WallClock, clock_text,
};
use sacn_machine::{ClockFront, Outlet, Outputs};
use std::alloc::AllocError;
use std::cell::Cell;
use std::env::Env;
use std::io::{Result, Write};
use std::rt::{Clock, Files};

/// The zone of the times of day; UTC where none is put anywhere.
///
/// Errors: OutOfMemory.
pub fn zone_of<R: AllocGlobal + Env + Files>(
    rt: &R,
    has_clock: bool,
) -> std::result::Result<LocalZone, AllocError> {
    if has_clock {
        LocalZone::read(rt)
    } else {
        Ok(LocalZone::utc(rt.alloc()))
    }
}

/// What is put into lines of this form.
pub fn timing_of(zone: &LocalZone, is_json: bool, has_clock: bool) -> Timing<'_> {
    match (is_json, has_clock) {
        (true, _) => Timing::Member,
        (false, true) => Timing::Clock(zone),
        (false, false) => Timing::Unstamped,
    }
}

/// One of two outputs, whose lines have the time where that is asked. (A type of one lifetime, as the borrow checker wants it.)
#[derive(Drop)]
pub struct TimedOutlet<'a, R> {
    out: Stamped<'a, Outlet<'a>, WallClock<'a, R>>,
}

impl<'a, R: Clock> Write for TimedOutlet<'a, R> {
    #[inline(always)]
    fn write(&mut self, octets: &[u8]) -> Result<usize> {
        self.out.write(octets)
    }

    fn flush(&mut self) -> Result<()> {
        self.out.flush()
    }
}

/// One of two outputs, whose lines are written some time after what they tell, and have the time of that.
#[derive(Drop)]
pub struct LateOutlet<'a, R> {
    out: Stamped<'a, Outlet<'a>, Afterwards<'a, WallClock<'a, R>>>,
}

impl<'a, R: Clock> Write for LateOutlet<'a, R> {
    fn write(&mut self, octets: &[u8]) -> Result<usize> {
        self.out.write(octets)
    }

    fn flush(&mut self) -> Result<()> {
        self.out.flush()
    }
}

/// An output for lines that are written some time after what they tell.
pub trait LateWrite: Write {
    /// From now on lines tell of what was so many milliseconds ago.
    fn set_age(&mut self, millis: u64);
}

/// How long ago it was what the next line tells, in milliseconds: set by who tells it, read by who writes.
#[derive(Drop)]
pub struct Age {
    millis: Cell<u64>,
}

impl Age {
    /// It tells of now.
    pub fn new() -> Self {
        Age {
            millis: Cell::new(0),
        }
    }
}

/// A clock for lines of such an age.
#[derive(Drop)]
struct Belated<'a, M> {
    clock: M,
    age: &'a Age,
}

impl<'a, M: Moments> Moments for Belated<'a, M> {
    fn moment_of(&mut self, line: &[u8]) -> Option<u64> {
        self.clock
            .moment_of(line)?
            .checked_sub(self.age.millis.get())
    }
}

/// An output whose lines have the time of what they tell, as who writes them says.
#[derive(Drop)]
pub struct BelatedOutlet<'a, R> {
    out: Stamped<'a, Outlet<'a>, Belated<'a, WallClock<'a, R>>>,
    age: &'a Age,
}

impl<'a, R: Clock> Write for BelatedOutlet<'a, R> {
    fn write(&mut self, octets: &[u8]) -> Result<usize> {
        self.out.write(octets)
    }

    fn flush(&mut self) -> Result<()> {
        self.out.flush()
    }
}

impl<'a, R: Clock> LateWrite for BelatedOutlet<'a, R> {
    fn set_age(&mut self, millis: u64) {
        self.age.millis.set(millis);
    }
}

/// The outputs of a loop, and what is put into their lines.
#[derive(Drop)]
pub struct TimedOutputs<'a, R> {
    rt: &'a R,
    pub outputs: &'a Outputs,
    timing: Timing<'a>,
    age: &'a Age,
}

impl<'a, R: Clock> TimedOutputs<'a, R> {
    /// These outputs, with this in their lines. (`age` is that of belated lines.)
    pub fn new(rt: &'a R, outputs: &'a Outputs, timing: Timing<'a>, age: &'a Age) -> Self {
        TimedOutputs {
            rt,
            outputs,
            timing,
            age,
        }
    }

    /// Standard output.
    pub fn out(&self) -> TimedOutlet<'a, R> {
        let clock = WallClock::new(self.rt);
        TimedOutlet {
            out: Stamped::new(self.outputs.out(), clock, self.timing),
        }
    }

    /// Standard output, for what is told some time after it happened, by one who sets the present.
    pub fn late_out(&self, present: &'a Present) -> LateOutlet<'a, R> {
        let clock = Afterwards::new(WallClock::new(self.rt), present);
        LateOutlet {
            out: Stamped::new(self.outputs.out(), clock, self.timing),
        }
    }

    /// Standard error.
    pub fn err(&self) -> TimedOutlet<'a, R> {
        let clock = WallClock::new(self.rt);
        TimedOutlet {
            out: Stamped::new(self.outputs.err(), clock, self.timing),
        }
    }

    /// Standard error, for what is told some time after it happened, by one who says how long.
    pub fn belated_err(&self) -> BelatedOutlet<'a, R> {
        let clock = Belated {
            clock: WallClock::new(self.rt),
            age: self.age,
        };
        BelatedOutlet {
            out: Stamped::new(self.outputs.err(), clock, self.timing),
            age: self.age,
        }
    }

    /// What stands in front of a line that is written so many milliseconds from now.
    pub fn front_in(&self, millis: u64) -> ClockFront {
        match self.timing {
            Timing::Clock(zone) => {
                let now = WallClock::new(self.rt).moment_of(b"");
                clock_text(now.and_then(|it| it.checked_add(millis)), &zone.zone())
            }
            _ => ClockFront::new(),
        }
    }

    /// The letters of a line that is to fit into so many columns.
    pub fn width_in(&self, columns: usize) -> usize {
        match self.timing {
            Timing::Clock(_) => columns.saturating_sub(CLOCK_LETTERS),
            _ => columns,
        }
    }
}
